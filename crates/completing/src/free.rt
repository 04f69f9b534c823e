use version_pair::Pair;

/// The pairs of a shard that are not in use.
#[derive(Clone, Copy)]
pub struct Free<'a> {
    // The pairs that are in use, rising.
    used: &'a [Pair],
}

impl Free<'_> {
    /// Returns all pairs but those in use, which must rise.
    pub fn among(used: &[Pair]) -> Free<'_> {
        Free { used }
    }

    // The pairs in use from this one on.
    fn used_from(&self, pair: Pair) -> &[Pair] {
        &self.used[self.used.partition_point(|entry| *entry < pair)..]
    }

    /// Returns the number of pairs that are free from one pair on and below another of its term.
    pub fn count(self, from: Pair, below: Pair) -> u64 {
        let used = self.used_from(from).partition_point(|entry| *entry < below);
        // (None is free if the second pair is not above the first: the number isn't below zero.)
        below
            .seq()
            .saturating_sub(from.seq())
            .saturating_sub(used as u64)
    }

    /// Returns the least number that is free in the term of a pair, from its own number on.
    pub fn least_from(self, from: Pair) -> u64 {
        // It is found by bisection: pairs in use follow one another without a gap up to one of them if and
        // only if that one is where it would be without a gap.
        let mut next = from.seq();
        let mut rest = self.used_from(from);
        for _ in 0..usize::BITS {
            let (lesser, others) = rest.split_at(rest.len() / 2);
            let Some((middle, greater)) = others.split_first() else {
                break;
            };
            let follows = middle.seq().checked_sub(next) == Some(lesser.len() as u64);
            if middle.term() == from.term() && follows {
                next = middle.seq() + 1;
                rest = greater;
            } else {
                rest = lesser;
            }
        }
        next
    }

    /// Returns the least pair that is free from one pair on and below another, which must be of the same
    /// term; `None` if none is free.
    pub fn least(self, from: Pair, below: Pair) -> Option<Pair> {
        let seq = self.least_from(from);
        if seq < below.seq() {
            Pair::new(from.term(), seq)
        } else {
            None
        }
    }
}

/// The pairs between two pairs of one term: from one on and below another.
#[derive(Clone, Copy)]
pub struct PairRange {
    pub from: Pair,
    pub upper: Pair,
}

impl PairRange {
    /// Returns the pairs above a pair and below another, if both are of one term. Before the first pair the
    /// term counts as 1.
    pub fn between(lower: Option<Pair>, upper: Pair) -> Option<PairRange> {
        let (term, seq) = match lower {
            Some(lower) => (lower.term(), lower.seq() + 1),
            None => (1, 0),
        };
        if term != upper.term() {
            return None;
        }
        Some(PairRange {
            from: Pair::new(term, seq)?,
            upper,
        })
    }
}
