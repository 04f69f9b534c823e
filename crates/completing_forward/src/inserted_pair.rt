use crate::walk::ForwardWalk;
use completing::{Count, PairRange};
use version_pair::Pair;

/// A pair that conditions name and no write is known to have.
#[derive(Clone, Copy)]
pub struct NamedPair {
    pub pair: Pair,
    /// Its index among these pairs, and the next one.
    pub at: usize,
    pub next: usize,
}

impl NamedPair {
    // The pair with this index.
    fn with_index(pair: Pair, at: usize) -> NamedPair {
        let next = at.saturating_add(1);
        NamedPair { pair, at, next }
    }
}

impl<D: Count> ForwardWalk<'_, D> {
    /// Returns the numbers that are left before the next known pair, if the pair before it is of the same
    /// term.
    pub fn gap(&self) -> Option<PairRange> {
        PairRange::between(self.state.last, self.next_known()?.pair)
    }

    // The least free pair of the gap that no condition names and that leaves enough free pairs after it.
    fn unnamed_pair(&self, gap: PairRange) -> Option<Pair> {
        let behind = self.state.behind();
        let mut from = gap.from;
        for _ in 0..self.known.named.len() + 1 {
            let pair = self.free.least(from, gap.upper)?;
            from = Pair::new(pair.term(), pair.seq() + 1)?;
            if self.free.count(from, gap.upper) < behind {
                return None;
            }
            if self.known.named_place(pair).is_none() {
                return Some(pair);
            }
        }
        None
    }

    /// Returns the pair that the next inserted write takes, between two pairs of one term: the least free one
    /// that no condition names, if one is left; otherwise the least free one.
    pub fn pair_to_insert(&self) -> Option<Pair> {
        let gap = self.gap()?;
        match self.unnamed_pair(gap) {
            Some(pair) => Some(pair),
            None => self.free.least(gap.from, gap.upper),
        }
    }

    // The named pair with this index, if an inserted write may take it that comes between two pairs of one term, and
    // one more can be inserted after it.
    fn named_within(&self, gap: PairRange, at: usize) -> Option<NamedPair> {
        let pair = *self.known.named.get(at)?;
        let behind = Pair::new(pair.term(), pair.seq() + 1)?;
        let is_free = self.free.least(pair, gap.upper) == Some(pair);
        if is_free && self.free.count(behind, gap.upper) > 0 {
            Some(NamedPair::with_index(pair, at))
        } else {
            None
        }
    }

    // The named pair with this index, if no document is known to use it.
    fn named_beyond(&self, at: usize) -> Option<NamedPair> {
        let pair = *self.known.named.get(at)?;
        let behind = Pair::new(pair.term(), pair.seq() + 1)?;
        if self.free.least(pair, behind) == Some(pair) {
            Some(NamedPair::with_index(pair, at))
        } else {
            None
        }
    }

    // Whether a named pair comes before the next known one.
    fn is_before_next(&self, pair: Pair) -> bool {
        match self.next_known() {
            Some(next) => pair < next.pair,
            None => true,
        }
    }

    /// Returns the first of the pairs that conditions name, from an index among them on, that an inserted
    /// write may take such that one more can be inserted after it. If a write was inserted whose pair is chosen at the
    /// end, there is none.
    pub fn named_pair(&self, from: usize) -> Option<NamedPair> {
        let gap = self.gap();
        if gap.is_none() && self.state.has_unpaired {
            return None;
        }
        let first = match self.state.last {
            Some(last) => self.known.first_named(last),
            None => 0,
        };
        for at in first.max(from)..self.known.named.len() {
            let pair = self.known.named[at];
            if !self.is_before_next(pair) {
                return None;
            }
            let named = match gap {
                Some(gap) => self.named_within(gap, at),
                None => self.named_beyond(at),
            };
            if named.is_some() && self.state.last < Some(pair) {
                return named;
            }
        }
        None
    }
}
