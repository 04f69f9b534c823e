use crate::renumbered::gaps::{Gap, Gaps};
use crate::taken::shard_of;
use events::{Front, Rec};
use places::DocWitness;
use std::alloc::Global;
use version_pair::{NoMemory, Pair};

/// Too few numbers for the invented pairs of some documents.
#[derive(Drop)]
pub struct Shortage {
    /// The gaps of all documents.
    pub gaps: Gaps,
    /// Those that together need more numbers than are free between their ends, by their positions in the
    /// list.
    pub tight: Vec<usize>,
}

// The pair with the number before that of this one, or itself if it is the first of its term.
fn pair_before(pair: Pair) -> Pair {
    Pair::new(pair.term(), pair.seq().saturating_sub(1)).unwrap_or(pair)
}

// Numbers of a shard, both ends among them.
#[derive(Clone, Copy)]
struct NumberSpan {
    shard: u32,
    from: Pair,
    to: Pair,
}

impl NumberSpan {
    // Whether it has the pair.
    fn has(self, pair: Pair) -> bool {
        self.from <= pair && pair <= self.to
    }
}

// The position of the reply to the call, if the reply shows a pair of the span.
fn shown_in(span: NumberSpan, found: Rec) -> Option<(Pair, usize)> {
    let (place, reply) = found.heard?;
    let pair = reply.pair()?;
    if span.has(pair) {
        Some((pair, place))
    } else {
        None
    }
}

impl Shortage {
    /// Returns one of the gaps that need too many numbers.
    pub fn tight_gap(&self, number: usize) -> Option<&Gap> {
        self.gaps.list.get(*self.tight.get(number)?)
    }

    /// Returns the numbers of the witnesses of these gaps, rising, each once.
    pub fn witnesses(&self, alloc: Global) -> Result<Vec<usize>, NoMemory> {
        let mut witnesses = Vec::new(alloc);
        for number in 0..self.tight.len() {
            if let Some(gap) = self.tight_gap(number) {
                witnesses.push(gap.witness)?;
            }
        }
        witnesses.sort_unstable();
        witnesses.dedup();
        Ok(witnesses)
    }

    // The pairs that these gaps lie between, and those within.
    fn span(&self) -> Option<NumberSpan> {
        let first = self.tight_gap(0)?;
        let mut span = NumberSpan {
            shard: first.shard,
            from: pair_before(first.numbers.from),
            to: first.numbers.upper,
        };
        for number in 1..self.tight.len() {
            let gap = self.tight_gap(number)?;
            span.from = span.from.min(pair_before(gap.numbers.from));
            span.to = span.to.max(gap.numbers.upper);
        }
        Some(span)
    }

    /// Returns the latest among the first replies to show each pair from the end below these gaps to the end
    /// above: without it one of these pairs isn't known.
    pub fn last_shown(
        &self,
        alloc: Global,
        history: &Front<'_>,
        witnesses: &[DocWitness],
    ) -> Result<Option<usize>, NoMemory> {
        let Some(span) = self.span() else {
            return Ok(None);
        };
        let mut shown = Vec::new(alloc);
        for witness in witnesses {
            if shard_of(history, witness.id()) == Some(span.shard) {
                for found in witness.records() {
                    if let Some(entry) = shown_in(span, *found) {
                        shown.push(entry)?;
                    }
                }
            }
        }
        shown.sort_unstable();
        Ok(last_first(&shown))
    }
}

// The greatest position of those that are the first with their pair.
fn last_first(shown: &[(Pair, usize)]) -> Option<usize> {
    let mut last = None;
    for i in 0..shown.len() {
        if i == 0 || shown[i - 1].0 != shown[i].0 {
            last = last.max(Some(shown[i].1));
        }
    }
    last
}
