use crate::renumbered::gaps::Gap;
use completing::PairRange;
use std::alloc::Global;
use version_pair::{NoMemory, Pair};

/// A gap with its index in the list.
#[derive(Clone, Copy)]
pub struct ListedGap<'a> {
    pub number: usize,
    pub gap: &'a Gap,
}

/// The pairs that a gap was given.
#[derive(Drop)]
pub struct Filled<'a> {
    pub listed: ListedGap<'a>,
    pub pairs: Vec<Pair>,
}

// The greatest number of rounds in which the span is widened.
const MOST_ROUNDS: usize = 64;

// Numbers of a shard between two ends of one term.
#[derive(Clone, Copy)]
struct Span {
    shard: u32,
    numbers: PairRange,
}

impl Span {
    // Returns whether one of the pairs that the gap was given is in the span.
    fn touches(self, gap: &Gap, pairs: &[Pair]) -> bool {
        gap.shard == self.shard
            && pairs.iter().any(|pair| self.numbers.from <= *pair && *pair < self.numbers.upper)
    }

    // Returns the span, widened by that of the gap.
    fn with(self, gap: &Gap) -> Span {
        Span {
            shard: self.shard,
            numbers: PairRange {
                from: self.numbers.from.min(gap.numbers.from),
                upper: self.numbers.upper.max(gap.numbers.upper),
            },
        }
    }
}

/// Returns the gaps that together want more numbers than are free between their ends, by their indices in the
/// list: the one that found none, and those that were given numbers between its ends, between the ends of these,
/// and so on.
pub fn tight_set(
    alloc: Global,
    filled: &[Filled],
    failed: ListedGap,
) -> Result<Vec<usize>, NoMemory> {
    let mut tight = Vec::new(alloc);
    tight.push(failed.number)?;
    let mut span = Span {
        shard: failed.gap.shard,
        numbers: failed.gap.numbers,
    };
    let mut is_in = vec![in alloc; false; filled.len()]?;
    for _ in 0..MOST_ROUNDS {
        let before = tight.len();
        for (entry, flag) in filled.iter().zip(is_in.iter_mut()) {
            if !*flag && span.touches(entry.listed.gap, &entry.pairs) {
                *flag = true;
                tight.push(entry.listed.number)?;
                span = span.with(entry.listed.gap);
            }
        }
        if tight.len() == before {
            break;
        }
    }
    Ok(tight)
}
