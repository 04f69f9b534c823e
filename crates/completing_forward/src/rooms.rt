use crate::known::KnownPairs;
use crate::limit::{Limit, most_before};
use completing::{Count, Free, PairRange};
use version_pair::Pair;

// The number of free numbers between two known pairs. Before a greater term there is no end of them.
fn free_between(free: Free<'_>, last: Option<Pair>, next: Pair) -> u64 {
    match PairRange::between(last, next) {
        Some(gap) => free.count(gap.from, gap.upper),
        None => u64::MAX,
    }
}

/// Sets how many writes may be inserted before each known pair, within the limits.
pub fn set_rooms<D: Count>(known: &mut KnownPairs<D>, free: Free<'_>, limits: &[Limit]) {
    let mut last = None;
    for entry in &mut known.entries {
        let room = free_between(free, last, entry.pair);
        entry.room = room.min(most_before(limits, entry.pair));
        last = Some(entry.pair);
    }
}
