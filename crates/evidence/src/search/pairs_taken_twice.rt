ghost use Rattle.std.specs.Prelude.{IfOk, IfSome};
ghost use Rattle.evidence.specs.Evidence.{IsOfCalls};

use crate::refuted::Refuted;
use crate::search::calls_with_pairs::WriteWithPair;
use events::{TakenPair, next_taken_again};
use std::alloc::Global;
use version_pair::NoMemory;

// The lesser of two pairs of call numbers.
fn lesser(one: (u64, u64), other: Option<(u64, u64)>) -> (u64, u64) {
    match other {
        Some(least) => least.min(one),
        None => one,
    }
}

/// Returns the first two writes, by their numbers, of one shard with the same pair.
pub fn least_pair_twice(
    alloc: Global,
    writes: &[WriteWithPair],
) -> Result<Option<Refuted>, NoMemory>
    ensures { IfOk result (λ found. IfSome found IsOfCalls) }
{
    let mut taken = Vec::with_capacity(alloc, writes.len())?;
    for write in writes {
        taken.push(TakenPair {
            shard: write.performed.shard,
            pair: write.performed.pair,
            by: write.no,
        })?;
    }
    taken.sort_unstable();
    let mut least = None;
    let mut from = 1;
    while let Some(again) = next_taken_again(&taken, from) {
        least = Some(lesser((taken[again - 1].by, taken[again].by), least));
        from = again + 1;
    }
    Ok(least.map(|(one, two)| Refuted::PairTwice(one, two)))
}
