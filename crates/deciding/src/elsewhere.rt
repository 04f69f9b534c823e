//! Pairs that other documents of a shard are known to have.

ghost use Rattle.std.specs.Prelude.{◌≡◌, ◌≢◌, ◌⊎◌, ◌↔◌, IfOk, IfSome, IsSorted, IsTrue, OnOk, Some as Just, None as Nothing, ℕ, true, slice_get};
ghost use Rattle.std.specs.BTreeMap.{get};
ghost use Rattle.version_pair.specs.declared.pair.Pair.{Pair as PairOf};
ghost use Rattle.version_pair.specs.PairOrder.{IsBelow};
ghost use Rattle.deciding.specs.Elsewhere.{IsIn, is_kept};
ghost use Rattle.deciding.specs.aids.Ends.{AreAbove, HasEnds, IsFreeFrom};
ghost use Rattle.write_chain.specs.Chain.{pair_cmp};

use crate::above::least_above;
use std::alloc::Global;
use std::collections::BTreeMap;
use version_pair::{NoMemory, Pair};

/// Pairs that other documents of a shard are known to have, so that no write of this document has taken one of them.
#[derive(Drop)]
pub struct Elsewhere {
    // For each of them the least pair above it that is not one; `None` if each pair above it is one.
    ends: BTreeMap<Pair, Option<Pair>>,
    ghost ends_right: { HasEnds ends },
}

// Whether the pair is below the last one, if there is one.
fn is_below(pair: Pair, last: Option<Pair>) -> bool
    ensures { IsTrue result ↔ IfSome last (IsBelow pair) }
{
    match last {
        Some(last) => pair.is_below(last),
        None => true,
    }
}

// The least pair from this one on that is not kept.
fn free_from(ends: &BTreeMap<Pair, Option<Pair>>, pair: Pair) -> Option<Pair>
    ensures { HasEnds ends.now → IsFreeFrom ends.now pair result }
{
    match ends.get(&pair) {
        Some(end) => *end,
        None => Some(pair),
    }
}

// Sets what stands with the pair.
fn set_end(
    ends: &mut BTreeMap<Pair, Option<Pair>>,
    pair: Pair,
    end: Option<Pair>,
) -> Result<(), NoMemory>
    ensures own { OnOk result (get pair_cmp ends.new pair ≡ Just end) }
    ensures others { OnOk result ((q : PairOf) → q ≢ pair → get pair_cmp ends.new q ≡ get pair_cmp ends.old q) }
{
    ends.insert(pair, end)?;
    Ok(())
}

// Keeps the pair, which is below all that are kept.
fn keep(ends: &mut BTreeMap<Pair, Option<Pair>>, pair: Pair) -> Result<(), NoMemory>
    ensures kept { OnOk result ((q : PairOf) → is_kept ends.new q ≡ true → (q ≡ pair) ⊎ (is_kept ends.old q ≡ true)) }
    ensures stays { OnOk result ((q : PairOf) → (q ≡ pair) ⊎ (is_kept ends.old q ≡ true) → is_kept ends.new q ≡ true) }
    ensures ends { OnOk result (HasEnds ends.old → ((p : PairOf) → is_kept ends.old p ≡ true → IsBelow pair p) → HasEnds ends.new) }
{
    let end = match least_above(Some(pair)) {
        Some(next) => free_from(ends, next),
        None => None,
    };
    set_end(ends, pair, end)
}

// The pairs of the list, which rises, with the free ones above them.
fn ends_of(alloc: Global, pairs: &[Pair]) -> Result<BTreeMap<Pair, Option<Pair>>, NoMemory>
    requires { IsSorted pair_cmp pairs.now }
    ensures listed { IfOk result (λ ends. (q : PairOf) → is_kept ends q ≡ true → IsIn pairs.now q) }
    ensures kept { IfOk result (λ ends. (q : PairOf) → IsIn pairs.now q → is_kept ends q ≡ true) }
    ensures ends { IfOk result HasEnds }
{
    let mut ends = BTreeMap::new(alloc);
    let mut last = None;
    for i in (0..pairs.len()).rev() {
        let pair = pairs[i];
        if is_below(pair, last) {
            keep(&mut ends, pair)?;
            last = Some(pair);
        }
    }
    Ok(ends)
}

impl Elsewhere {
    /// Returns the pairs of the list, which may stand in any order and more than once.
    pub fn of(alloc: Global, mut pairs: Vec<Pair>) -> Result<Elsewhere, NoMemory>
        // A pair is one of them exactly if it is in the list.
        ensures { IfOk result (λ elsewhere. (q : PairOf) → (is_kept elsewhere.ends q ≡ true) ↔ IsIn pairs.items q) }
    {
        pairs.sort_unstable();
        let ends = ends_of(alloc, &pairs)?;
        Ok(Elsewhere { ends })
    }

    /// Returns whether the pair is one of them.
    pub(crate) fn contains(&self, pair: Pair) -> bool
        ensures { result ≡ is_kept self.now.ends pair }
    {
        self.ends.contains_key(&pair)
    }

    /// Returns the least pair from this one on that is not one of them; `None` if there is no such pair.
    pub(crate) fn free_from(&self, pair: Pair) -> Option<Pair>
        ensures { IsFreeFrom self.now.ends pair result }
    {
        free_from(&self.ends, pair)
    }
}
