ghost use Rattle.std.specs.Prelude.{◌<◌, All, IfOk, length};

use crate::renumbered::free_numbers::{FreeNumbers, pair_after};
use crate::renumbered::gaps::{Gap, Gaps};
use crate::renumbered::names::Names;
use crate::renumbered::tight::{Filled, ListedGap, tight_set};
use crate::used_pairs::UsedPairs;
use events::HashKeys;
use places::DocWitness;
use std::alloc::Global;
use version_pair::{NoMemory, Pair};

mod free_numbers;
pub mod gaps;
mod given;
mod names;
mod tight;

/// Another pair for a place of a witness.
#[derive(Clone, Copy, PartialEq, Eq, PartialOrd, Ord)]
pub struct Change {
    /// The number of the witness.
    pub witness: usize,
    /// The index of the place.
    pub place: usize,
    /// The pair that it gets.
    pub pair: Pair,
}

// The source of the numbers that are given, and what decides which places may take them.
#[derive(Drop)]
struct GapNumbering<'a> {
    free: FreeNumbers<'a>,
    names: &'a Names,
    // Whether the pairs that conditions of the document name are avoided.
    avoids: bool,
}

impl GapNumbering<'_> {
    // Returns free pairs for the places of a gap, in their order: each takes the least above the one before
    // that it may take. `None` if the gap has too few.
    fn free_pairs(
        &mut self,
        alloc: Global,
        gap: &Gap,
        avoids: bool,
    ) -> Result<Option<Vec<Pair>>, NoMemory> {
        let mut pairs = Vec::new(alloc);
        let mut from = Some(gap.numbers.from);
        for place in &gap.places {
            let Some(least) = from else {
                return Ok(None);
            };
            let Some(pair) = self.free.least(self.names, gap, *place, least, avoids)? else {
                return Ok(None);
            };
            pairs.push(pair)?;
            from = pair_after(pair);
        }
        Ok(Some(pairs))
    }

    // Returns free pairs for the places of a gap. If named pairs are avoided, those that a condition of the
    // document names are taken only if there are too few others.
    fn pairs_for(&mut self, alloc: Global, gap: &Gap) -> Result<Option<Vec<Pair>>, NoMemory> {
        if self.avoids {
            if let Some(pairs) = self.free_pairs(alloc, gap, true)? {
                return Ok(Some(pairs));
            }
        }
        self.free_pairs(alloc, gap, false)
    }

    // Gives the gap its pairs, and returns them; `None` if there are too few.
    fn fill(&mut self, alloc: Global, gap: &Gap) -> Result<Option<Vec<Pair>>, NoMemory> {
        let Some(pairs) = self.pairs_for(alloc, gap)? else {
            return Ok(None);
        };
        for pair in &pairs {
            self.free.give(gap.shard, *pair)?;
        }
        Ok(Some(pairs))
    }

    // Gives the gaps their pairs, the one with the least upper end first, up to one that has too few, which is
    // returned.
    fn fill_all<'g>(
        &mut self,
        alloc: Global,
        gaps: &'g Gaps,
        filled: &mut Vec<Filled<'g>>,
    ) -> Result<Option<ListedGap<'g>>, NoMemory> {
        let ends = gaps_by_end(alloc, gaps)?;
        for i in 0..ends.len() {
            let number = ends[i].gap;
            let gap = &gaps.list[number];
            let listed = ListedGap { number, gap };
            let Some(pairs) = self.fill(alloc, gap)? else {
                return Ok(Some(listed));
            };
            filled.push(Filled { listed, pairs })?;
        }
        Ok(None)
    }
}

// The upper end of a gap.
#[derive(Clone, Copy, PartialEq, Eq, PartialOrd, Ord)]
struct GapEnd {
    shard: u32,
    upper: Pair,
    // The index of the gap in the list.
    gap: usize,
}

// Returns the upper ends of the gaps, by shard and then by pair.
fn gaps_by_end(alloc: Global, gaps: &Gaps) -> Result<Vec<GapEnd>, NoMemory>
    ensures { IfOk result (λ ends. All (λ e. e.gap < length gaps.now.list.items) ends.items) }
{
    let mut ends = Vec::with_capacity(alloc, gaps.list.len())?;
    for gap in 0..gaps.list.len() {
        ends.push(GapEnd {
            shard: gaps.list[gap].shard,
            upper: gaps.list[gap].numbers.upper,
            gap,
        })?;
    }
    ends.sort_unstable();
    Ok(ends)
}

// Returns the changes that give the gaps their pairs, in the order of witnesses and places.
fn changes_to(alloc: Global, filled: &[Filled]) -> Result<Vec<Change>, NoMemory> {
    let mut changes = Vec::new(alloc);
    for entry in filled {
        for (place, pair) in entry.listed.gap.places.iter().zip(entry.pairs.iter()) {
            changes.push(Change {
                witness: entry.listed.gap.witness,
                place: *place,
                pair: *pair,
            })?;
        }
    }
    changes.sort_unstable();
    Ok(changes)
}

/// The result of giving numbers to gaps.
#[derive(Drop)]
pub enum GapNumbers {
    /// Other pairs for their places, in the order of witnesses and places.
    Given(Vec<Change>),
    /// Too few numbers are free for these gaps, by their indices in the list.
    Short(Vec<usize>),
    /// Two answered writes have one pair, whatever numbers the others get.
    Spent,
}

// Returns numbers for all gaps, the one with the least upper end first. Each takes the least numbers that are
// free and that it may take, so there are enough for all exactly if each finds some.
fn numbers_in(
    alloc: Global,
    gaps: &Gaps,
    numbering: &mut GapNumbering<'_>,
) -> Result<GapNumbers, NoMemory> {
    for (shard, pair) in &gaps.kept {
        numbering.free.give(*shard, *pair)?;
    }
    let mut filled = Vec::new(alloc);
    match numbering.fill_all(alloc, gaps, &mut filled)? {
        Some(failed) => Ok(GapNumbers::Short(tight_set(alloc, &filled, failed)?)),
        None => Ok(GapNumbers::Given(changes_to(alloc, &filled)?)),
    }
}

/// Returns numbers for all gaps of the witnesses, over all documents of a shard, the gap with the least upper
/// end first. Each takes the least number that is neither in use nor given, and one that a condition of its
/// document names only if too few others are left. If there are too few in this way, named numbers aren't
/// avoided.
///
/// The numbers come with no guarantee: whether they are distinct is checked again.
pub fn numbers_of(
    alloc: Global,
    keys: HashKeys,
    witnesses: &[DocWitness],
    gaps: &Gaps,
    used: &UsedPairs,
) -> Result<GapNumbers, NoMemory> {
    if used.has_twice() {
        return Ok(GapNumbers::Spent);
    }
    let names = Names::of(alloc, keys, witnesses, gaps, used)?;
    let mut numbers = GapNumbers::Short(Vec::new(alloc));
    for avoids in [true, false] {
        let mut numbering = GapNumbering {
            free: FreeNumbers::without(alloc, keys, used),
            names: &names,
            avoids,
        };
        numbers = numbers_in(alloc, gaps, &mut numbering)?;
        if matches!(&numbers, GapNumbers::Given(_)) {
            break;
        }
    }
    Ok(numbers)
}
