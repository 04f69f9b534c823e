use crate::renumbered::gaps::Gap;
use crate::renumbered::names::Names;
use crate::used_pairs::UsedPairs;
use completing::Free;
use events::HashKeys;
use indexmap::IndexMap;
use std::alloc::Global;
use version_pair::{NoMemory, Pair};

/// The numbers of each shard that are neither in use nor given.
#[derive(Drop)]
pub struct FreeNumbers<'u> {
    used: &'u UsedPairs,
    // The pairs that were given, each with a number from which to continue the search: those between aren't
    // free.
    given: IndexMap<(u32, Pair), u64, HashKeys>,
}

/// Returns the pair with the next number in the term.
pub fn pair_after(pair: Pair) -> Option<Pair> {
    Pair::new(pair.term(), pair.seq() + 1)
}

impl FreeNumbers<'_> {
    /// Returns all numbers except those in use. Pairs that are given are found by hashes with these keys.
    pub fn without(alloc: Global, keys: HashKeys, used: &UsedPairs) -> FreeNumbers<'_> {
        FreeNumbers {
            used,
            given: IndexMap::with_hasher(alloc, keys),
        }
    }

    /// Gives the pair.
    pub fn give(&mut self, shard: u32, pair: Pair) -> Result<(), NoMemory> {
        self.given.insert((shard, pair), pair.seq() + 1)?;
        Ok(())
    }

    // Returns the least pair from this one on, of its term, that is not in use.
    fn unused(&self, shard: u32, from: Pair) -> Option<Pair> {
        let seq = Free::among(self.used.of_shard(shard)).least_from(from);
        Pair::new(from.term(), seq)
    }

    // Returns where to continue the search after a pair that was given.
    fn after(&self, shard: u32, pair: Pair) -> Option<Pair> {
        let next = self.given.get(&(shard, pair)).copied()?;
        self.unused(shard, Pair::new(pair.term(), next)?)
    }

    // Returns the least free pair from this one on, of its term.
    fn first(&self, shard: u32, from: Pair) -> Option<Pair> {
        let mut pair = self.unused(shard, from)?;
        for _ in 0..self.given.len() {
            match self.after(shard, pair) {
                Some(next) => pair = next,
                None => return Some(pair),
            }
        }
        Some(pair)
    }

    // Makes the given pairs on the way from one pair to a free one point to the free one.
    fn point(&mut self, shard: u32, from: Pair, to: Pair) -> Result<(), NoMemory> {
        let mut pair = self.unused(shard, from);
        for _ in 0..self.given.len() {
            let Some(own) = pair else {
                return Ok(());
            };
            pair = self.after(shard, own);
            if pair.is_some() {
                self.given.insert((shard, own), to.seq())?;
            }
        }
        Ok(())
    }

    /// Returns the least pair from this one on, below the gap's upper end, that is free and that the names
    /// allow for a place of the gap.
    pub fn least(
        &mut self,
        names: &Names,
        gap: &Gap,
        place: usize,
        from: Pair,
        avoids: bool,
    ) -> Result<Option<Pair>, NoMemory> {
        let mut start = from;
        for _ in 0..=names.len() {
            let Some(pair) = self.first(gap.shard, start) else {
                return Ok(None);
            };
            self.point(gap.shard, start, pair)?;
            if pair >= gap.numbers.upper {
                return Ok(None);
            }
            if names.allow(gap, place, pair, avoids) {
                return Ok(Some(pair));
            }
            let Some(next) = pair_after(pair) else {
                return Ok(None);
            };
            start = next;
        }
        Ok(None)
    }
}
