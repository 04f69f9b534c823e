use crate::taken::shard_of;
use events::{Front, Rec};
use places::DocWitness;
use std::alloc::Global;
use version_pair::{NoMemory, Pair};

/// The pairs that are in use, by shard.
#[derive(Drop)]
pub struct UsedPairs {
    // The lists of the shards, by their numbers, each rising.
    shards: Vec<Vec<Pair>>,
    // Whether two answered writes of a shard have one pair.
    has_twice: bool,
}

/// The calls of a document.
#[derive(Clone, Copy)]
pub struct ShownCalls<'a> {
    /// The shard of the document, if it is known.
    pub shard: Option<u32>,
    pub records: &'a [Rec],
}

// Adds the pairs that a call shows to be in use: the one that its reply shows, and, if it was performed, that
// of its condition.
fn note_used(list: &mut Vec<Pair>, found: Rec) -> Result<(), NoMemory> {
    if let Some(pair) = found.heard.and_then(|heard| heard.1.pair()) {
        list.push(pair)?;
    }
    if found.pair_taken().is_some() {
        if let Some(named) = found.op.condition() {
            list.push(named)?;
        }
    }
    Ok(())
}

impl UsedPairs {
    // Returns no pairs.
    fn none(alloc: Global) -> UsedPairs {
        UsedPairs {
            shards: Vec::new(alloc),
            has_twice: false,
        }
    }

    /// Returns the pairs that these calls show to be in use: a get found them, a write that was performed has
    /// them, or its condition names them.
    pub fn shown(alloc: Global, documents: &[ShownCalls<'_>]) -> Result<UsedPairs, NoMemory> {
        let mut used = UsedPairs::none(alloc);
        for document in documents {
            if let Some(list) = used.list(alloc, document.shard)? {
                for found in document.records {
                    note_used(list, *found)?;
                }
            }
        }
        used.sort();
        Ok(used)
    }

    /// Returns the pairs that the answered writes of these witnesses have, and those of the other writes,
    /// each with its shard.
    pub fn taken(
        alloc: Global,
        history: &Front<'_>,
        witnesses: &[DocWitness],
        others: &[(u32, Pair)],
    ) -> Result<UsedPairs, NoMemory> {
        let mut used = UsedPairs::none(alloc);
        for witness in witnesses {
            if let Some(list) = used.list(alloc, shard_of(history, witness.id()))? {
                for found in witness.records() {
                    if let Some(pair) = found.pair_taken() {
                        list.push(pair)?;
                    }
                }
            }
        }
        used.has_twice = used.sort();
        for (shard, pair) in others {
            if let Some(list) = used.list(alloc, Some(*shard))? {
                list.push(*pair)?;
            }
        }
        used.sort();
        Ok(used)
    }

    // Returns the list of a shard.
    fn list(
        &mut self,
        alloc: Global,
        shard: Option<u32>,
    ) -> Result<Option<&mut Vec<Pair>>, NoMemory> {
        let Some(shard) = shard.and_then(|shard| usize::try_from(shard).ok()) else {
            return Ok(None);
        };
        for _ in self.shards.len()..=shard {
            self.shards.push(Vec::new(alloc))?;
        }
        Ok(self.shards.get_mut(shard))
    }

    // Whether two answered writes of a shard have one pair, as far as these are given by witnesses.
    pub(crate) fn has_twice(&self) -> bool {
        self.has_twice
    }

    // Sorts the lists. A pair that was added twice stays once. Returns whether there was one.
    fn sort(&mut self) -> bool {
        let mut has_twice = false;
        for list in &mut self.shards {
            let added = list.len();
            list.sort_unstable();
            list.dedup();
            has_twice = has_twice || list.len() < added;
        }
        has_twice
    }

    /// Returns the pairs in use in a shard, rising.
    pub fn of_shard(&self, shard: u32) -> &[Pair] {
        match usize::try_from(shard) {
            Ok(shard) => match self.shards.get(shard) {
                Some(list) => list,
                None => &[],
            },
            Err(_) => &[],
        }
    }
}
