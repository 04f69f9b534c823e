use crate::renumbered::gaps::{Gap, Gaps};
use crate::taken::pair_of_place;
use crate::used_pairs::UsedPairs;
use doc_register::Op;
use events::{HashKeys, Rec};
use indexmap::IndexSet;
use places::DocWitness;
use std::alloc::Global;
use version_pair::{NoMemory, Pair};

/// The free pairs that conditions of documents with gaps name.
#[derive(Drop)]
pub struct Names {
    // The pairs not in use that conditions of a document name, each with the number of its witness.
    named: IndexSet<(usize, Pair), HashKeys>,
    // The pairs that no write may take, since a write on that condition is refused before the next performed
    // one; each with the number of its witness and the index of the write's place.
    refused: IndexSet<(usize, usize, Pair), HashKeys>,
}

// Returns the pair that a call's condition names, unless its reply shows that the call was performed.
fn name_of(found: Rec) -> Option<Pair> {
    match found.pair_taken() {
        Some(_) => None,
        None => found.op.condition(),
    }
}

impl Names {
    /// Returns the free pairs that conditions name in the documents with these gaps, given which pairs are in
    /// use. The gaps of a document must be next to each other in the list, each with the number of its
    /// witness. Pairs are found by hashes with these keys.
    pub fn of(
        alloc: Global,
        keys: HashKeys,
        witnesses: &[DocWitness],
        gaps: &Gaps,
        used: &UsedPairs,
    ) -> Result<Names, NoMemory> {
        let mut names = Names {
            named: IndexSet::with_hasher(alloc, keys),
            refused: IndexSet::with_hasher(alloc, keys),
        };
        let mut last = None;
        for gap in &gaps.list {
            if last != Some(gap.witness) {
                if let Some(witness) = witnesses.get(gap.witness) {
                    names.note_named(gap.witness, witness, used.of_shard(gap.shard))?;
                    names.note_refused(gap.witness, witness)?;
                }
            }
            last = Some(gap.witness);
        }
        Ok(names)
    }

    // Adds the pairs not in use that conditions of the document name.
    fn note_named(
        &mut self,
        number: usize,
        witness: &DocWitness,
        used: &[Pair],
    ) -> Result<(), NoMemory> {
        for found in witness.records() {
            if let Some(pair) = name_of(*found) {
                if used.binary_search(&pair).is_err() {
                    self.named.insert((number, pair))?;
                }
            }
        }
        Ok(())
    }

    // Adds the conditions of the writes that are refused while the document has the pair of an invented
    // write.
    fn note_refused(&mut self, number: usize, witness: &DocWitness) -> Result<(), NoMemory> {
        let mut present = None;
        let places = witness.places();
        for i in 0..places.len() {
            let found = witness.call(i);
            if pair_of_place(witness.records(), places[i]).is_some() {
                let is_there = !matches!(found.op, Op::Delete { .. });
                present = if is_there && places[i].pair.is_some() {
                    Some(i)
                } else {
                    None
                };
            } else if let (Some(place), Some(pair)) = (present, found.op.condition()) {
                self.refused.insert((number, place, pair))?;
            }
        }
        Ok(())
    }

    /// Returns the number of pairs that are named.
    pub fn len(&self) -> usize {
        self.named.len()
    }

    /// Returns whether a place of the gap may take the pair, which is free: no condition of the document
    /// names it; or, if such pairs aren't avoided, no write on that condition is refused while the document
    /// has it.
    pub fn allow(&self, gap: &Gap, place: usize, pair: Pair, avoids: bool) -> bool {
        if avoids {
            !self.named.contains(&(gap.witness, pair))
        } else {
            !self.refused.contains(&(gap.witness, place, pair))
        }
    }
}
