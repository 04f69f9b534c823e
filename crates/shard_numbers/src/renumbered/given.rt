use crate::taken::pair_of_place;
use doc_register::Op;
use events::Rec;
use places::DocWitness;
use std::alloc::Global;
use version_pair::{NoMemory, Pair};

/// The pairs that the places of a witness give, in the order of the places, in which they rise.
#[derive(Drop)]
pub struct GivenPairs {
    pairs: Vec<Pair>,
    /// For each pair, whether a get found it or the condition of a performed write names it. If not, the pair was
    /// invented.
    pub shown: Vec<bool>,
}

// Returns the pair that a get found.
fn found_pair(found: Rec) -> Option<Pair> {
    match found.op {
        Op::Get => found.heard.and_then(|heard| heard.1.pair()),
        _ => None,
    }
}

impl GivenPairs {
    /// Returns the pairs of a witness.
    pub fn of(alloc: Global, witness: &DocWitness) -> Result<GivenPairs, NoMemory> {
        let mut given = GivenPairs {
            pairs: Vec::new(alloc),
            shown: Vec::new(alloc),
        };
        for place in witness.places() {
            if let Some(pair) = place.pair {
                given.pairs.push(pair)?;
                given.shown.push(false)?;
            }
        }
        if !given.pairs.is_empty() {
            given.note_shown(witness);
        }
        Ok(given)
    }

    // Marks those of them that other calls show.
    fn note_shown(&mut self, witness: &DocWitness) {
        for found in witness.records() {
            self.show(found_pair(*found));
        }
        let places = witness.places();
        for i in 0..places.len() {
            if pair_of_place(witness.records(), places[i]).is_some() {
                self.show(witness.call(i).op.condition());
            }
        }
    }

    // Marks a pair as shown, if it is one of them.
    fn show(&mut self, shown: Option<Pair>) {
        let Some(pair) = shown else {
            return;
        };
        if let Ok(at) = self.pairs.binary_search(&pair) {
            if let Some(flag) = self.shown.get_mut(at) {
                *flag = true;
            }
        }
    }

    /// Returns whether there are none.
    pub fn is_empty(&self) -> bool {
        self.pairs.is_empty()
    }
}
