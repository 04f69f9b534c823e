use crate::renumbered::given::GivenPairs;
use crate::taken::{pair_of_place, shard_of};
use completing::PairRange;
use events::Front;
use places::DocWitness;
use std::alloc::Global;
use version_pair::{NoMemory, Pair};

/// Places with invented pairs between two other pairs of one term, or before the first other pair, if that is
/// of term 1.
#[derive(Drop)]
pub struct Gap {
    pub shard: u32,
    /// The number of the witness.
    pub witness: usize,
    /// The numbers that the places may take.
    pub numbers: PairRange,
    /// The indices of the places, in their order.
    pub places: Vec<usize>,
}

/// The gaps of witnesses.
#[derive(Drop)]
pub struct Gaps {
    /// The gaps, those of each witness after those of the witnesses before it.
    pub list: Vec<Gap>,
    /// The pairs that are given to places but were not invented, each with its shard.
    pub kept: Vec<(u32, Pair)>,
}

// The invented pairs up to the next pair that wasn't invented.
#[derive(Drop)]
struct Open {
    // The pair before them.
    lower: Option<Pair>,
    // The indices of their places.
    places: Vec<usize>,
}

impl Gaps {
    /// Returns no gaps.
    pub fn none(alloc: Global) -> Gaps {
        Gaps {
            list: Vec::new(alloc),
            kept: Vec::new(alloc),
        }
    }

    /// Returns the gaps of these witnesses.
    pub fn of(
        alloc: Global,
        history: &Front<'_>,
        witnesses: &[DocWitness],
    ) -> Result<Gaps, NoMemory> {
        let mut gaps = Gaps::none(alloc);
        for number in 0..witnesses.len() {
            gaps.note(alloc, history, number, &witnesses[number])?;
        }
        Ok(gaps)
    }

    /// Returns how many numbers the places of a witness want in all.
    pub fn wanted(&self, number: usize) -> usize {
        let mut wanted = 0usize;
        for gap in &self.list {
            if gap.witness == number {
                wanted = wanted.saturating_add(gap.places.len());
            }
        }
        wanted
    }

    /// Adds the gaps of a witness, and the other pairs that its places give.
    pub fn note(
        &mut self,
        alloc: Global,
        history: &Front<'_>,
        number: usize,
        witness: &DocWitness,
    ) -> Result<(), NoMemory> {
        let Some(shard) = shard_of(history, witness.id()) else {
            return Ok(());
        };
        let given = GivenPairs::of(alloc, witness)?;
        if given.is_empty() {
            return Ok(());
        }
        let mut open = Open {
            lower: None,
            places: Vec::new(alloc),
        };
        let mut shown = given.shown.iter();
        let places = witness.places();
        for i in 0..places.len() {
            let Some(pair) = pair_of_place(witness.records(), places[i]) else {
                continue;
            };
            if places[i].pair.is_some() {
                if shown.next() == Some(&false) {
                    open.places.push(i)?;
                    continue;
                }
                self.kept.push((shard, pair))?;
            }
            self.close(alloc, shard, number, &mut open, pair)?;
        }
        Ok(())
    }

    // Closes what was invented before a pair: it is a gap if the pair before it is of the same term, which
    // counts as 1 before the first pair; otherwise its pairs stay as they are.
    fn close(
        &mut self,
        alloc: Global,
        shard: u32,
        number: usize,
        open: &mut Open,
        upper: Pair,
    ) -> Result<(), NoMemory> {
        if let Some(numbers) = PairRange::between(open.lower, upper) {
            if !open.places.is_empty() {
                self.list.push(Gap {
                    shard,
                    witness: number,
                    numbers,
                    places: Vec::from_slice(alloc, &open.places)?,
                })?;
            }
        }
        open.lower = Some(upper);
        open.places.clear();
        Ok(())
    }
}
