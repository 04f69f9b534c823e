ghost use Rattle.std.specs.Prelude.{◌≡◌, ◌<◌, ◌^◌, ◌++◌, IfOk, OnOk, List};
ghost use Rattle.std.specs.Option.{option_to_list};
ghost use Rattle.events.specs.declared.record.Rec.{Rec as Record};
ghost use Rattle.deciding.specs.Positions.{count_below, taking_position, version_of};
ghost use Rattle.deciding.specs.Branches.{is_among, position};
ghost use Rattle.deciding.specs.Reported.{condition_met, known_pairs, pair_shown};
ghost use Rattle.deciding.specs.aids.KnownPairs.{AreKnown, IsNextKnown};

use crate::above::least_above;
use doc_register::Reply;
use events::Rec;
use std::alloc::Global;
use version_pair::{NoMemory, Pair};

/// The known pairs of a document: those that replies show to be pairs of its changes, each as often as a
/// reply shows it.
#[derive(Drop)]
pub struct Known {
    // In the order of pairs.
    pairs: Vec<Pair>,
}

// The pair in the reply: that of a write that was performed, or of the document that was found.
fn pair_shown(heard: Option<(usize, Reply)>) -> Option<Pair>
    ensures { result ≡ pair_shown heard }
{
    match &heard {
        Some(said) => said.1.pair(),
        None => None,
    }
}

// The condition under which a write was performed.
fn condition_met(call: Rec) -> Option<Pair>
    ensures { result ≡ condition_met call }
{
    match call.pair_taken() {
        Some(_) => call.op.condition(),
        None => None,
    }
}

// Adds the pair, if there is one.
fn push_some(pairs: &mut Vec<Pair>, found: Option<Pair>) -> Result<(), NoMemory>
    ensures ok { OnOk result (pairs.new.items ≡ pairs.old.items ++ option_to_list found) }
{
    if let Some(pair) = found {
        pairs.push(pair)?;
    }
    Ok(())
}

/// Returns the pairs that replies show to be pairs of changes of a document, in the order of its calls, each as often as
/// a reply shows it.
pub fn shown_pairs(alloc: Global, records: &[Rec]) -> Result<Vec<Pair>, NoMemory>
    // These are the known pairs of the document.
    ensures { IfOk result (λ pairs. pairs.items ≡ known_pairs records.now) }
{
    let mut pairs = Vec::new(alloc);
    for call in records {
        push_some(&mut pairs, pair_shown(call.heard))?;
        push_some(&mut pairs, condition_met(*call))?;
    }
    Ok(pairs)
}

impl Known {
    /// Returns the known pairs of a document's records.
    pub fn of(alloc: Global, records: &[Rec]) -> Result<Known, NoMemory>
        ensures { IfOk result (λ known. AreKnown records.now known.pairs.items) }
    {
        let mut pairs = shown_pairs(alloc, records)?;
        pairs.sort_unstable();
        Ok(Known { pairs })
    }

    /// Returns the known pairs in their order.
    pub fn pairs(&self) -> &[Pair]
        ensures { result.now ≡ self.now.pairs.items }
    {
        &self.pairs
    }

    /// Returns the number of known pairs below the pair.
    pub fn count_below(&self, pair: Pair) -> usize
        ensures exact { (records : List Record) → AreKnown records self.now.pairs.items
            → result ≡ count_below (known_pairs records) pair }
        // The pairs are in memory, and each takes 16 bytes.
        ensures small { result < 2 ^ 62 }
    {
        self.pairs.partition_point(|known| known.is_below(pair))
    }

    /// Returns whether the pair is known.
    pub fn contains(&self, pair: Pair) -> bool
        ensures { (records : List Record) → AreKnown records self.now.pairs.items
            → result ≡ is_among (known_pairs records) pair }
    {
        let below = self.count_below(pair);
        below < self.pairs.len() && self.pairs[below] == pair
    }

    /// Returns the position of a call that takes the pair.
    pub fn taking_position(&self, pair: Pair) -> usize
        ensures { (records : List Record) → AreKnown records self.now.pairs.items
            → result ≡ taking_position records pair }
    {
        2 * self.count_below(pair) + 1
    }

    /// Returns the position of a document that has the pair, if the pair is known.
    pub fn version_of(&self, pair: Pair) -> usize
        ensures { (records : List Record) → AreKnown records self.now.pairs.items
            → result ≡ version_of records pair }
    {
        2 * self.count_below(pair) + 2
    }

    /// Returns the position of a document whose last change has the pair; 0 if it was never changed.
    pub fn position(&self, least: Option<Pair>) -> usize
        ensures { (records : List Record) → AreKnown records self.now.pairs.items
            → result ≡ position records least }
    {
        match least {
            Some(pair) if self.contains(pair) => self.version_of(pair),
            Some(pair) => self.taking_position(pair),
            None => 0,
        }
    }

    /// Returns the least known pair above the lower one, or the least known pair if none is given. Returns
    /// `None` if there is no such pair.
    pub fn next_known(&self, lower: Option<Pair>) -> Option<Pair>
        ensures { (records : List Record) → AreKnown records self.now.pairs.items
            → IsNextKnown records lower result }
    {
        let least = least_above(lower)?;
        self.pairs.get(self.count_below(least)).copied()
    }
}
