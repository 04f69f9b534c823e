ghost use Rattle.std.specs.Prelude.{◌≡◌, ◌<◌, ◌^◌, cond, map};
ghost use Rattle.events.specs.Events.{is_any_call};
ghost use Rattle.places.specs.Documents.{witness_places};
ghost use Rattle.compose.specs.Counts.{calls_counted, calls_of, is_counted, is_counted_call};
ghost use Rattle.compose.specs.Laws.{names_number, places_in};
ghost use Rattle.compose.specs.Verdicts.{AreCounts, HasOrder, LeavesOut};
ghost use Rattle.compose.specs.aids.Counting.{counted_in, counted_places};

use crate::proof::Proof;
use events::{Event, History, Rec};
use places::{DocWitness, Place};

/// The numbers of documents and of calls of a history, and the number of its calls that are in no order.
#[derive(Clone, Copy, Debug, PartialEq, Eq)]
pub struct Counts {
    pub docs: usize,
    pub calls: usize,
    pub left_out: usize,
}

/// Returns the number of calls of a history.
#[tactic(auto, using(crate::proofs::CountedPlaces::all_calls))]
pub fn count_calls(history: &History) -> usize
    // It is that of the definition.
    ensures { result ≡ calls_of history.now }
{
    CallNumbers::All.count_calls(history)
}

/// Returns the number of places of the witnesses.
pub fn count_places(witnesses: &[DocWitness]) -> usize
    requires { places_in (map witness_places witnesses.now) < 2 ^ 64 }
    ensures { result ≡ places_in (map witness_places witnesses.now) }
{
    let mut places = 0;
    for i in 0..witnesses.len() {
        places += witnesses[i].places().len();
    }
    places
}

impl Counts {
    /// Returns the counts of a proof: the documents and calls of its history, and the calls that are in no
    /// place of its witnesses.
    pub fn of(proof: &Proof) -> Counts
        // The counts are those of the history and of the places of its witnesses.
        ensures counts { AreCounts proof.now.events (map witness_places proof.now.witnesses) result.docs
            result.calls result.left_out }
        // The history has an order with these counts.
        ensures order { HasOrder proof.now.conflicts proof.now.events result.docs result.calls result.left_out }
    {
        let history = proof.history();
        let witnesses = proof.witnesses();
        let calls = count_calls(history);
        let left_out = calls - count_places(witnesses);
        Counts {
            docs: history.docs(),
            calls,
            left_out,
        }
    }
}

/// Which calls are counted, by their numbers.
#[derive(Clone, Copy, Debug, PartialEq, Eq)]
pub enum CallNumbers {
    /// All calls.
    All,
    /// Those with an even number.
    Even,
}

impl CallNumbers {
    // Whether calls of this number are counted.
    fn count(self, no: u64) -> bool
        ensures { result ≡ is_counted self no }
    {
        match self {
            CallNumbers::All => true,
            CallNumbers::Even => no % 2 == 0,
        }
    }

    // Returns one for a call that is counted, and zero for another event.
    fn calls_in(self, event: &Event) -> usize
        ensures { result ≡ cond (is_counted_call self event.now) 1 0 }
    {
        match event {
            Event::Call { no, .. } => usize::from(self.count(*no)),
            Event::Reply { .. } | Event::Lost { .. } => 0,
        }
    }

    // Returns the number of calls of the history that are counted.
    fn count_calls(self, history: &History) -> usize
        ensures { result ≡ calls_counted self history.now }
    {
        let mut calls = 0;
        for place in 0..history.len() {
            calls += self.calls_in(history.event(place));
        }
        calls
    }

    // Whether the place names a call that is counted.
    fn count_place(self, records: &[Rec], place: &Place) -> bool
        ensures { result ≡ names_number (is_counted self) records.now place.now }
    {
        match records.get(place.rec) {
            Some(call) => self.count(call.no),
            None => false,
        }
    }

    // Returns the number of places of the witness that name calls that are counted.
    fn count_places(self, witness: &DocWitness) -> usize
        ensures { result ≡ counted_in self witness.now }
    {
        let records = witness.records();
        witness
            .places()
            .iter()
            .filter(|place| self.count_place(records, place))
            .count()
    }

    // Returns the number of places of all witnesses that name calls that are counted.
    fn count_all_places(self, witnesses: &[DocWitness]) -> usize
        requires { counted_places self witnesses.now < 2 ^ 64 }
        ensures { result ≡ counted_places self witnesses.now }
    {
        let mut places = 0;
        for i in 0..witnesses.len() {
            places += self.count_places(&witnesses[i]);
        }
        places
    }
}

/// Returns how many of the calls that are counted are in no place of the proof's witnesses.
pub fn count_left_out(proof: &Proof, which: CallNumbers) -> usize
    // That many of them are not in an order that explains the history.
    ensures { LeavesOut which proof.now result }
{
    which.count_calls(proof.history()) - which.count_all_places(proof.witnesses())
}
