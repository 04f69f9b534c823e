use crate::in_text::{is_twin, record_in_text};
use doc_register::Conflicts;
use events::{History, Rec};
use evidence::{Certainty, Refuted};
use places::DocWitness;
use readings::{Reading, WayBack};

/// What an explanation says of a history that an order explains.
#[derive(Clone, Copy)]
pub struct Explained<'h> {
    /// The number of documents of the history.
    pub docs: usize,
    /// The number of its calls.
    pub calls: usize,
    /// The number of these that are in no place of the order.
    pub left_out: usize,
    /// The number of gets that were judged one by one, if they were.
    pub gets: Option<usize>,
    /// The text.
    pub text: &'h History,
    /// As what it was read.
    pub reading: Reading,
    /// The orders of the documents in what was judged.
    pub witnesses: &'h [DocWitness],
}

impl<'h> Explained<'h> {
    /// Returns the way back from what was judged to the text.
    pub fn back(&self) -> WayBack<'h> {
        WayBack {
            text: self.text,
            writes: self.reading.writes,
        }
    }

    /// Returns the call of what was judged as the text has it.
    pub fn in_text(&self, judged: &Rec) -> Rec {
        record_in_text(&self.back(), judged)
    }

    /// Returns whether the call of what was judged is a second one of the same write, which the reading adds.
    pub fn is_again(&self, judged: &Rec) -> bool {
        is_twin(self.reading.writes, judged.no)
    }
}

/// What an explanation says of a history for which no order was found.
#[derive(Clone, Copy)]
pub struct Unexplained<'h> {
    /// The history that the reasons are about: the whole one, or a prefix that no order explains either.
    pub history: &'h History,
    /// The whole history.
    pub whole: &'h History,
    /// How a conflict was read.
    pub conflicts: Conflicts,
    /// The evidence that there is no order, if some was found.
    pub evidence: Option<Refuted>,
    /// The evidence that the first line reports, if the explanation rests on reasons in a shorter prefix
    /// instead.
    pub reported: Option<Refuted>,
    /// How much the answer says.
    pub certainty: Certainty,
    /// The position of the reply at which the search first failed, from 0.
    pub event: usize,
    /// The number of the call that it answers.
    pub call: u64,
    /// Whether an order of the events before it was found.
    pub before_shown: bool,
}
