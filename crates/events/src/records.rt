ghost use Rattle.std.specs.Prelude.{◌≡◌, ◌<◌, ◌++◌, ℕ, IfOk, OnOk, Some, length, option_and_then, option_map, slice_get};
ghost use Rattle.std.specs.Option.{option_to_list};
ghost use Rattle.events.specs.Events.{PassesAt, documents_of, heard_of, is_call, place_of, record_at, records_of};

use crate::event::Event;
use crate::front::Front;
use crate::history::History;
use crate::record::Rec;
use doc_register::Reply;
use version_pair::NoMemory;

impl Front<'_> {
    // What was heard of the call at this position: the position of its reply, and the reply.
    fn heard_at_call(&self, place: usize) -> Option<(usize, Reply)>
        requires { place < length self.now }
        ensures { (n : ℕ) → PassesAt (is_call n) self.now place → result ≡ heard_of self.now n }
    {
        let Some(ending) = self.ending_of_call(place) else {
            return None;
        };
        match self.event(ending) {
            Event::Reply { reply, .. } => Some((ending, *reply)),
            Event::Call { .. } => None,
            Event::Lost { .. } => None,
        }
    }

    /// Returns the call at the position as a record, with what was heard of it before the end of the prefix.
    /// `None` if another event is there.
    pub fn record_at(&self, place: usize) -> Option<Rec>
        // The position is below the number of events.
        requires { place < length self.now }
        // It is the record at this position.
        ensures { result ≡ record_at self.now place }
    {
        match self.event(place) {
            Event::Call { no, op, .. } => Some(Rec {
                no: *no,
                op: *op,
                call_at: place,
                heard: self.heard_at_call(place),
            }),
            Event::Reply { .. } | Event::Lost { .. } => None,
        }
    }

    /// Returns the calls of a document in their order, each with what was heard of it before the end of the
    /// prefix.
    pub fn records(&self, doc: usize) -> Result<Vec<Rec>, NoMemory>
        // The document is one of the prefix.
        requires { doc < length (documents_of self.now) }
        // The records are those of the document in the prefix.
        ensures { IfOk result (λ records. option_map (λ d. records_of self.now d.0)
            (slice_get (documents_of self.now) doc) ≡ Some records.items) }
    {
        let places = self.calls_of_document(doc)?;
        let mut records = Vec::with_capacity(self.allocator(), places.len())?;
        for k in 0..places.len() {
            push_some(&mut records, self.record_at(places[k]))?;
        }
        Ok(records)
    }
}

impl History {
    /// Returns what was heard of the call with this number: the position of its reply, and the reply. `None`
    /// if there is no reply.
    pub fn heard(&self, no: u64) -> Option<(usize, Reply)>
        ensures { result ≡ heard_of self.now no }
    {
        let Some(place) = self.ending(no) else {
            return None;
        };
        match self.event(place) {
            Event::Reply { reply, .. } => Some((place, *reply)),
            Event::Call { .. } | Event::Lost { .. } => None,
        }
    }

    /// Returns the call with this number as a record, or `None` if there is none.
    pub fn record(&self, no: u64) -> Option<Rec>
        // It is the record at the position of this call.
        ensures { result ≡ option_and_then (record_at self.now) (place_of (is_call no) self.now) }
    {
        match self.call(no) {
            Some(place) => self.whole().record_at(place),
            None => None,
        }
    }

    /// Returns the calls of a document in their order, each with what was heard of it.
    pub fn records(&self, doc: usize) -> Result<Vec<Rec>, NoMemory>
        // The document is one of the history.
        requires { doc < length (documents_of self.now) }
        // The records are those of the document.
        ensures { IfOk result (λ records. option_map (λ d. records_of self.now d.0)
            (slice_get (documents_of self.now) doc) ≡ Some records.items) }
    {
        self.whole().records(doc)
    }
}

// Adds the record, if there is one.
fn push_some(records: &mut Vec<Rec>, found: Option<Rec>) -> Result<(), NoMemory>
    ensures ok { OnOk result (records.new.items ≡ records.old.items ++ option_to_list found) }
{
    if let Some(record) = found {
        records.push(record)?;
    }
    Ok(())
}
