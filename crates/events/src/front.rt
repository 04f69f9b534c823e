ghost use Rattle.std.specs.Prelude.{◌≡◌, ◌<◌, ◌≤◌, ℕ, IfOk, IfSome, Some, length, option_map, position, slice_get};
ghost use Rattle.events.specs.Events.{IsHistory, PassesAt, documents_of, is_call, is_ending, is_same, place_of, prefix as first_events};
ghost use Rattle.events.specs.Refusal.{most_events as limit};
ghost use Rattle.events.specs.aids.Indexes.{calls_at};
ghost use Rattle.events.specs.aids.Fronts.{when_below};

use crate::event::Event;
use crate::hash_keys::HashKeys;
use crate::history::History;
use std::alloc::Global;
use std::marker::Model;
use version_pair::{DocId, NoMemory};

/// A prefix of a history, as a history of its own, without a copy of its events. A reply after its end is not
/// heard, and a document whose first call is after its end is not one of its documents. Contracts see its
/// events.
#[derive(Debug, Drop)]
pub struct Front<'h> {
    history: &'h History,
    // The number of its events.
    end: usize,
    // The number of documents that are called in it: the first ones of the history.
    docs: usize,
}

impl<'h> Model for Front<'h> {
    ghost use Rattle.std.specs.Prelude.{List, take};
    ghost use Rattle.events.specs.declared.event.Event.{Event};

    ghost Value = { List Event };

    ghost use Rattle.events.specs.aids.Fronts.{IsFront};

    ghost view = { λ f. take f.end f.history.now };

    ghost invariant = { λ f. IsFront f.history.now f.end f.docs };
}

impl History {
    /// Returns the whole history as a prefix.
    pub fn whole(&self) -> Front<'_>
        ensures { result ≡ self.now }
    {
        Front {
            history: self,
            end: self.len(),
            docs: self.docs(),
        }
    }

    /// Returns the prefix of the first `end` events, or of all events if there are fewer. It costs a binary
    /// search among the documents.
    pub fn front(&self, end: usize) -> Front<'_>
        ensures { result ≡ first_events self.now end }
    {
        let end = end.min(self.len());
        Front {
            history: self,
            end,
            docs: self.docs_called_before(end),
        }
    }
}

// The number, if it is below the bound.
fn below(number: Option<usize>, bound: usize) -> Option<usize>
    ensures { result ≡ when_below bound number }
{
    match number {
        Some(number) if number < bound => Some(number),
        _ => None,
    }
}

impl<'h> Front<'h> {
    /// Returns the keys of the hashes by which documents are found. Nothing is promised of them.
    pub fn keys(&self) -> HashKeys {
        self.history.keys()
    }

    /// Returns the number of events, at most 1,048,576.
    pub fn len(&self) -> usize
        ensures count { result ≡ length self.now }
        ensures within { length self.now ≤ limit }
        ensures history { IsHistory self.now }
    {
        // Calling `len` makes it known that the history's events are a history, within the limit.
        let _ = self.history.len();
        self.end
    }

    /// Returns the event at a position, from 0.
    pub fn event(&self, place: usize) -> &'h Event
        // The position is below the number of events.
        requires { place < length self.now }
        // It is the event at this position.
        ensures { slice_get self.now place ≡ Some result.now }
    {
        self.history.event(place)
    }

    /// Returns the position of the ending of the call at this position.
    pub(crate) fn ending_of_call(&self, place: usize) -> Option<usize>
        requires { place < length self.now }
        ensures ending { (n : ℕ) → PassesAt (is_call n) self.now place
            → result ≡ place_of (is_ending n) self.now }
        ensures within { IfSome result (λ ending. ending < length self.now) }
    {
        below(self.history.ending_of_call(place), self.end)
    }

    /// Returns the allocator that the history was made with.
    pub(crate) fn allocator(&self) -> Global {
        self.history.allocator()
    }

    /// Returns the number of documents.
    pub fn docs(&self) -> usize
        ensures { result ≡ length (documents_of self.now) }
    {
        self.docs
    }

    /// Returns the id of a document. Documents are numbered from 0 in the order of their first calls.
    pub fn doc(&self, doc: usize) -> &'h DocId
        // The document is one of the prefix.
        requires { doc < length (documents_of self.now) }
        // It is the id of this document.
        ensures { option_map (λ d. d.0) (slice_get (documents_of self.now) doc) ≡ Some result.now }
    {
        self.history.doc(doc)
    }

    /// Returns the number of the document with this id, if the prefix has a call on it.
    pub fn doc_of(&self, id: &DocId) -> Option<usize>
        // It is the position of the id among the documents; there is none exactly if no call before the end
        // is on the document.
        ensures { result ≡ position (λ d. is_same id.now d.0) (documents_of self.now) }
    {
        below(self.history.doc_of(id), self.docs)
    }

    /// Returns the shard of a document, that of its first call: 0 to 1,023.
    pub fn shard(&self, doc: usize) -> u32
        // The document is one of the prefix.
        requires { doc < length (documents_of self.now) }
        // It is the shard of this document.
        ensures { option_map (λ d. d.1) (slice_get (documents_of self.now) doc) ≡ Some result }
    {
        self.history.shard(doc)
    }

    /// Returns the positions of the calls of a document, in their order.
    pub(crate) fn calls_of_document(&self, doc: usize) -> Result<Vec<usize>, NoMemory>
        requires { doc < length (documents_of self.now) }
        ensures { IfOk result (λ places. option_map (λ d. calls_at self.now d.0)
            (slice_get (documents_of self.now) doc) ≡ Some places.items) }
    {
        let mut calls = self.history.calls_of_document(doc)?;
        let end = self.end;
        let count = calls.partition_point(|place| *place < end);
        calls.truncate(count);
        Ok(calls)
    }
}
