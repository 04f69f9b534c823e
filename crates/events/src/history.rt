ghost use Rattle.std.specs.Prelude.{◌≡◌, ℕ, ◌<◌, ◌≤◌, ◌↔◌, List, [], ◌∷◌, ◌++◌, length, IsTrue, IfOk, IfSome, OnOk, OnErr, None, Some, option_map, position, slice_get};
ghost use Rattle.events.specs.declared.event.Event.TheVariants.{Call};
ghost use Rattle.events.specs.Events.{HasShard, IsHistory, PassesAt, documents_of, is_call, is_ending, is_same, place_of, prefix as first_events};
ghost use Rattle.events.specs.Refusal.{most_events as limit, refusal_of, refusal_reported, shard_of};
ghost use Rattle.events.specs.aids.Indexes.{IsEndingOf, calls_at};

use crate::call_places::CallPlaces;
use crate::documents::Documents;
use crate::event::Event;
use crate::fault::HistFault;
use crate::hash_keys::HashKeys;
use doc_register::Op;
use std::alloc::Global;
use std::marker::Model;
use version_pair::{DocId, IdText, NoMemory, SHARDS};

/// The most events that a history has.
pub const MOST_EVENTS: usize = 1_048_576;

/// A history: events in the order in which they were recorded. Contracts see the list of its events.
///
/// The type guarantees that call numbers are distinct, that each call has at most one ending, which comes
/// after it and is of a kind that fits its operation, and that all calls of a document name one shard, 0 to
/// 1,023. Documents have numbers from 0, in the order of their first calls.
#[derive(Debug, Drop)]
pub struct History {
    events: Vec<Event>,
    // The position of each call, by its number.
    calls: CallPlaces,
    // For each event, the position of the ending of the call at that event, if it is a call and has an
    // ending.
    endings: Vec<Option<u32>>,
    // The documents in the order of their first calls, each with its shard and the positions of its calls.
    documents: Documents,
}

impl Model for History {
    ghost use Rattle.std.specs.Prelude.{List};
    ghost use Rattle.events.specs.declared.event.Event.{Event};

    ghost Value = { List Event };

    ghost use Rattle.events.specs.aids.Indexes.{AreIndexed};

    ghost view = { λ h. h.events.items };

    ghost invariant = { λ h. AreIndexed h.events.items h.calls h.endings.items h.documents.entries
        h.documents.lists h.documents.calls };
}

impl History {
    /// Returns the history without events. Its documents are found by hashes with fixed keys. It allocates
    /// nothing; events are added in this memory later.
    pub fn new(alloc: Global) -> History
        ensures empty { result ≡ [] }
        ensures history { IsHistory result }
    {
        History::with_keys(alloc, HashKeys::fixed())
    }

    /// Returns the history without events. Its documents are found by hashes with these keys, of which no
    /// clause speaks: no answer depends on them. It allocates nothing; events are added in this memory later.
    pub fn with_keys(alloc: Global, keys: HashKeys) -> History
        ensures empty { result ≡ [] }
        ensures history { IsHistory result }
    {
        History {
            events: Vec::new(alloc),
            calls: CallPlaces::new(alloc),
            endings: Vec::new(alloc),
            documents: Documents::with_keys(alloc, keys),
        }
    }

    /// Returns the keys of the hashes by which documents are found. Nothing is promised of them.
    pub fn keys(&self) -> HashKeys {
        self.documents.keys()
    }

    /// Returns the number of events, at most 1,048,576.
    pub fn len(&self) -> usize
        ensures count { result ≡ length self.now }
        ensures within { length self.now ≤ limit }
        ensures history { IsHistory self.now }
    {
        self.events.len()
    }

    /// Returns whether there is no event.
    pub fn is_empty(&self) -> bool
        ensures { IsTrue result ↔ (self.now ≡ []) }
    {
        self.events.is_empty()
    }

    /// Returns the event at a position, from 0.
    pub fn event(&self, place: usize) -> &Event
        // The position is below the number of events.
        requires { place < length self.now }
        // It is the event at this position.
        ensures { slice_get self.now place ≡ Some result.now }
    {
        &self.events[place]
    }

    /// Returns the position of the call with this number, or `None` if there is none.
    pub fn call(&self, no: u64) -> Option<usize>
        ensures place { result ≡ place_of (is_call no) self.now }
        ensures within { IfSome result (λ place. place < length self.now) }
    {
        self.calls.get(no)
    }

    /// Returns the position of the ending of the call at this position.
    pub(crate) fn ending_of_call(&self, place: usize) -> Option<usize>
        requires { place < length self.now }
        ensures ending { (n : ℕ) → PassesAt (is_call n) self.now place
            → result ≡ place_of (is_ending n) self.now }
        ensures within { IfSome result (λ ending. ending < length self.now) }
    {
        wide(self.endings[place])
    }

    /// Returns the position of the ending of the call with this number: its reply, or the event that it is
    /// lost. `None` if there is none.
    pub fn ending(&self, no: u64) -> Option<usize>
        ensures place { result ≡ place_of (is_ending no) self.now }
        ensures within { IfSome result (λ place. place < length self.now) }
    {
        // The access to a field makes the type's invariant known: a call that is not in the history has no
        // ending.
        let _ = &self.events;
        match self.call(no) {
            Some(place) => self.ending_of_call(place),
            None => None,
        }
    }

    /// Returns the shard of the document, which has the index `doc` if it was called before.
    pub(crate) fn known_shard(&self, doc: Option<usize>, id: &IdText<'_>) -> Option<u32>
        requires { doc ≡ position (λ d. is_same id.now d.0) (documents_of self.now) }
        ensures { result ≡ shard_of self.now id.now }
    {
        match doc {
            Some(doc) => match self.documents.get(doc) {
                Some((_, shard)) => Some(*shard),
                None => None,
            },
            None => None,
        }
    }

    /// Returns the id for a call on a document, which has the index `doc` if it was called before. In that
    /// case it is a copy of the id that the documents have, so that its text is kept once.
    pub(crate) fn shared_id(&self, doc: Option<usize>, id: &IdText<'_>) -> Result<DocId, NoMemory>
        requires { doc ≡ position (λ d. is_same id.now d.0) (documents_of self.now) }
        ensures { IfOk result (λ shared. shared ≡ id.now) }
    {
        match doc {
            Some(doc) => match self.documents.get(doc) {
                Some((known, _)) => known.copy(),
                None => id.to_id(self.allocator()),
            },
            None => id.to_id(self.allocator()),
        }
    }

    /// Adds a call that the history does not refuse. It fails only if memory is refused. The document has the
    /// index `doc`, or is new.
    #[tactic(auto, using(crate::proofs::PushLemmas::indexed_after_call))]
    pub(crate) fn append_call(
        &mut self,
        doc: Option<usize>,
        no: u64,
        shard: u32,
        id: DocId,
        op: Op,
    ) -> Result<(), NoMemory>
        requires accepted { refusal_of self.old (Call shard no id op) ≡ None }
        requires shard { shard < SHARDS }
        requires stands { doc ≡ position (λ d. is_same id d.0) (documents_of self.old) }
        ensures ok { OnOk result (self.new ≡ self.old ++ Call shard no id op ∷ []) }
        ensures err { OnErr result (self.new ≡ self.old) }
        ensures history { IsHistory self.new }
        ensures within { length self.new ≤ limit }
    {
        let place = self.events.len();
        self.events.reserve(1)?;
        self.endings.reserve(1)?;
        self.calls
            .note_call(&mut self.documents, doc, no, &id, shard, place)?;
        self.endings.push_reserved(None);
        self.events.push_reserved(Event::Call { no, shard, id, op });
        Ok(())
    }

    /// Adds an ending of the call at the position, which the history does not refuse. It fails only if memory
    /// is refused.
    #[tactic(auto, using(crate::proofs::PushLemmas::indexed_after_ending))]
    pub(crate) fn append_ending(&mut self, call: usize, event: Event) -> Result<(), NoMemory>
        requires ends { IsEndingOf self.old call event }
        requires accepted { refusal_of self.old event ≡ None }
        ensures ok { OnOk result (self.new ≡ self.old ++ event ∷ []) }
        ensures err { OnErr result (self.new ≡ self.old) }
        ensures history { IsHistory self.new }
        ensures within { length self.new ≤ limit }
    {
        let place = self.events.len();
        self.events.reserve(1)?;
        self.endings.reserve(1)?;
        self.endings[call] = Some(place as u32);
        self.endings.push_reserved(None);
        self.events.push_reserved(event);
        Ok(())
    }

    /// Adds an event at the end, or refuses it with the first reason that holds.
    ///
    /// Errors, in this order: for a call `SecondCall`, `ShardMoved`, `Full`; for a reply `NoCall`, `Ended`,
    /// `Kind`, `Full`; for a lost call `NoCall`, `Ended`, `Full`; last `NoMemory`. An error leaves the
    /// history as it was; the event is dropped.
    pub fn push(&mut self, event: Event) -> Result<(), HistFault>
        // The shard of a call is 0 to 1,023.
        requires { HasShard event }
        // The event is added at the end.
        ensures ok { OnOk result (self.new ≡ self.old ++ event ∷ []) }
        // An error leaves the events as they were.
        ensures err { OnErr result (self.new ≡ self.old) }
        // The error is another one than `NoMemory` exactly if the definition gives a reason, and then it is
        // that one, the first that holds.
        ensures reason { refusal_reported result ≡ refusal_of self.old event }
        ensures history { IsHistory self.new }
        ensures within { length self.new ≤ limit }
    {
        let pushed = match event {
            Event::Call { no, shard, id, op } => self.push_call(no, shard, &id.text(), op),
            Event::Reply { no, reply } => self.push_reply(no, reply),
            Event::Lost { no } => self.push_lost(no),
        };
        // The access to a field makes the type's invariant known of the history as it is now.
        let _ = &self.events;
        pushed
    }

    /// Returns the allocator that the history was made with.
    pub fn allocator(&self) -> Global {
        *self.events.allocator()
    }

    /// Returns the number of documents.
    pub fn docs(&self) -> usize
        ensures { result ≡ length (documents_of self.now) }
    {
        self.documents.len()
    }

    /// Returns the id of a document. Documents are numbered from 0 in the order of their first calls.
    pub fn doc(&self, doc: usize) -> &DocId
        // The document is one of the history.
        requires { doc < length (documents_of self.now) }
        // It is the id of this document.
        ensures { option_map (λ d. d.0) (slice_get (documents_of self.now) doc) ≡ Some result.now }
    {
        match self.documents.get(doc) {
            Some((id, _)) => id,
            None => unreachable!(),
        }
    }

    /// Returns the number of the document with this id, or `None` if no call is on it.
    pub fn doc_of(&self, id: &DocId) -> Option<usize>
        // It is the position of the id among the documents; there is none exactly if no call is on the
        // document.
        ensures { result ≡ position (λ d. is_same id.now d.0) (documents_of self.now) }
    {
        self.doc_of_text(&id.text())
    }

    /// Returns the number of the document with this id, if it was called.
    pub(crate) fn doc_of_text(&self, id: &IdText<'_>) -> Option<usize>
        ensures { result ≡ position (λ d. is_same id.now d.0) (documents_of self.now) }
    {
        self.documents.index_of(id)
    }

    /// Returns the positions of the calls of a document, in their order.
    pub(crate) fn calls_of_document(&self, doc: usize) -> Result<Vec<usize>, NoMemory>
        requires { doc < length (documents_of self.now) }
        ensures { IfOk result (λ places. option_map (λ d. calls_at self.now d.0)
            (slice_get (documents_of self.now) doc) ≡ Some places.items) }
    {
        self.documents.calls(doc)
    }

    /// Returns how many documents have their first call before the position; these are the first ones.
    pub(crate) fn docs_called_before(&self, end: usize) -> usize
        ensures { result ≡ length (documents_of (first_events self.now end)) }
    {
        self.documents.called_before(end)
    }

    /// Returns the shard of a document, that of its first call: 0 to 1,023.
    pub fn shard(&self, doc: usize) -> u32
        // The document is one of the history.
        requires { doc < length (documents_of self.now) }
        // It is the shard of this document.
        ensures { option_map (λ d. d.1) (slice_get (documents_of self.now) doc) ≡ Some result }
    {
        match self.documents.get(doc) {
            Some((_, shard)) => *shard,
            None => unreachable!(),
        }
    }
}

// A position that is kept in few bytes.
fn wide(place: Option<u32>) -> Option<usize>
    ensures { result ≡ place }
{
    match place {
        Some(place) => Some(place as usize),
        None => None,
    }
}
