ghost use Rattle.std.specs.Prelude.{◌≡◌, ℕ, ◌<◌, ◌≤◌, ◌==◌, ◌++◌, ◌∷◌, ◌||◌, [], All, Any, IfOk, IfSome, None, OnErr, OnOk, Some, true};
ghost use Rattle.std.specs.Map.{lookup};
ghost use Rattle.events.specs.declared.event.Event.TheVariants.{Reply as Answered, Lost};
ghost use Rattle.indexmap.specs.IndexMap.{spare};
ghost use Rattle.recorder.specs.Pens.{IsUnused, new_pen, refusal_of, reports_full};
ghost use Rattle.recorder.specs.declared.own_call.OwnCall.{OwnCall};
ghost use Rattle.recorder.specs.aids.Notes.{IsNotedAt, IsPenList, NotesEvent, numbered};

use crate::fault::RecFault;
use crate::own_call::OwnCall;
use crate::strand::Strand;
use crate::unnumbered::Unnumbered;
use doc_register::Reply;
use events::Event;
use indexmap::IndexMap;
use std::alloc::Global;
use std::marker::Model;
use version_pair::NoMemory;

/// What a pen keeps of its own: its list, its calls by their numbers, and whether `Full` was returned for it.
#[derive(Debug, Drop)]
pub struct Notes {
    list: Vec<(u64, Event)>,
    calls: IndexMap<u64, OwnCall>,
    is_full: bool,
}

impl Model for Notes {
    ghost use Rattle.recorder.specs.aids.Notes.{NotesState};

    ghost Value = { NotesState };

    ghost use Rattle.std.specs.Prelude.{◌&&◌, nat_lt, vec_capacity, vec_len};
    ghost use Rattle.indexmap.specs.IndexMap.{spare};
    ghost use Rattle.recorder.specs.aids.Notes.{AreNoted};

    ghost view = { λ n. record {
      pen = record { list = n.list.items; is_full = n.is_full };
      has_room = nat_lt (vec_len n.list) (vec_capacity n.list) && nat_lt 0 (spare n.calls);
    } };

    ghost invariant = { λ n. AreNoted n.list.items n.calls.entries };
}

impl Notes {
    /// Returns empty notes. It allocates nothing.
    pub fn new(alloc: Global) -> Notes
        ensures { result.pen ≡ new_pen }
    {
        Notes {
            list: Vec::new(alloc),
            calls: IndexMap::new(alloc),
            is_full: false,
        }
    }

    /// Returns whether `Full` was returned for the pen.
    pub fn is_full(&self) -> bool
        ensures { result ≡ self.now.pen.is_full }
    {
        self.is_full
    }

    /// Records that `Full` was returned for the pen.
    pub fn note_full(&mut self)
        ensures list { self.new.pen ≡ record self.old.pen { is_full = true } }
    {
        self.is_full = true;
    }

    /// Returns the reason why the list refuses a reply, if it does: `NotMine`, `Ended`, `Kind`.
    pub fn reply_refusal(&self, no: u64, reply: &Reply) -> Option<RecFault>
        ensures { result ≡ refusal_of self.now.pen.list (Answered no reply.now) }
    {
        match self.calls.get(&no) {
            None => Some(RecFault::NotMine),
            Some(call) if call.is_ended => Some(RecFault::Ended),
            Some(call) if !reply.fits(call.op) => Some(RecFault::Kind),
            Some(_) => None,
        }
    }

    /// Returns the reason why the list refuses the event that a call is lost, if it does: `NotMine`, `Ended`.
    pub fn lost_refusal(&self, no: u64) -> Option<RecFault>
        ensures { result ≡ refusal_of self.now.pen.list (Lost no) }
    {
        match self.calls.get(&no) {
            None => Some(RecFault::NotMine),
            Some(call) if call.is_ended => Some(RecFault::Ended),
            Some(_) => None,
        }
    }

    /// Returns the number of the last entry, which is the greatest.
    pub fn last_number(&self) -> Option<u64>
        ensures above { (n : ℕ) → (IfSome result (λ last. last < n)) → All (λ entry. entry.0 < n) self.now.pen.list }
        ensures reached { IfSome result (λ last. (n : ℕ) → n ≤ last → Any (λ entry. n ≤ entry.0) self.now.pen.list) }
    {
        let (number, _) = self.list.last()?;
        Some(*number)
    }

    /// Makes room for one more entry.
    pub fn reserve(&mut self) -> Result<(), NoMemory>
        ensures same { self.new.pen ≡ self.old.pen }
        ensures ok { OnOk result (self.new.has_room ≡ true) }
    {
        self.list.reserve(1)?;
        self.calls.reserve(1)
    }

    /// Adds an event with its number, which must be above all in the list. The list must not refuse it, and
    /// there must be room.
    pub fn note(&mut self, number: u64, event: Unnumbered)
        requires room { self.old.has_room ≡ true }
        requires above { All (λ entry. entry.0 < number) self.old.pen.list }
        requires accepted { refusal_of self.old.pen.list (numbered event number) ≡ None }
        ensures list { self.new.pen.list ≡ self.old.pen.list ++ (number, numbered event number) ∷ [] }
        ensures full { self.new.pen.is_full ≡ self.old.pen.is_full }
        ensures unused { IsUnused number self.old.pen.list }
    {
        note_event(&mut self.calls, number, &event);
        self.list.push_reserved((number, event.with_number(number)));
    }

    /// Adds the event if the recording of it returned a number, and keeps whether it returned `Full`. The
    /// list must not refuse the event, and there must be room.
    pub fn settle(&mut self, answer: Result<u64, RecFault>, event: Unnumbered)
        requires room { self.old.has_room ≡ true }
        requires above { IfOk answer (λ n. All (λ entry. entry.0 < n) self.old.pen.list) }
        requires accepted { (n : ℕ) → refusal_of self.old.pen.list (numbered event n) ≡ None }
        ensures ok { IfOk answer (λ n. self.new.pen.list ≡ self.old.pen.list ++ (n, numbered event n) ∷ []) }
        ensures err { OnErr answer (self.new.pen.list ≡ self.old.pen.list) }
        ensures full { self.new.pen.is_full ≡ (self.old.pen.is_full || reports_full answer) }
        ensures unused { IfOk answer (λ n. IsUnused n self.old.pen.list) }
    {
        match answer {
            Ok(number) => self.note(number, event),
            Err(RecFault::Full) => self.note_full(),
            Err(_) => {}
        }
    }

    /// Returns the list as a strand.
    pub fn into_strand(self) -> Strand
        ensures list { result ≡ self.pen.list }
        ensures kept { IsPenList self.pen.list }
    {
        let Notes { list, .. } = self;
        Strand::new(list)
    }
}

// Adds an event of this number. There must be room for one more call.
fn note_event(calls: &mut IndexMap<u64, OwnCall>, number: u64, event: &Unnumbered)
    requires { 0 < spare calls.old }
    ensures { NotesEvent event.now number calls.old.entries calls.new.entries }
{
    match event {
        Unnumbered::Call { op, .. } => note_call(
            calls,
            number,
            OwnCall {
                op: *op,
                is_ended: false,
            },
        ),
        Unnumbered::Reply { no, .. } | Unnumbered::Lost { no } => note_ending(calls, *no),
    }
}

// Adds a call under its number. There must be room for it.
fn note_call(calls: &mut IndexMap<u64, OwnCall>, number: u64, call: OwnCall)
    requires { 0 < spare calls.old }
    ensures { IsNotedAt number call calls.old.entries calls.new.entries }
{
    match calls.insert(number, call) {
        Ok(_) => {}
        Err(_) => unreachable!(),
    }
}

// Records that the call of this number has its ending. There must be room for one more.
fn note_ending(calls: &mut IndexMap<u64, OwnCall>, no: u64)
    requires { 0 < spare calls.old }
    ensures { (call : OwnCall) → lookup (◌==◌ no) calls.old.entries ≡ Some call
        → IsNotedAt no (record call { is_ended = true }) calls.old.entries calls.new.entries }
{
    if let Some(call) = calls.get(&no).copied() {
        note_call(
            calls,
            no,
            OwnCall {
                op: call.op,
                is_ended: true,
            },
        );
    }
}
