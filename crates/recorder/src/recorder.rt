ghost use Rattle.std.specs.Prelude.{◌≡◌, ℕ, ◌<◌, ◌⊎◌, ◌↔◌, Err, IfOk, None, length, replicate, true, vec_len};
ghost use Rattle.events.specs.declared.event.Event.TheVariants.{Call, Reply as Answered, Lost as Missed};
ghost use Rattle.events.specs.Refusal.{most_events};
ghost use Rattle.recorder.specs.Closing.{IsPenMissing, has_full};
ghost use Rattle.recorder.specs.Pens.{Records, new_pen, refusal_of};
ghost use Rattle.recorder.specs.Recordings.{IsRecordingOf, lists_of};
ghost use Rattle.recorder.specs.aids.Notes.{numbered};

use crate::closing::{history_of, is_any_full, is_recording, strands_of};
use crate::fault::{CloseFault, RecFault, StartFault};
use crate::pen::Pen;
use crate::recorded::Recorded;
use crate::unnumbered::Unnumbered;
use doc_register::{Op, Reply};
use events::{HistFault, History, MOST_EVENTS};
use std::alloc::Global;
use std::marker::Model;
use std::sync::{Mutex, Wait};
use version_pair::DocId;

/// The greatest number of pens that a recorder can be started with.
pub const MOST_PENS: usize = 8;

/// A recorder whose pens record under one lock.
///
/// An event is recorded at one moment, while the lock is held, and its number is how many were recorded
/// before it. Contracts see a recorder as the number of pens that it was started with, and a pen as its list
/// and whether `Full` was returned for it.
#[derive(Drop)]
pub struct Recorder {
    pens: usize,
    recorded: Mutex<Recorded>,
}

impl Model for Recorder {
    ghost use Rattle.std.specs.Prelude.{ℕ};

    ghost Value = { ℕ };

    ghost view = { λ r. r.pens };
}

impl Recorder {
    /// Returns a recorder with this many pens, 1 to 8, through which nothing was recorded. Errors, in this
    /// order: `Count` for another number of pens; `NoMemory`.
    pub fn start(alloc: Global, pens: usize) -> Result<(Recorder, Vec<Pen>), StartFault>
        ensures ok { IfOk result (λ started. (started.0 ≡ pens) × (started.1.items ≡ replicate pens new_pen)) }
        ensures count { (result ≡ Err StartFault.Count) ↔ ((pens ≡ 0) ⊎ (8 < pens)) }
    {
        if pens == 0 || pens > MOST_PENS {
            return Err(StartFault::Count);
        }
        let Ok(mut started) = Vec::with_capacity(alloc, pens) else {
            return Err(StartFault::NoMemory);
        };
        for _ in 0..pens {
            started.push_reserved(Pen::new(alloc));
        }
        let recorder = Recorder {
            pens,
            recorded: Mutex::new(Recorded::new(alloc)),
        };
        Ok((recorder, started))
    }

    /// Records what the pen's list does not refuse.
    fn record<R: Wait>(&self, rt: &R, pen: &mut Pen, event: Unnumbered) -> Result<u64, RecFault>
        requires { (n : ℕ) → refusal_of pen.old.list (numbered event n) ≡ None }
        ensures { Records pen.old None (numbered event) result pen.new }
    {
        if pen.notes.is_full() {
            return Err(RecFault::Full);
        }
        pen.notes.reserve()?;
        let last = pen.notes.last_number();
        let copy = event.copy()?;
        let answer = self.recorded.lock(rt).append(last, copy);
        pen.notes.settle(answer, event);
        answer
    }

    /// Records that an operation on a document is called, and returns the event's number, which is the
    /// call's. It may wait for the lock.
    ///
    /// Errors, in this order: `Full` if it was returned for the pen before; `NoMemory` for the pen's list,
    /// which no clause says comes before the others; `Rewound`, `Full`, `NoMemory` for the recording. An
    /// error leaves the pen's list as it was, and the id is dropped. After `Full` was returned for a pen, it
    /// is returned for that pen from then on.
    pub fn call<R: Wait>(&self, rt: &R, pen: &mut Pen, id: DocId, op: Op) -> Result<u64, RecFault>
        // The result and the pen after it are as the definition says, for the call with the number of its
        // event.
        ensures { Records pen.old None (λ n. Call 0 n id op) result pen.new }
    {
        self.record(rt, pen, Unnumbered::Call { id, op })
    }

    /// Records the reply to the call numbered `no` of this pen, and returns the event's number. Errors, in
    /// this order: `NotMine`, `Ended`, `Kind`, then those of `call`, with the same effect on the pen.
    pub fn reply<R: Wait>(
        &self,
        rt: &R,
        pen: &mut Pen,
        no: u64,
        reply: Reply,
    ) -> Result<u64, RecFault>
        // The result and the pen after it are as the definition says; first comes what the pen's list
        // refuses.
        ensures { Records pen.old (refusal_of pen.old.list (Answered no reply)) (λ _. Answered no reply)
            result pen.new }
    {
        if let Some(fault) = pen.notes.reply_refusal(no, &reply) {
            return Err(fault);
        }
        self.record(rt, pen, Unnumbered::Reply { no, reply })
    }

    /// Records that the outcome of the call numbered `no` of this pen will never be known, and returns the
    /// event's number. Errors, in this order: `NotMine`, `Ended`, then those of `call`, with the same effect
    /// on the pen.
    pub fn lost<R: Wait>(&self, rt: &R, pen: &mut Pen, no: u64) -> Result<u64, RecFault>
        // The result and the pen after it are as the definition says; first comes what the pen's list
        // refuses.
        ensures { Records pen.old (refusal_of pen.old.list (Missed no)) (λ _. Missed no) result pen.new }
    {
        if let Some(fault) = pen.notes.lost_refusal(no) {
            return Err(fault);
        }
        self.record(rt, pen, Unnumbered::Lost { no })
    }

    /// Returns the history that the pens recorded together.
    ///
    /// Errors: first `PenMissing`, with both handed back, if fewer pens come than were started; then
    /// `Mismatch` if the numbers that the pens got and the recording under the lock disagree, and `NoMemory`,
    /// in an order that is left open. After `Mismatch` or `NoMemory` the recording is lost.
    pub fn close(self, pens: Vec<Pen>) -> Result<History, CloseFault<Recorder, Pen>>
        // The history is the recording of these pens: every event that was recorded through any of them,
        // once, at the number that was returned for it, and nothing else.
        ensures recording { IfOk result (λ history. IsRecordingOf (lists_of pens.items) history) }
        // The error is `PenMissing` exactly if fewer pens come than were started.
        ensures missing { IsPenMissing result ↔ (vec_len pens < self) }
        // With `PenMissing` the recorder and the pens come back.
        ensures handed_back { IsPenMissing result → result ≡ Err (CloseFault.PenMissing self pens) }
        // If `Full` was returned for one of the pens, a history has 1,048,576 events. So of fewer events no
        // history is returned then.
        ensures full { has_full pens.items ≡ true → IfOk result (λ history. length history ≡ most_events) }
    {
        if pens.len() < self.pens {
            return Err(CloseFault::PenMissing(self, pens));
        }
        let alloc = *pens.allocator();
        let was_full = is_any_full(&pens);
        let Ok(mut strands) = strands_of(alloc, pens) else {
            return Err(CloseFault::NoMemory);
        };
        let Recorder { recorded, .. } = self;
        let events = recorded.into_inner().into_events();
        if was_full && events.len() != MOST_EVENTS {
            return Err(CloseFault::Mismatch);
        }
        if !is_recording(&mut strands, &events) {
            return Err(CloseFault::Mismatch);
        }
        match history_of(alloc, events) {
            Ok(history) => Ok(history),
            Err(HistFault::NoMemory) => Err(CloseFault::NoMemory),
            Err(_) => Err(CloseFault::Mismatch),
        }
    }
}
