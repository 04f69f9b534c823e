ghost use Rattle.std.specs.Prelude.{◌≡◌, ◌≢◌, ℕ, ◌<◌, ◌≤◌, ◌⊎◌, ◌↔◌, All, Err, IfOk, None, length, replicate, true, vec_len};
ghost use Rattle.events.specs.declared.event.Event.TheVariants.{Call, Reply as Answered, Lost as Missed};
ghost use Rattle.events.specs.Refusal.{most_events};
ghost use Rattle.recorder.specs.declared.fault.RecFault.TheVariants as recording;
ghost use Rattle.recorder.specs.Clock.{new_clock_pen, pen_states};
ghost use Rattle.recorder.specs.Closing.{IsPenMissing, has_full};
ghost use Rattle.recorder.specs.Pens.{Records, refusal_of};
ghost use Rattle.recorder.specs.Recordings.{IsRecordingOf, entries_of, lists_of};
ghost use Rattle.recorder.specs.aids.Merging.{AreDense};
ghost use Rattle.recorder.specs.aids.Notes.{IsPenList, numbered};

use crate::clock::{Clock, ClockSeat};
use crate::clock_pen::ClockPen;
use crate::closing::{history_of, merge};
use crate::fault::{CloseFault, RecFault, StartFault};
use crate::recorder::MOST_PENS;
use crate::strand::Strand;
use crate::unnumbered::Unnumbered;
use doc_register::{Op, Reply};
use events::{HistFault, History};
use std::alloc::Global;
use std::marker::Model;
use version_pair::{DocId, NoMemory};

/// A recorder whose pens number their events by one clock word, without a lock.
///
/// An event is recorded at one moment, in which its pen adds 1 to the word; the event's number is the
/// previous value of the word. No call waits for another. Contracts see a recorder as the number of pens that
/// it was started with, and its clock word; and a pen as its list, whether `Full` was returned for it, and
/// its clock word.
#[derive(Drop)]
pub struct ClockRecorder {
    pens: usize,
    clock: Clock,
    maker: ClockSeat,
}

impl Model for ClockRecorder {
    ghost use Rattle.std.specs.Prelude.{◌≡◌, []};
    ghost use Rattle.recorder.specs.Clock.{ClockRecorderState, seat_with};
    ghost use Rattle.recorder.specs.declared.clock_view.ClockView.TheVariants.{Maker};

    ghost Value = { ClockRecorderState };

    ghost view = { λ r. record { pens = r.pens; clock = r.clock } };

    ghost invariant = { λ r. (r.maker.table_id ≡ r.clock) × (r.maker.me ≡ seat_with (Maker r.pens 0 [])) };
}

impl ClockRecorder {
    /// Returns a recorder with this many pens, 1 to 8, through which nothing was recorded. Errors, in this
    /// order: `Count` for another number of pens; `NoMemory`.
    pub fn start(alloc: Global, pens: usize) -> Result<(ClockRecorder, Vec<ClockPen>), StartFault>
        // There are that many pens, each new and of the recorder's clock word.
        ensures ok { IfOk result (λ started. (started.0.pens ≡ pens)
            × (started.1.items ≡ replicate pens (new_clock_pen started.0.clock))) }
        ensures count { (result ≡ Err StartFault.Count) ↔ ((pens ≡ 0) ⊎ (8 < pens)) }
    {
        if pens == 0 || pens > MOST_PENS {
            return Err(StartFault::Count);
        }
        let Ok(mut started) = Vec::with_capacity(alloc, pens) else {
            return Err(StartFault::NoMemory);
        };
        let Ok((clock, mut maker)) = Clock::start(alloc) else {
            return Err(StartFault::NoMemory);
        };
        for _ in 0..pens {
            started.push_reserved(ClockPen::new(alloc, clock.split_off(&mut maker)));
        }
        let recorder = ClockRecorder { pens, clock, maker };
        Ok((recorder, started))
    }

    /// Records that an operation on a document is called, and returns the event's number, which is the
    /// call's. It waits for nobody.
    ///
    /// Errors: `Full` if it was returned for the pen before; then `NoMemory` for the pen's list, and `Full`,
    /// in an order that is left open. An error leaves the pen's list as it was. After `Full` was returned for
    /// a pen, it is returned for that pen from then on, and the pen draws no number.
    pub fn call(&self, pen: &mut ClockPen, id: DocId, op: Op) -> Result<u64, RecFault>
        // The pen is of the recorder's clock word.
        requires { pen.old.clock ≡ self.now.clock }
        // The result and the pen after it are as the definition says, for the call with the number of its
        // event.
        ensures records { Records pen.old.pen None (λ n. Call 0 n id op) result pen.new.pen }
        // The pen stays one of this clock word.
        ensures clock { pen.new.clock ≡ pen.old.clock }
        // The error is never `Rewound`.
        ensures forward { (n : ℕ) → result ≢ Err (recording.Rewound n) }
    {
        pen.record(&self.clock, Unnumbered::Call { id, op })
    }

    /// Records the reply to the call numbered `no` of this pen, and returns the event's number. Errors, in
    /// this order: `NotMine`, `Ended`, `Kind`, then those of `call`, with the same effect on the pen.
    pub fn reply(&self, pen: &mut ClockPen, no: u64, reply: Reply) -> Result<u64, RecFault>
        // The pen is of the recorder's clock word.
        requires { pen.old.clock ≡ self.now.clock }
        // The result and the pen after it are as the definition says; first comes what the pen's list
        // refuses.
        ensures records { Records pen.old.pen (refusal_of pen.old.pen.list (Answered no reply))
            (λ _. Answered no reply) result pen.new.pen }
        // The pen stays one of this clock word.
        ensures clock { pen.new.clock ≡ pen.old.clock }
        // The error is never `Rewound`.
        ensures forward { (n : ℕ) → result ≢ Err (recording.Rewound n) }
    {
        if let Some(fault) = pen.notes.reply_refusal(no, &reply) {
            return Err(fault);
        }
        pen.record(&self.clock, Unnumbered::Reply { no, reply })
    }

    /// Records that the outcome of the call numbered `no` of this pen will never be known, and returns the
    /// event's number. Errors, in this order: `NotMine`, `Ended`, then those of `call`, with the same effect
    /// on the pen.
    pub fn lost(&self, pen: &mut ClockPen, no: u64) -> Result<u64, RecFault>
        // The pen is of the recorder's clock word.
        requires { pen.old.clock ≡ self.now.clock }
        // The result and the pen after it are as the definition says; first comes what the pen's list
        // refuses.
        ensures records { Records pen.old.pen (refusal_of pen.old.pen.list (Missed no)) (λ _. Missed no) result
            pen.new.pen }
        // The pen stays one of this clock word.
        ensures clock { pen.new.clock ≡ pen.old.clock }
        // The error is never `Rewound`.
        ensures forward { (n : ℕ) → result ≢ Err (recording.Rewound n) }
    {
        if let Some(fault) = pen.notes.lost_refusal(no) {
            return Err(fault);
        }
        pen.record(&self.clock, Unnumbered::Lost { no })
    }

    // Joins the seats of all pens, and returns their lists.
    fn gather(self, alloc: Global, pens: Vec<ClockPen>) -> Result<Vec<Strand>, NoMemory>
        requires mine { All (λ pen. pen.clock ≡ self.clock) pens.items }
        requires all { self.pens ≤ vec_len pens }
        ensures lists { IfOk result (λ strands. strands.items ≡ lists_of (pen_states pens.items)) }
        ensures kept { IfOk result (λ strands. All IsPenList strands.items) }
        ensures dense { IfOk result (λ strands. AreDense strands.items
            × (length (entries_of strands.items) ≤ most_events)) }
        ensures full { IfOk result (λ strands. has_full (pen_states pens.items) ≡ true
            → length (entries_of strands.items) ≡ most_events) }
    {
        let ClockRecorder {
            clock,
            mut maker,
            ..
        } = self;
        let mut strands = Vec::new(alloc);
        for pen in pens {
            let (strand, seat) = pen.into_parts();
            clock.join(&mut maker, seat);
            strands.push(strand)?;
        }
        clock.stop(maker);
        Ok(strands)
    }

    /// Returns the history that the pens recorded together.
    ///
    /// Errors, in this order: `PenMissing`, with both handed back, if fewer pens come than were started;
    /// `NoMemory`, after which the recording is lost.
    pub fn close(self, pens: Vec<ClockPen>) -> Result<History, CloseFault<ClockRecorder, ClockPen>>
        // All pens are of the recorder's clock word.
        requires { All (λ pen. pen.clock ≡ self.clock) pens.items }
        // The history is the recording of these pens: every event that was recorded through any of them,
        // once, at the number that was returned for it, and nothing else.
        ensures recording { IfOk result (λ history. IsRecordingOf (lists_of (pen_states pens.items)) history) }
        // The error is `PenMissing` exactly if fewer pens come than were started.
        ensures missing { IsPenMissing result ↔ (vec_len pens < self.pens) }
        // With `PenMissing` the recorder and the pens come back.
        ensures handed_back { IsPenMissing result → result ≡ Err (CloseFault.PenMissing self pens) }
        // The error is never `Mismatch`.
        ensures agreed { result ≢ Err CloseFault.Mismatch }
        // If `Full` was returned for one of the pens, a history that is returned has 1,048,576 events.
        ensures full { has_full (pen_states pens.items) ≡ true → IfOk result (λ history. length history ≡ most_events) }
    {
        if pens.len() < self.pens {
            return Err(CloseFault::PenMissing(self, pens));
        }
        let alloc = *pens.allocator();
        let Ok(strands) = self.gather(alloc, pens) else {
            return Err(CloseFault::NoMemory);
        };
        let Ok(events) = merge(alloc, strands) else {
            return Err(CloseFault::NoMemory);
        };
        match history_of(alloc, events) {
            Ok(history) => Ok(history),
            Err(fault) => {
                prove!(matches!(&fault, HistFault::NoMemory));
                Err(CloseFault::NoMemory)
            }
        }
    }
}
