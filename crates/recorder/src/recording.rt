ghost use Rattle.std.specs.Prelude.{◌≡◌, ℕ, Err, None};
ghost use Rattle.events.specs.declared.event.Event.TheVariants.{Call, Reply as Answered, Lost as Missed};
ghost use Rattle.recorder.specs.declared.fault.RecFault.TheVariants as recording;
ghost use Rattle.recorder.specs.Pens.{PenState, Records, refusal_of};

use crate::clock_pen::ClockPen;
use crate::clock_recorder::ClockRecorder;
use crate::fault::RecFault;
use crate::pen::Pen;
use crate::recorder::Recorder;
use doc_register::{Op, Reply};
use std::sync::Wait;
use version_pair::DocId;

/// A recorder through whose pens client threads record calls, replies and lost calls.
pub trait Recording {
    type Pen;

    /// A pen's list, and whether `Full` was returned for it.
    ghost pen_state: { Self.Pen → PenState };

    /// Whether a pen is this recorder's.
    ghost has_pen: { Self → Self.Pen → Type 0 };

    /// Whether this recorder may return `Rewound`.
    ghost may_rewind: { Self → Type 0 };

    /// Records that an operation on a document is called, and returns the event's number, which is the
    /// call's.
    ///
    /// Errors, in this order: `Full` if it was returned for the pen before; `NoMemory` for the pen's list,
    /// which no clause says comes before the others; `Rewound`, `Full`, `NoMemory` for what the pens share.
    /// An error leaves the pen's list as it was, and the id is dropped. After `Full` was returned for a pen,
    /// it is returned for that pen from then on.
    fn call<R: Wait>(&self, rt: &R, pen: &mut Self::Pen, id: DocId, op: Op) -> Result<u64, RecFault>
        // The pen is this recorder's.
        requires { has_pen self.now pen.old }
        // The result and the pen after it are as the definition says, for the call with the number of its
        // event.
        ensures records { Records (pen_state pen.old) None (λ n. Call 0 n id op) result (pen_state pen.new) }
        // The pen stays this recorder's.
        ensures keeps { has_pen self.now pen.new }
        // The error is `Rewound` only of a recorder that may return it.
        ensures forward { (n : ℕ) → result ≡ Err (recording.Rewound n) → may_rewind self.now };

    /// Records the reply to the call numbered `no` of this pen, and returns the event's number. Errors, in
    /// this order: `NotMine`, `Ended`, `Kind`, then those of `call`.
    fn reply<R: Wait>(
        &self,
        rt: &R,
        pen: &mut Self::Pen,
        no: u64,
        reply: Reply,
    ) -> Result<u64, RecFault>
        // The pen is this recorder's.
        requires { has_pen self.now pen.old }
        // The result and the pen after it are as the definition says; first comes what the pen's list
        // refuses.
        ensures records { Records (pen_state pen.old) (refusal_of (pen_state pen.old).list (Answered no reply))
            (λ _. Answered no reply) result (pen_state pen.new) }
        // The pen stays this recorder's.
        ensures keeps { has_pen self.now pen.new }
        // The error is `Rewound` only of a recorder that may return it.
        ensures forward { (n : ℕ) → result ≡ Err (recording.Rewound n) → may_rewind self.now };

    /// Records that the outcome of the call numbered `no` of this pen will never be known, and returns the
    /// event's number. Errors, in this order: `NotMine`, `Ended`, then those of `call`.
    fn lost<R: Wait>(&self, rt: &R, pen: &mut Self::Pen, no: u64) -> Result<u64, RecFault>
        // The pen is this recorder's.
        requires { has_pen self.now pen.old }
        // The result and the pen after it are as the definition says; first comes what the pen's list
        // refuses.
        ensures records { Records (pen_state pen.old) (refusal_of (pen_state pen.old).list (Missed no))
            (λ _. Missed no) result (pen_state pen.new) }
        // The pen stays this recorder's.
        ensures keeps { has_pen self.now pen.new }
        // The error is `Rewound` only of a recorder that may return it.
        ensures forward { (n : ℕ) → result ≡ Err (recording.Rewound n) → may_rewind self.now };
}

impl Recording for Recorder {
    type Pen = Pen;

    ghost pen_state = { λ pen. pen };

    // Any pen counts as this recorder's.
    ghost has_pen = { λ _ _. Unit {0} };

    // It may return `Rewound`.
    ghost may_rewind = { λ _. Unit {0} };

    fn call<R: Wait>(&self, rt: &R, pen: &mut Pen, id: DocId, op: Op) -> Result<u64, RecFault> {
        Recorder::call(self, rt, pen, id, op)
    }

    fn reply<R: Wait>(
        &self,
        rt: &R,
        pen: &mut Pen,
        no: u64,
        reply: Reply,
    ) -> Result<u64, RecFault> {
        Recorder::reply(self, rt, pen, no, reply)
    }

    fn lost<R: Wait>(&self, rt: &R, pen: &mut Pen, no: u64) -> Result<u64, RecFault> {
        Recorder::lost(self, rt, pen, no)
    }
}

// The calls of the clock form wait for nobody.
impl Recording for ClockRecorder {
    type Pen = ClockPen;

    ghost pen_state = { λ pen. pen.pen };

    // A pen is this recorder's if it is of its clock word.
    ghost has_pen = { λ recorder pen. pen.clock ≡ recorder.clock };

    // It never returns `Rewound`.
    ghost may_rewind = { λ _. ⊥ };

    fn call<R: Wait>(
        &self,
        _rt: &R,
        pen: &mut ClockPen,
        id: DocId,
        op: Op,
    ) -> Result<u64, RecFault> {
        ClockRecorder::call(self, pen, id, op)
    }

    fn reply<R: Wait>(
        &self,
        _rt: &R,
        pen: &mut ClockPen,
        no: u64,
        reply: Reply,
    ) -> Result<u64, RecFault> {
        ClockRecorder::reply(self, pen, no, reply)
    }

    fn lost<R: Wait>(&self, _rt: &R, pen: &mut ClockPen, no: u64) -> Result<u64, RecFault> {
        ClockRecorder::lost(self, pen, no)
    }
}
