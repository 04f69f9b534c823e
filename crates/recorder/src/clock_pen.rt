ghost use Rattle.std.specs.Prelude.{◌≡◌, ◌≢◌, ℕ, Err, None, Ok, if◌then◌else◌, nat_lt};
ghost use Rattle.events.specs.Refusal.{most_events};
ghost use Rattle.recorder.specs.declared.fault.RecFault.TheVariants as recording;
ghost use Rattle.recorder.specs.Clock.{new_clock_pen, nothing_drawn, seat_with};
ghost use Rattle.recorder.specs.Pens.{Records, refusal_of};
ghost use Rattle.recorder.specs.aids.Drawing.{IsSeatFor};
ghost use Rattle.recorder.specs.aids.Notes.{IsPenList, numbered};

use crate::clock::{Clock, ClockSeat};
use crate::fault::RecFault;
use crate::notes::Notes;
use crate::strand::Strand;
use crate::unnumbered::Unnumbered;
use events::MOST_EVENTS;
use std::alloc::Global;
use std::marker::Model;

/// A pen of a recorder whose clock word numbers the events. One client thread records through it. It keeps a
/// list of all that was recorded through it, each event with its number.
#[derive(Drop)]
pub struct ClockPen {
    pub(crate) notes: Notes,
    seat: ClockSeat,
}

impl Model for ClockPen {
    ghost use Rattle.recorder.specs.Clock.{ClockPenState};
    ghost use Rattle.recorder.specs.aids.Drawing.{HasDrawn};

    ghost Value = { ClockPenState };

    ghost view = { λ p. record { pen = p.notes.pen; clock = p.seat.table_id } };

    ghost invariant = { λ p. HasDrawn p.notes.pen p.seat.me };
}

// The number of an event, if the drawn number is one; otherwise `Full`: the recording is full.
fn number_of_event(drawn: u64) -> Result<u64, RecFault>
    ensures { result ≡ (if nat_lt drawn most_events then Ok drawn else Err recording.Full) }
{
    if drawn < MOST_EVENTS as u64 {
        Ok(drawn)
    } else {
        Err(RecFault::Full)
    }
}

impl ClockPen {
    /// Returns a pen with this seat, which must have drawn nothing. It allocates nothing.
    pub(crate) fn new(alloc: Global, seat: ClockSeat) -> ClockPen
        requires { seat.me ≡ seat_with nothing_drawn }
        ensures { result ≡ new_clock_pen seat.table_id }
    {
        ClockPen {
            notes: Notes::new(alloc),
            seat,
        }
    }

    /// Records what the list does not refuse. The list has room to grow before a number is drawn, so each
    /// number of an event has its event.
    pub(crate) fn record(&mut self, clock: &Clock, event: Unnumbered) -> Result<u64, RecFault>
        requires clock { self.old.clock ≡ clock.now }
        requires accepted { (n : ℕ) → refusal_of self.old.pen.list (numbered event n) ≡ None }
        ensures records { Records self.old.pen None (numbered event) result self.new.pen }
        ensures clock { self.new.clock ≡ self.old.clock }
        ensures forward { (n : ℕ) → result ≢ Err (recording.Rewound n) }
    {
        if self.notes.is_full() {
            return Err(RecFault::Full);
        }
        self.notes.reserve()?;
        let answer = number_of_event(clock.draw(&mut self.seat));
        self.notes.settle(answer, event);
        answer
    }

    /// Returns the list as a strand, and the seat.
    pub(crate) fn into_parts(self) -> (Strand, ClockSeat)
        ensures list { (result.0 ≡ self.pen.list) × IsPenList self.pen.list }
        ensures seat { (result.1.table_id ≡ self.clock) × IsSeatFor self.pen result.1.me }
    {
        let ClockPen { notes, seat } = self;
        (notes.into_strand(), seat)
    }
}
