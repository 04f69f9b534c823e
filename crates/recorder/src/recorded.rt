ghost use Rattle.std.specs.Prelude.{◌≡◌, ◌<◌, ◌≤◌, ◌++◌, ◌∷◌, [], length, IfOk, OnErr};
ghost use Rattle.events.specs.Refusal.{most_events as limit};
ghost use Rattle.recorder.specs.aids.Appending.{append_refusal, append_reported};
ghost use Rattle.recorder.specs.aids.Notes.{numbered};

use crate::fault::RecFault;
use crate::unnumbered::Unnumbered;
use events::{Event, MOST_EVENTS};
use std::alloc::Global;
use std::marker::Model;

/// The recording under the lock: the events of all pens, at most 1,048,576, in the order of their numbers
/// from 0.
#[derive(Drop)]
pub struct Recorded {
    events: Vec<Event>,
}

impl Model for Recorded {
    ghost use Rattle.std.specs.Prelude.{List};
    ghost use Rattle.events.specs.declared.event.Event.{Event};

    ghost Value = { List Event };

    ghost use Rattle.std.specs.Prelude.{◌≤◌, length};
    ghost use Rattle.events.specs.Refusal.{most_events};

    ghost view = { λ r. r.events.items };

    ghost invariant = { λ r. length r.events.items ≤ most_events };
}

impl Recorded {
    /// Returns the recording without events. It allocates nothing.
    pub fn new(alloc: Global) -> Recorded
        ensures { result ≡ [] }
    {
        Recorded {
            events: Vec::new(alloc),
        }
    }

    /// Returns the reason to refuse an event of a pen with this last number, if there is one: `Rewound`,
    /// `Full`.
    fn refusal(&self, last: Option<u64>) -> Option<RecFault>
        ensures { result ≡ append_refusal self.now last }
    {
        let count = self.events.len() as u64;
        if let Some(last) = last
            && count <= last
        {
            return Some(RecFault::Rewound(count));
        }
        if self.events.len() < MOST_EVENTS {
            None
        } else {
            Some(RecFault::Full)
        }
    }

    /// Adds an event of a pen with this last number at the end, and returns its number, which is how many
    /// events there were. Errors, in this order: `Rewound`, `Full`, `NoMemory`.
    pub fn append(&mut self, last: Option<u64>, event: Unnumbered) -> Result<u64, RecFault>
        ensures ok { IfOk result (λ n. self.new ≡ self.old ++ numbered event n ∷ []) }
        ensures number { IfOk result (λ n. (n ≡ length self.old) × (n < limit)) }
        ensures err { OnErr result (self.new ≡ self.old) }
        ensures reason { append_reported result ≡ append_refusal self.old last }
    {
        if let Some(fault) = self.refusal(last) {
            return Err(fault);
        }
        self.events.reserve(1)?;
        let number = self.events.len() as u64;
        self.events.push_reserved(event.with_number(number));
        Ok(number)
    }

    /// Returns the events.
    pub fn into_events(self) -> Vec<Event>
        ensures { result.items ≡ self }
    {
        let Recorded { events } = self;
        events
    }
}
