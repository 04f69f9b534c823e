ghost use Rattle.std.specs.Prelude.{◌≡◌, ◌++◌, ◌∷◌, [], IfOk, OnOk, None};
ghost use Rattle.events.specs.Events.{HasShard, prefix as first_events};
ghost use Rattle.events.specs.Refusal.{refusal_of};

use crate::event::Event;
use crate::fault::HistFault;
use crate::history::History;
use std::alloc::AllocError;
use version_pair::NoMemory;

impl Event {
    // Returns another event that says the same.
    fn copy(&self) -> Result<Event, NoMemory>
        ensures { IfOk result (λ event. event ≡ self.now) }
    {
        Ok(match self {
            Event::Call { no, shard, id, op } => Event::Call {
                no: *no,
                shard: *shard,
                id: id.copy()?,
                op: *op,
            },
            Event::Reply { no, reply } => Event::Reply {
                no: *no,
                reply: *reply,
            },
            Event::Lost { no } => Event::Lost { no: *no },
        })
    }
}

impl History {
    /// Adds an event that the history does not refuse. It fails only if memory is refused.
    pub fn push_accepted(&mut self, event: Event) -> Result<(), NoMemory>
        // The history has no reason to refuse it.
        requires accepted { refusal_of self.old event ≡ None }
        // The shard of a call is 0 to 1,023.
        requires shard { HasShard event }
        // The event is added at the end.
        ensures { OnOk result (self.new ≡ self.old ++ event ∷ []) }
    {
        match self.push(event) {
            Ok(()) => Ok(()),
            Err(fault) => match fault {
                HistFault::NoMemory => Err(AllocError),
                _ => unreachable!(),
            },
        }
    }

    /// Returns the history of the first `n` events, or of all events if there are fewer.
    pub fn prefix(&self, n: usize) -> Result<History, NoMemory>
        ensures { IfOk result (λ history. history ≡ first_events self.now n) }
    {
        let mut history = History::with_keys(self.allocator(), self.keys());
        for place in 0..n.min(self.len()) {
            history.push_accepted(self.event(place).copy()?)?;
        }
        Ok(history)
    }
}
