ghost use Rattle.std.specs.Prelude.{◌≡◌, IfErr, IfOk};
ghost use Rattle.workload.specs.aids.Seats.{IsPolled};

use crate::open_call::OpenCall;
use crate::target::{Progress, Target, TargetFault};
use doc_register::Reply;
use std::sync::Wait;

/// An open call, and how many more times it may be polled.
#[derive(Clone, Copy)]
pub struct PolledCall {
    pub call: OpenCall,
    pub polls_left: u32,
}

/// The result of one poll of an open call.
#[derive(Clone, Copy, PartialEq, Eq)]
pub enum Polled {
    /// It waits, and may be polled again.
    Waits,
    /// It ends, with the reply that was heard, or lost.
    Ends(Option<Reply>),
}

impl PolledCall {
    /// Polls the call once. If it may not be polled, it ends without a poll.
    pub fn poll<R: Wait, T: Target>(self, rt: &R, target: &T) -> Result<Polled, TargetFault>
        ensures polled { IfOk result (IsPolled T.issued T.gave self) }
        ensures refused { IfErr result (λ fault. fault ≡ TargetFault.NoMemory) }
    {
        if self.polls_left == 0 {
            return Ok(Polled::Ends(None));
        }
        match target.poll(rt, self.call.ticket)? {
            Progress::Waiting if self.polls_left > 1 => Ok(Polled::Waits),
            Progress::Done(reply) => Ok(Polled::Ends(Some(reply))),
            Progress::Waiting | Progress::Unknown => Ok(Polled::Ends(None)),
        }
    }
}
