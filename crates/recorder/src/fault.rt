ghost use Rattle.std.specs.Prelude.{◌≡◌};
ghost use Rattle.recorder.specs.declared.fault.RecFault.TheVariants as recording;

use thiserror::Error;
use version_pair::NoMemory;

/// The reason why a recorder was not started.
#[derive(Clone, Copy, Debug, PartialEq, Eq, Error)]
pub enum StartFault {
    /// The number of pens is not 1 to 8.
    #[error("a recorder has 1 to 8 pens")]
    Count,
    /// Memory was refused.
    #[error("no memory")]
    NoMemory,
}

/// The reason why an event was not recorded.
#[derive(Clone, Copy, Debug, PartialEq, Eq, Error)]
pub enum RecFault {
    /// No call of this pen has this number.
    #[error("no call of this number was answered to this pen")]
    NotMine,
    /// The call with this number has an ending already.
    #[error("the call of this number has ended already")]
    Ended,
    /// The operation of the call cannot have this reply.
    #[error("the operation has no such reply")]
    Kind,
    /// The recording has 1,048,576 events, the most that it can have.
    #[error("the recording has its most events")]
    Full,
    /// Memory was refused.
    #[error("no memory")]
    NoMemory,
    /// The recording has only this many events, although this pen got a number of at least that.
    #[error("the recording has only {0} events, and this pen was answered a later one")]
    Rewound(u64),
}

/// The reason why a recorder was not closed; `R` is the recorder, `P` its pen.
#[derive(Debug, Drop, Error)]
pub enum CloseFault<R, P> {
    /// Fewer pens came than were started. The recorder and the pens are handed back.
    #[error("a pen is missing")]
    PenMissing(R, Vec<P>),
    /// The numbers that the pens got and the recording disagree. The recording is lost.
    #[error("what the pens were answered is not what was recorded")]
    Mismatch,
    /// Memory was refused. The recording is lost.
    #[error("no memory")]
    NoMemory,
}

impl From<NoMemory> for RecFault {
    ghost from_gives = { λ _ fault. fault ≡ recording.NoMemory };

    fn from(_: NoMemory) -> RecFault {
        RecFault::NoMemory
    }
}
