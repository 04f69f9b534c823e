ghost use Rattle.std.specs.Prelude.{◌≡◌};
ghost use Rattle.workload.specs.declared.play_fault.PlayFault.TheVariants as play;

use crate::target::TargetFault;
use events::HistFault;
use std::alloc::AllocError;
use thiserror::Error;

/// The reason why clients were not played to their ends.
#[derive(Clone, Copy, Debug, PartialEq, Eq, Error)]
pub enum PlayFault {
    /// The history refused an event.
    #[error("{0}")]
    Event(HistFault),
    /// The target refused an operation, or reported nothing of one.
    #[error("{0}")]
    Target(TargetFault),
    /// Memory was refused.
    #[error("no memory")]
    NoMemory,
}

impl From<HistFault> for PlayFault {
    ghost from_gives = { λ cause fault. fault ≡ play.Event cause };

    fn from(cause: HistFault) -> PlayFault {
        PlayFault::Event(cause)
    }
}

impl From<TargetFault> for PlayFault {
    ghost from_gives = { λ cause fault. fault ≡ play.Target cause };

    fn from(cause: TargetFault) -> PlayFault {
        PlayFault::Target(cause)
    }
}

impl From<AllocError> for PlayFault {
    ghost from_gives = { λ _ fault. fault ≡ play.NoMemory };

    fn from(_refused: AllocError) -> PlayFault {
        PlayFault::NoMemory
    }
}
