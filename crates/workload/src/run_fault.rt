ghost use Rattle.std.specs.Prelude.{◌≡◌};
ghost use Rattle.workload.specs.declared.run_fault.RunFault.TheVariants as run;

use crate::target::TargetFault;
use recorder::RecFault;
use std::alloc::AllocError;
use thiserror::Error;

/// The reason why a run of clients failed.
#[derive(Clone, Copy, Debug, PartialEq, Eq, Error)]
pub enum RunFault {
    /// An event was not recorded.
    #[error("{0}")]
    Record(RecFault),
    /// The target refused an operation, or reported nothing of one.
    #[error("{0}")]
    Target(TargetFault),
    /// Memory was refused.
    #[error("no memory")]
    NoMemory,
}

impl From<RecFault> for RunFault {
    ghost from_gives = { λ cause fault. fault ≡ run.Record cause };

    fn from(cause: RecFault) -> RunFault {
        RunFault::Record(cause)
    }
}

impl From<TargetFault> for RunFault {
    ghost from_gives = { λ cause fault. fault ≡ run.Target cause };

    fn from(cause: TargetFault) -> RunFault {
        RunFault::Target(cause)
    }
}

impl From<AllocError> for RunFault {
    ghost from_gives = { λ _ fault. fault ≡ run.NoMemory };

    fn from(_refused: AllocError) -> RunFault {
        RunFault::NoMemory
    }
}
