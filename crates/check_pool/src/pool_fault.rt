ghost use Rattle.std.specs.Prelude.{◌≡◌};

use std::alloc::AllocError;
use thiserror::Error;

/// The reason why the jobs have no answers. Jobs are numbered from 0.
#[derive(Clone, Copy, Debug, PartialEq, Eq, Error)]
pub enum PoolFault {
    /// There are no workers.
    #[error("there are no workers")]
    NoWorkers,
    /// There are more than 16 workers.
    #[error("there are more than 16 workers")]
    TooMany,
    /// No message came for this job, the first such job.
    #[error("job {0} has no answer")]
    Lost(usize),
    /// A second message came for this job.
    #[error("job {0} was answered twice")]
    Double(usize),
    /// A message came whose answer is about another id, other records or another reading of conflicts than
    /// the job of its number, which is this one. Or no job has the message's number, and this is the last
    /// job.
    #[error("an answer came that is not to job {0}")]
    Stranger(usize),
    /// Memory was refused.
    #[error("no memory")]
    NoMemory,
}

impl From<AllocError> for PoolFault {
    ghost use Rattle.check_pool.specs.declared.pool_fault.PoolFault.TheVariants.{NoMemory as Refused};

    ghost from_gives = { λ _ fault. fault ≡ Refused };

    fn from(_refused: AllocError) -> PoolFault {
        PoolFault::NoMemory
    }
}
