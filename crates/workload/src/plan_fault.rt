ghost use Rattle.std.specs.Prelude.{◌≡◌};

use std::alloc::AllocError;
use thiserror::Error;

/// The reason why there is no such plan.
#[derive(Clone, Copy, Debug, PartialEq, Eq, Error)]
pub enum PlanFault {
    /// There is no client, no document, or a client without turns.
    #[error("a plan needs a client, a document, and a turn of each client")]
    Zero,
    /// There are more than 8 clients, more than 524,288 turns in all, or more than 1,024 documents.
    #[error("a plan has at most 8 clients, 524,288 turns and 1,024 documents")]
    TooMany,
    /// Memory was refused.
    #[error("no memory")]
    NoMemory,
}

impl From<AllocError> for PlanFault {
    ghost use Rattle.workload.specs.declared.plan_fault.PlanFault.TheVariants.{NoMemory as Refused};

    ghost from_gives = { λ _ fault. fault ≡ Refused };

    fn from(_refused: AllocError) -> PlanFault {
        PlanFault::NoMemory
    }
}
