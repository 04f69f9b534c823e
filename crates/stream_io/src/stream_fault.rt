ghost use Rattle.std.specs.Prelude.{◌≡◌};
ghost use Rattle.stream_io.specs.declared.stream_fault.StreamFault.TheVariants as fault;
ghost use Rattle.stream_io.specs.Faults.{input_fault};

use api_lines::InputFault;
use std::alloc::AllocError;
use thiserror::Error;

/// The reason why a stream ended without its answer.
#[derive(Clone, Copy, Debug, PartialEq, Eq, Error)]
pub enum StreamFault {
    /// The reader failed. Nothing was written.
    #[error("read fault")]
    Read,
    /// The writer failed, or took no byte. A prefix of the line may have been written.
    #[error("write fault")]
    Write,
    /// Memory was refused. Nothing was written.
    #[error("no memory")]
    NoMemory,
    /// A worker gave no answer for the document of this number, or not exactly one. Nothing was written.
    #[error("worker lost")]
    Worker(usize),
    /// An event of a run was not recorded, or its recording was lost. Nothing was written.
    #[error("recording lost")]
    Recording,
    /// A number of a run's plan or group was refused. Nothing was written.
    #[error("setting")]
    Setting,
}

impl From<AllocError> for StreamFault {
    ghost from_gives = { λ _ reported. reported ≡ fault.NoMemory };

    fn from(_refused: AllocError) -> StreamFault {
        StreamFault::NoMemory
    }
}

impl From<InputFault> for StreamFault {
    ghost from_gives = { λ read reported. reported ≡ input_fault read };

    fn from(fault: InputFault) -> StreamFault {
        match fault {
            InputFault::Read => StreamFault::Read,
            InputFault::NoMemory => StreamFault::NoMemory,
        }
    }
}
