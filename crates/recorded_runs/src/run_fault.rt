ghost use Rattle.std.specs.Prelude.{◌≡◌};
ghost use Rattle.recorded_runs.specs.aids.Recorded.{stream_fault_of, stream_fault_of_play};

use events::HistFault;
use recorder::RecFault;
use stream_io::StreamFault;
use workload::{PlayFault, RunFault, TargetFault};

/// Returns a fault of a run of clients as one of a stream.
pub fn fault_of_run(fault: RunFault) -> StreamFault
    ensures { result ≡ stream_fault_of fault }
{
    match fault {
        RunFault::NoMemory
        | RunFault::Record(RecFault::NoMemory)
        | RunFault::Target(TargetFault::NoMemory) => StreamFault::NoMemory,
        RunFault::Record(_) | RunFault::Target(_) => StreamFault::Recording,
    }
}

/// Returns a fault of clients that are played as one of a stream.
pub fn fault_of_play(fault: PlayFault) -> StreamFault
    ensures { result ≡ stream_fault_of_play fault }
{
    match fault {
        PlayFault::NoMemory
        | PlayFault::Event(HistFault::NoMemory)
        | PlayFault::Target(TargetFault::NoMemory) => StreamFault::NoMemory,
        PlayFault::Event(_) | PlayFault::Target(_) => StreamFault::Recording,
    }
}
