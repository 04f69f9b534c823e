ghost use Rattle.std.specs.Prelude.{◌≡◌};
ghost use Rattle.casbench.specs.Exit.{code_of_arguments, code_of_fault, code_of_outcome, code_of_status, severity_of, worse_outcome};

use crate::outcome::Outcome;
use clap::error::ErrorKind;
use report::{Status, StreamFault};

/// The exit status of arguments that are refused.
pub const ARGUMENTS_REFUSED: u8 = 64;

// The exit status of a yes with fewer calls than were asked for.
const TOO_FEW_CALLS: u8 = 6;

// Returns the exit status of an answer.
fn status_code(status: Status) -> u8
    ensures { result ≡ code_of_status status }
{
    match status {
        Status::Yes => 0,
        Status::No | Status::Refuted => 1,
        Status::Refused => 2,
    }
}

/// Returns the exit status of what a command came to.
pub fn outcome_code(outcome: Outcome) -> u8
    ensures { result ≡ code_of_outcome outcome }
{
    match outcome {
        Outcome::Answered(status) => status_code(status),
        Outcome::TooFew => TOO_FEW_CALLS,
    }
}

// How bad the outcome of a text is among those of several.
fn severity(outcome: Outcome) -> u8
    ensures { result ≡ severity_of outcome }
{
    match outcome {
        Outcome::Answered(Status::Yes) => 0,
        Outcome::TooFew => 1,
        Outcome::Answered(Status::Refused) => 2,
        Outcome::Answered(Status::No | Status::Refuted) => 3,
    }
}

/// Returns the worse outcome of two texts, and the first if both are equally bad.
pub fn worse(first: Outcome, second: Outcome) -> Outcome
    ensures { result ≡ worse_outcome first second }
{
    if severity(first) < severity(second) {
        second
    } else {
        first
    }
}

/// Returns the exit status of a fault.
pub fn fault_code(fault: StreamFault) -> u8
    ensures { result ≡ code_of_fault fault }
{
    match fault {
        StreamFault::NoMemory => 3,
        StreamFault::Read | StreamFault::Write => 4,
        StreamFault::Worker(_) | StreamFault::Recording => 5,
        StreamFault::Setting => ARGUMENTS_REFUSED,
    }
}

/// Returns the exit status of arguments that ask for nothing but help or the version, or are refused.
pub fn arguments_code(kind: ErrorKind) -> u8
    ensures { result ≡ code_of_arguments kind }
{
    match kind {
        ErrorKind::DisplayHelp | ErrorKind::DisplayVersion => 0,
        ErrorKind::OutOfMemory => fault_code(StreamFault::NoMemory),
        _ => ARGUMENTS_REFUSED,
    }
}
