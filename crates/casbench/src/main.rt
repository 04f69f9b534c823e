//! casbench: says whether a recorded history of an OpenSearch index keeps the compare-and-set promise. The
//! arguments of the process become a value `Request`, which `run` does; an exit status follows.
//!
//! ```text
//! $ casbench check history.ndjson
//! yes docs=1 calls=5 left_out=0
//! ```
#![tactic(auto)]

mod bulk;
mod check;
mod check_each;
mod exit;
mod explain;
mod files;
mod host;
mod line_again;
mod named_reading;
mod named_text;
mod notes;
mod objects;
mod outcome;
mod output;
mod page_file;
mod progress_line;
mod run;
mod search_reporter;
mod shown_name;
mod stopwatch;
mod terminal;
mod verify;
mod witness_file;

use clap::error::ErrorKind;
use command_line::{Request, read_request};
use events::HashKeys;
use exit::{ARGUMENTS_REFUSED, arguments_code, fault_code, outcome_code};
use host::Host;
use notes::{is_typed, note_compressed, note_terminal};
use outcome::Outcome;
use output::Output;
use progress_line::ProgressLine;
use report::{Status, StreamFault};
use run::run;
use std::process::ExitCode;
use std::random::RandomSource;
use std::rt::{Env, Files};
use std::sync::Arc;
use std::{env, io, thread};
use terminal::{STANDARD_ERROR, is_terminal};

// Reports the fault on standard error and returns its exit status, also if standard error fails.
fn report_fault(rt: &impl Eprint, fault: StreamFault) -> u8 {
    let _ = eprintln!(rt; "casbench: {fault}");
    fault_code(fault)
}

// Reports why the arguments can't be read: one is not UTF-8, or memory was refused.
fn report_no_arguments(rt: &impl Eprint, error: &io::Error) -> u8 {
    if error.kind() == io::ErrorKind::OutOfMemory {
        return report_fault(rt, StreamFault::NoMemory);
    }
    let _ = eprintln!(rt; "casbench: an argument is not UTF-8");
    ARGUMENTS_REFUSED
}

// Writes help or the version to standard output, or to standard error why the arguments are refused.
fn report_arguments<R: Print + Eprint>(rt: &R, error: &clap::Error) -> u8 {
    if error.kind() == ErrorKind::OutOfMemory {
        return report_fault(rt, StreamFault::NoMemory);
    }
    if error.print(rt).is_err() && !error.use_stderr() {
        return report_fault(rt, StreamFault::Write);
    }
    if error.kind() == ErrorKind::InvalidSubcommand {
        let _ = eprintln!(rt; "To check a history text: casbench check FILE");
    }
    arguments_code(error.kind())
}

// Returns the arguments of the process, of which the first is the program's name.
fn process_arguments<R: Env + AllocGlobal>(rt: &R) -> io::Result<Vec<String>> {
    let arguments = env::args(rt)?.collect(rt.alloc())?;
    Ok(arguments)
}

// Returns keys that a text can't know, drawn by the system; the fixed ones if the system gives none.
fn drawn_keys(rt: &impl RandomSource) -> HashKeys {
    let mut first = [0; 8];
    let mut second = [0; 8];
    if rt.fill_bytes(&mut first).is_err() || rt.fill_bytes(&mut second).is_err() {
        return HashKeys::fixed();
    }
    HashKeys::new(u64::from_le_bytes(first), u64::from_le_bytes(second))
}

// Whether a check is asked for, explained or not, and standard error is a terminal, where it says what it is doing.
fn is_watched(rt: &impl Files, request: &Request<'_>) -> bool {
    match request {
        Request::Check { .. } | Request::CheckEach { .. } | Request::Explain { .. } => {
            is_terminal(rt, STANDARD_ERROR)
        }
        Request::Witness { .. }
        | Request::Verify { .. }
        | Request::Bulk { .. }
        | Request::Run(..)
        | Request::Search(..) => false,
    }
}

fn main(rt: HostRuntime) -> ExitCode {
    let alloc = rt.alloc();
    let arguments = match process_arguments(&rt) {
        Ok(arguments) => arguments,
        Err(error) => return ExitCode::from(report_no_arguments(&rt, &error)),
    };
    let request = match read_request(alloc, arguments.as_slice()) {
        Ok(request) => request,
        Err(error) => return ExitCode::from(report_arguments(&rt, &error)),
    };
    let Ok(line) = Arc::new(alloc, ProgressLine::new()) else {
        return ExitCode::from(report_fault(&rt, StreamFault::NoMemory));
    };
    if is_typed(&rt, &request) {
        note_terminal(&rt);
    } else if is_watched(&rt, &request) {
        if let Ok(shared) = Arc::try_clone(&line) {
            let _ = thread::spawn(&rt, move || shared.show_until_ended(&rt));
        }
    }
    let host = Host {
        rt: &rt,
        threads: &rt,
        alloc,
        keys: drawn_keys(&rt),
    };
    let mut output = Output::new(rt.stdout());
    let done = run(&host, rt.stdin(), &mut output, &request, &line);
    line.end(&rt, &rt);
    match done {
        Ok(outcome) => {
            if outcome == Outcome::Answered(Status::Refused) {
                note_compressed(&rt, &request);
            }
            ExitCode::from(outcome_code(outcome))
        }
        // Whoever closed the pipe wants no more, and needs no message.
        Err(StreamFault::Write) if output.is_closed() => {
            ExitCode::from(fault_code(StreamFault::Write))
        }
        Err(fault) => ExitCode::from(report_fault(&rt, fault)),
    }
}
