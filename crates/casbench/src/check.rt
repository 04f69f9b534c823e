ghost use Rattle.std.specs.Prelude.{◌≡◌, ◌≢◌, true, IfErr, IfOk, IsErrOf, option_map};
ghost use Rattle.std.specs.Io.KnownBytes.{Keeps};
ghost use Rattle.casbench.specs.Input.{names_input};
ghost use Rattle.casbench.specs.Requests.{AnswersCheck};
ghost use Rattle.report.specs.Verdict.{IsCutOff};
ghost use Rattle.report.specs.Workers.{AreWorkers, NamesOwnDocument};
ghost use Rattle.stream_io.specs.Faults.{IsStreamFault, IsWorkedFault};

use crate::files::open_or;
use crate::host::{CheckTask, Host};
use crate::notes::note_calls;
use crate::outcome::{Outcome, outcome_of};
use crate::progress_line::ProgressLine;
use report::{
    AnswerText, Kept, StreamFault, calls_reported, check_details, status_of, write_answer,
};
use std::io::{Read, Write};
use std::rt::Files;
use std::sync::Wait;
use std::thread::Threads;

/// Checks the history of the file, or the input, and writes its line, as `report::check_stream` does. If the answer is
/// yes, and the history has no calls or fewer than are asked for, standard error says so. It waits as
/// `report::check_stream` does.
///
/// Errors: `Read` if the file can't be opened; then those of `report::check_stream`.
pub fn check_file<F: Files + Eprint, T: Threads + Wait + Sync, I: Read + Drop, W: Write>(
    host: &Host<'_, F, T>,
    file: Option<&str>,
    input: I,
    writer: &mut W,
    task: CheckTask,
    line: &ProgressLine,
) -> Result<Outcome, StreamFault>
    // There are 1 to 16 workers.
    requires workers { AreWorkers task.options.workers }
    // If no file is named, or `-`, the writer holds the line that answers the input, after what it held; a yes is about
    // fewer calls than are asked for exactly if the outcome is `TooFew`.
    ensures answered { names_input (option_map (λ t. t.now) file.entry) ≡ true
        → IfOk result (AnswersCheck task.options.ruling_out task.options.reading task.at_least (I.remaining input)
        (W.contents writer.old) (W.contents writer.new)) }
    // After `Write` it then holds a prefix of such a line.
    ensures cut_off { IsErrOf result StreamFault.Write → names_input (option_map (λ t. t.now) file.entry) ≡ true
        → IsCutOff task.options.ruling_out task.options.reading (I.remaining input) (W.contents writer.old)
        (W.contents writer.new) }
    // After any other error it holds what it held.
    ensures kept { IfErr result (λ fault. fault ≢ StreamFault.Write
        → Keeps (W.contents writer.old) (W.contents writer.new)) }
    // The only errors are `Read`, `Write`, `NoMemory` and `Worker`.
    ensures reported { IfErr result IsWorkedFault }
    // With one worker, the caller's thread, the error is never `Worker`.
    ensures alone { task.options.workers ≡ 1 → IfErr result IsStreamFault }
    // A document that a `Worker` names is one of the history whose text the input had.
    ensures named { names_input (option_map (λ t. t.now) file.entry) ≡ true → IfErr result (NamesOwnDocument (I.remaining input)) }
{
    let mut history = open_or(host.rt, file, input)?;
    let details = check_details(
        host.threads,
        host.alloc,
        host.keys,
        &mut history,
        task.options,
        line.progress(),
        Kept::Nothing,
    )?;
    let status = status_of(&details.reported);
    let calls = calls_reported(&details.reported);
    let answer = AnswerText::of(status, details.reported.line(host.alloc)?);
    line.end(host.rt, host.threads);
    let status = write_answer(writer, &answer)?;
    note_calls(host.rt, host.alloc, file, calls, task.at_least);
    Ok(outcome_of(status, calls, task.at_least))
}
