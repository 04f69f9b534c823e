ghost use Rattle.std.specs.Prelude.{◌≡◌, ◌≢◌, IfErr, IfOk, IsErrOf};
ghost use Rattle.std.specs.Io.KnownBytes.{Keeps};
ghost use Rattle.casbench.specs.Faults.{MayFail};
ghost use Rattle.casbench.specs.Requests.{Answers, IsCutShort};
ghost use Rattle.report.specs.Workers.{AreWorkers};

use crate::bulk::bulk_files;
use crate::check::check_file;
use crate::check_each::check_files;
use crate::explain::explain_file;
use crate::host::{CheckTask, ExplainTask, Host};
use crate::outcome::Outcome;
use crate::progress_line::ProgressLine;
use crate::search_reporter::SearchReporter;
use crate::verify::verify_files;
use crate::witness_file::witness_file;
use command_line::Request;
use disturbances::DisturbedGroup;
use readings::Reading;
use recorded_runs::run_played_stream;
use report::{CheckOptions, RulingOut, StreamFault};
use seed_search::search_stream;
use std::io::{Read, Write};
use std::rt::Files;
use std::sync::Wait;
use std::thread::Threads;
use std::time::Clock;
use workload::Target;

// Returns the options of a check. The number of workers is the nearest one from 1 to 16 if it is another,
// which no arguments give.
fn options_of(workers: u64, reading: Reading, ruling_out: RulingOut) -> CheckOptions
    ensures workers { AreWorkers result.workers }
    ensures reading { result.reading ≡ reading }
    ensures ruling_out { result.ruling_out ≡ ruling_out }
{
    CheckOptions {
        workers: workers.clamp(1, 16) as usize,
        reading,
        ruling_out,
    }
}

/// Does what the arguments ask for: opens the files in the order in which they were named, `-` being the input, then
/// reads, and writes the answer. A check notes what it is doing, and clears the progress line before it writes the
/// answer. No clause says what a file has, and so what is written of one, as of one text at least of a verify and a
/// bulk: that what a file has is passed on is tested, not proved.
///
/// Errors, in this order: `Read` if a file can't be opened, which is then named on standard error: nothing
/// was read then; for an `explain` with a page `Write` if the page is the history's own file; then those of
/// what does it: `check_stream`, `witness_stream`, `verify_stream`, `bulk_stream`, `explain_stream`,
/// `run_played_stream`, or `search_stream` with `--until`. It waits as these do.
pub fn run<R, T: Threads + Wait + Sync, I: Read + Send + Drop, W: Write>(
    host: &Host<'_, R, T>,
    input: I,
    writer: &mut W,
    request: &Request<'_>,
    line: &ProgressLine,
) -> Result<Outcome, StreamFault>
where
    R: Files + Eprint + Clock + Sync,
    R::File: Send,
    // The writer holds, after what it held, what answers the request as far as it is about the input (`Answers`); the
    // request came to this outcome.
    ensures answered { IfOk result (Answers ⟦<DisturbedGroup as Target>⟧.issued ⟦<DisturbedGroup as Target>⟧.gave
        (I.remaining input) (W.contents writer.old) (W.contents writer.new) request.now) }
    // After `Write` it holds a prefix of that.
    ensures cut_off { IsErrOf result StreamFault.Write → IsCutShort ⟦<DisturbedGroup as Target>⟧.issued ⟦<DisturbedGroup as Target>⟧.gave
        (I.remaining input) (W.contents writer.old) (W.contents writer.new) request.now }
    // After any error but `Write`, and so if a file can't be opened, the writer holds what it held.
    ensures kept { IfErr result (λ fault. fault ≢ StreamFault.Write
        → Keeps (W.contents writer.old) (W.contents writer.new)) }
    // Each command returns the errors of its own stream alone.
    ensures reported { IfErr result (MayFail request.now) }
{
    match *request {
        Request::Check {
            file,
            reading,
            workers,
            ruling_out,
            at_least,
        } => {
            let task = CheckTask {
                options: options_of(workers, reading, ruling_out),
                at_least,
            };
            check_file(host, file, input, writer, task, line)
        }
        Request::CheckEach {
            ref files,
            form,
            reading,
            workers,
            ruling_out,
            at_least,
        } => {
            let task = CheckTask {
                options: options_of(workers, reading, ruling_out),
                at_least,
            };
            check_files(host, files, input, writer, task, form, line)
        }
        Request::Witness {
            file,
            form,
            reading,
            ruling_out,
        } => { witness_file(host, file, input, writer, form, reading, ruling_out) }
        Request::Verify {
            history,
            witness,
            form,
            reading,
        } => { verify_files(host, history, witness, input, writer, form, reading) }
        Request::Bulk { body, reply, first } => {
            bulk_files(host.rt, host.alloc, body, reply, first, input, writer)
        }
        Request::Run(setting, manner) => {
            let status = run_played_stream(host.threads, host.alloc, &setting, &manner, writer)?;
            Ok(Outcome::Answered(status))
        }
        Request::Search(seeds, setting, disturbance) => {
            let watch = SearchReporter::new(host.rt, setting, disturbance);
            let status = search_stream(
                host.threads,
                host.alloc,
                seeds,
                &setting,
                disturbance,
                &watch,
                writer,
            )?;
            Ok(Outcome::Answered(status))
        }
        Request::Explain {
            file,
            form,
            reading,
            workers,
            ruling_out,
            page,
        } => {
            let task = ExplainTask {
                options: options_of(workers, reading, ruling_out),
                form,
                page,
            };
            explain_file(host, file, input, writer, task, line)
        }
    }
}
