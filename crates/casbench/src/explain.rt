//! Explanations, and the pages that they are written to.

ghost use Rattle.std.specs.Prelude.{◌≡◌, ◌≢◌, ◌⊎◌, ℕ, true, IfErr, IfOk, IsErrOf, option_map, take};
ghost use Rattle.std.specs.Io.KnownBytes.{Appends, Keeps};
ghost use Rattle.casbench.specs.Input.{name_of, names_input};
ghost use Rattle.casbench.specs.Objects.{ExplainsInForm};
ghost use Rattle.casbench.specs.Outcomes.{IsAnswerWith};
ghost use Rattle.report.specs.Workers.{AreWorkers};
ghost use Rattle.stream_io.specs.Faults.{IsCheckFault, IsStreamFault, IsWorkedFault};
ghost use Rattle.stream_io.specs.Written.{HasAnswer, HasPrefix};

use crate::files::{INPUT, open_or};
use crate::host::{ExplainTask, Host};
use crate::objects::explained_object;
use crate::outcome::Outcome;
use crate::page_file::{ReadyPage, refuse_history};
use crate::progress_line::ProgressLine;
use command_line::{Form, PageRequest};
use report::{
    AnswerText, CheckOptions, CheckProgress, PageOptions, Status, StreamFault, View,
    explained_answer, write_answer,
};
use std::alloc::Global;
use std::io::{Read, Write};
use std::rt::Files;
use std::sync::Wait;
use std::thread::Threads;
use std::time::Clock;

// Returns what the page shows beside the explanation.
fn page_options<'a>(name: &'a str, page: PageRequest<'a>) -> PageOptions<'a> {
    PageOptions {
        file: if name == INPUT { None } else { Some(name) },
        view: page.drawn.map(|drawn| View {
            document: drawn.document,
            first: drawn.lines.first,
            last: drawn.lines.last,
        }),
    }
}

// Returns what is written of a history that is explained, in this form; and the page, if one is asked for.
fn explained<F: Clock, T: Threads + Wait + Sync, R: Read>(
    host: &Host<'_, F, T>,
    name: &str,
    history: &mut R,
    options: CheckOptions,
    progress: &CheckProgress,
    shown: Option<PageOptions<'_>>,
    form: Form,
) -> Result<(AnswerText, Option<Vec<u8>>), StreamFault>
    requires workers { AreWorkers options.workers }
    ensures explained { IfOk result (λ made. ExplainsInForm form name.now
        options.ruling_out options.reading (R.remaining history.old) made.0.status made.0.text.items) }
    ensures reported { IfErr result IsCheckFault }
{
    match form {
        Form::Lines => explained_answer(
            host.threads,
            host.alloc,
            host.keys,
            history,
            options,
            progress,
            shown,
        ),
        Form::Objects => explained_object(host, name, history, options, progress, shown),
    }
}

// Writes the answer, and the page to the file at the path, which takes its place when the answer is written.
fn write_with_page<F: Files + Eprint, W: Write>(
    rt: &F,
    alloc: Global,
    writer: &mut W,
    answer: &AnswerText,
    path: &str,
    page: &[u8],
) -> Result<Status, StreamFault>
    ensures written { IfOk result (λ status. (status ≡ answer.now.status)
        × Appends (W.contents writer.old) (W.contents writer.new) answer.now.text.items) }
    ensures cut_off { IsErrOf result StreamFault.Write
        → ((n : ℕ) × Appends (W.contents writer.old) (W.contents writer.new) (take n answer.now.text.items))
        ⊎ Keeps (W.contents writer.old) (W.contents writer.new) }
    ensures kept { IfErr result (λ fault. fault ≢ StreamFault.Write
        → Keeps (W.contents writer.old) (W.contents writer.new)) }
    ensures reported { IfErr result IsStreamFault }
{
    let ready = ReadyPage::new(rt, alloc, path, page)?;
    match write_answer(writer, answer) {
        Ok(status) => {
            ready.keep(rt, page)?;
            Ok(status)
        }
        Err(fault) => {
            ready.discard(rt);
            Err(fault)
        }
    }
}

// Checks a history and writes what was found, with its explanation, in this form; on a page too, if one is asked
// for, which takes its place when the answer is written. `name` is that of the history's file, or `-`.
//
// Errors, whichever comes first: `Read`, `NoMemory`, `Worker`; for a page `Write` or `NoMemory` if a new one can't be
// written; `Write` of the writer; and `Write` if the page can't take its place.
fn explain<F: Files + Eprint + Clock, T: Threads + Wait + Sync, R: Read, W: Write>(
    host: &Host<'_, F, T>,
    name: &str,
    history: &mut R,
    writer: &mut W,
    task: ExplainTask<'_>,
    line: &ProgressLine,
) -> Result<Status, StreamFault>
    requires workers { AreWorkers task.options.workers }
    ensures explained { IfOk result (λ status. HasAnswer (ExplainsInForm task.entry.form name.now
        task.entry.options.ruling_out task.entry.options.reading (R.remaining history.old) status) (W.contents writer.old) (W.contents writer.new)) }
    ensures cut_off { IsErrOf result StreamFault.Write
        → HasPrefix (ExplainsInForm task.entry.form name.now task.entry.options.ruling_out task.entry.options.reading
        (R.remaining history.old)) (W.contents writer.old) (W.contents writer.new)
        ⊎ Keeps (W.contents writer.old) (W.contents writer.new) }
    ensures kept { IfErr result (λ fault. fault ≢ StreamFault.Write
        → Keeps (W.contents writer.old) (W.contents writer.new)) }
    ensures reported { IfErr result IsWorkedFault }
{
    let shown = match task.page {
        Some(page) => Some(page_options(name, page)),
        None => None,
    };
    let (answer, made) = explained(
        host,
        name,
        history,
        task.options,
        line.progress(),
        shown,
        task.form,
    )?;
    line.end(host.rt, host.threads);
    match (task.page, &made) {
        (Some(page), Some(made)) => {
            write_with_page(host.rt, host.alloc, writer, &answer, page.path, made)
        }
        _ => write_answer(writer, &answer),
    }
}

/// Checks the history of the file, or the input, and writes what was found, with its explanation, in this form; on a
/// page too, if one is asked for, which takes its place when the answer is written.
///
/// Errors, whichever comes first: `Read` if the file can't be opened; `Write` if the page is the history's own file;
/// those of `report::explain_stream`; for a page `Write` or `NoMemory` if a new one can't be written; `Write` of the
/// writer; and `Write` if the page can't take its place. It waits as `report::check_stream` does.
pub fn explain_file<F: Files + Eprint + Clock, T: Threads + Wait + Sync, I: Read + Drop, W: Write>(
    host: &Host<'_, F, T>,
    file: Option<&str>,
    input: I,
    writer: &mut W,
    task: ExplainTask<'_>,
    line: &ProgressLine,
) -> Result<Outcome, StreamFault>
    // There are 1 to 16 workers.
    requires workers { AreWorkers task.options.workers }
    // If no file is named, or `-`, the writer holds what is written of the input, after what it held.
    ensures explained { names_input (option_map (λ t. t.now) file.entry) ≡ true
        → IfOk result (IsAnswerWith (λ status. HasAnswer (ExplainsInForm task.entry.form (name_of (option_map (λ t. t.now) file.entry))
        task.entry.options.ruling_out task.entry.options.reading (I.remaining input) status) (W.contents writer.old) (W.contents writer.new))) }
    // After `Write` it then holds a prefix of that, or no more than it held, since a page can fail before.
    ensures cut_off { IsErrOf result StreamFault.Write → names_input (option_map (λ t. t.now) file.entry) ≡ true
        → HasPrefix (ExplainsInForm task.entry.form (name_of (option_map (λ t. t.now) file.entry)) task.entry.options.ruling_out task.entry.options.reading
        (I.remaining input)) (W.contents writer.old) (W.contents writer.new)
        ⊎ Keeps (W.contents writer.old) (W.contents writer.new) }
    // After any other error it holds what it held.
    ensures kept { IfErr result (λ fault. fault ≢ StreamFault.Write
        → Keeps (W.contents writer.old) (W.contents writer.new)) }
    // The only errors are `Read`, `Write`, `NoMemory` and `Worker`.
    ensures reported { IfErr result IsWorkedFault }
{
    let mut history = open_or(host.rt, file, input)?;
    refuse_history(host.rt, task.page.map(|page| page.path), &history)?;
    let name = file.unwrap_or(INPUT);
    let status = explain(host, name, &mut history, writer, task, line)?;
    Ok(Outcome::Answered(status))
}
