ghost use Rattle.std.specs.Prelude.{Some as Just, None as Nothing, Ok as Fine, Err as Failed, ◌≡◌, ◌≢◌, ◌≤◌, ◌++◌, List, IfErr, IfOk, IsErrOf, codes, length, map};
ghost use Rattle.std.specs.Io.KnownBytes.{Keeps};
ghost use Rattle.casbench.specs.Each.{AnswersEach, AreOfFiles, IsCutOffEach, Named, named_of, or_input};
ghost use Rattle.casbench.specs.Names.{shown_name};
ghost use Rattle.casbench.specs.aids.Checking.{AreChecked, IsChecked, IsWrittenOf};
ghost use Rattle.report.specs.Workers.{AreWorkers};
ghost use Rattle.stream_io.specs.Faults.{IsCheckFault, IsReadingFault, IsStreamFault, IsWorkedFault};
ghost use Rattle.stream_io.specs.Written.{HasAnswer};

use crate::exit::worse;
use crate::files::open_each_or;
use crate::host::{CheckTask, Host};
use crate::line_again::add_time;
use crate::named_text::{NamedText, Written};
use crate::notes::{note_calls, note_if_compressed};
use crate::objects::details_object;
use crate::outcome::{Outcome, outcome_of};
use crate::progress_line::ProgressLine;
use crate::shown_name::add_shown;
use crate::stopwatch::Stopwatch;
use command_line::Form;
use report::{
    CheckOptions, CheckProgress, Kept, Status, StreamFault, calls_reported, check_details,
    status_of,
};
use std::alloc::{AllocError, Global};
use std::io::{Read, Seek, Write};
use std::rt::Files;
use std::sync::Wait;
use std::thread::{Threads, for_each_mut};
use std::time::Clock;
use stream_io::write_text;

// Returns the line behind the name of its text.
fn named_line(alloc: Global, name: &str, line: &[u8]) -> Result<Vec<u8>, AllocError>
    ensures { IfOk result (λ written. written.items ≡ shown_name name.now ++ (codes ": " ++ line.now)) }
{
    let mut written = Vec::new(alloc);
    add_shown(&mut written, name)?;
    written.extend_from_slice(b": ")?;
    written.extend_from_slice(line)?;
    Ok(written)
}

// Checks a text, and returns its status, the number of calls if that is known, and its line behind its name.
fn check_in_line<F, T: Threads + Wait + Sync, S: Read>(
    host: &Host<'_, F, T>,
    name: &str,
    source: &mut S,
    options: CheckOptions,
    progress: &CheckProgress,
) -> Result<Written, StreamFault>
    requires workers { AreWorkers options.workers }
    ensures answered { IfOk result (IsWrittenOf options.ruling_out options.reading Form.Lines name.now (S.remaining source.old)) }
    ensures reported { IfErr result IsCheckFault }
    ensures alone { options.workers ≡ 1 → IfErr result IsReadingFault }
{
    let details = check_details(
        host.threads,
        host.alloc,
        host.keys,
        source,
        options,
        progress,
        Kept::Nothing,
    )?;
    let line = details.reported.line(host.alloc)?;
    Ok(Written {
        status: status_of(&details.reported),
        calls: calls_reported(&details.reported),
        text: named_line(host.alloc, name, line.as_bytes())?,
    })
}

// Checks a text, and returns its status, the number of calls if that is known, and its object.
fn check_in_object<F: Clock, T: Threads + Wait + Sync, S: Read + Seek>(
    host: &Host<'_, F, T>,
    name: &str,
    source: &mut S,
    kept: Kept,
    options: CheckOptions,
    progress: &CheckProgress,
) -> Result<Written, StreamFault>
    requires workers { AreWorkers options.workers }
    ensures answered { IfOk result (IsWrittenOf options.ruling_out options.reading Form.Objects name.now (S.remaining source.old)) }
    ensures reported { IfErr result IsCheckFault }
    ensures alone { options.workers ≡ 1 → IfErr result IsReadingFault }
{
    let stopwatch = Stopwatch::start(host.rt);
    let mut details = check_details(
        host.threads,
        host.alloc,
        host.keys,
        source,
        options,
        progress,
        kept,
    )?;
    add_time(host.alloc, source, kept, &mut details.broken_reply)?;
    Ok(Written {
        status: status_of(&details.reported),
        calls: calls_reported(&details.reported),
        text: details_object(
            host.alloc,
            name,
            details,
            options.reading,
            None,
            stopwatch.milliseconds(host.rt),
        )?,
    })
}

// Checks a text, and returns its status, the number of calls if that is known, and what is written of it.
fn check_in_form<F: Clock, T: Threads + Wait + Sync, S: Read + Seek>(
    host: &Host<'_, F, T>,
    name: &str,
    source: &mut S,
    kept: Kept,
    options: CheckOptions,
    form: Form,
    progress: &CheckProgress,
) -> Result<Written, StreamFault>
    requires workers { AreWorkers options.workers }
    ensures answered { IfOk result (IsWrittenOf options.ruling_out options.reading form name.now (S.remaining source.old)) }
    ensures reported { IfErr result IsCheckFault }
    ensures alone { options.workers ≡ 1 → IfErr result IsReadingFault }
{
    match form {
        Form::Lines => check_in_line(host, name, source, options, progress),
        Form::Objects => check_in_object(host, name, source, kept, options, progress),
    }
}

// Returns the options with which the text at this place is checked beside others, so many in all: the workers are shared
// out, and the first texts have those that are left over.
fn shared_out(options: CheckOptions, place: usize, texts: usize) -> CheckOptions
    requires some { 1 ≤ texts }
    requires workers { AreWorkers options.workers }
    ensures workers { AreWorkers result.workers }
    ensures alone { options.workers ≡ 1 → result.workers ≡ 1 }
    ensures reading { result.reading ≡ options.reading }
    ensures ruling_out { result.ruling_out ≡ options.ruling_out }
{
    let over = usize::from(place < options.workers % texts);
    CheckOptions {
        workers: (options.workers / texts)
            .saturating_add(over)
            .clamp(1, options.workers),
        ..options
    }
}

// Checks the text at this place beside others, so many in all. It then holds what is written of it.
fn check_named<F: Clock, T: Threads + Wait + Sync, S: Read + Seek>(
    host: &Host<'_, F, T>,
    text: &mut NamedText<'_, S>,
    options: CheckOptions,
    form: Form,
    progress: &CheckProgress,
    place: usize,
    beside: usize,
)
    requires some { 1 ≤ beside }
    requires workers { AreWorkers options.workers }
    ensures { IsChecked S.remaining options.ruling_out options.reading form options.workers text.old text.new }
{
    let own = shared_out(options, place, beside);
    let name = text.name;
    let written = check_in_form(host, name, &mut text.source, text.kept, own, form, progress);
    text.written = Some(written);
}

// Checks each of the texts, as many beside each other as there are workers.
fn check_all<F: Clock + Sync, T: Threads + Wait + Sync, S: Read + Seek + Send>(
    host: &Host<'_, F, T>,
    texts: &mut [NamedText<'_, S>],
    options: CheckOptions,
    form: Form,
    progress: &CheckProgress,
)
    requires workers { AreWorkers options.workers }
    ensures checked { AreChecked S.remaining options.ruling_out options.reading form options.workers texts.old texts.new }
    ensures all { length texts.new ≡ length texts.old }
{
    let beside = texts.len().clamp(1, options.workers);
    for_each_mut(
        host.threads,
        texts,
        beside,
        &|place, text: &mut NamedText<'_, S>|
            requires { AreWorkers options.workers × (1 ≤ beside) }
        { check_named(host, text, options, form, progress, place, beside) },
    );
}

// Returns what is written of a text that was checked, or why nothing is.
fn written_of<'t, S>(text: &'t NamedText<'_, S>) -> Result<&'t Written, StreamFault>
    requires { text.now.written ≢ Nothing }
    ensures written { IfOk result (λ it. text.now.written ≡ Just (Fine it.now)) }
    ensures fault { IfErr result (λ fault. text.now.written ≡ Just (Failed fault)) }
{
    match &text.written {
        Some(Ok(written)) => Ok(written),
        Some(Err(fault)) => Err(*fault),
        None => unreachable!(),
    }
}

// Checks each of the texts, and returns what they came to, and what is written of them.
fn checked_texts<F: Clock + Sync, T: Threads + Wait + Sync, S: Read + Seek + Send>(
    host: &Host<'_, F, T>,
    texts: &mut [NamedText<'_, S>],
    task: CheckTask,
    form: Form,
    progress: &CheckProgress,
) -> Result<(Outcome, Vec<u8>), StreamFault>
    requires workers { AreWorkers task.options.workers }
    ensures answered { IfOk result (λ made. AnswersEach task.options.ruling_out task.options.reading task.at_least form (map (named_of S.remaining) texts.old)
        made.0 made.1.items) }
    ensures reported { IfErr result IsCheckFault }
    ensures alone { task.options.workers ≡ 1 → IfErr result IsReadingFault }
{
    check_all(host, texts, task.options, form, progress);
    let mut outcome = Outcome::Answered(Status::Yes);
    let mut lines = Vec::new(host.alloc);
    for place in 0..texts.len() {
        let text = &texts[place];
        let written = written_of(text)?;
        let next = outcome_of(written.status, written.calls, task.at_least);
        outcome = worse(outcome, next);
        lines.extend_from_slice(&written.text)?;
    }
    Ok((outcome, lines))
}

// Says of each text that was checked if it has few calls, or may be compressed.
fn note_each<R: Files + Eprint, S>(
    rt: &R,
    alloc: Global,
    texts: &[NamedText<'_, S>],
    at_least: u64,
) {
    for text in texts {
        if let Some(Ok(written)) = &text.written {
            note_calls(rt, alloc, Some(text.name), written.calls, at_least);
            if written.status == Status::Refused {
                note_if_compressed(rt, Some(text.name));
            }
        }
    }
}

// Checks each of the texts, and writes what is written of them.
fn check_each<
    R: Files + Eprint + Clock + Sync,
    T: Threads + Wait + Sync,
    S: Read + Seek + Send + Drop,
    W: Write,
>(
    host: &Host<'_, R, T>,
    texts: Vec<NamedText<'_, S>>,
    writer: &mut W,
    task: CheckTask,
    form: Form,
    line: &ProgressLine,
) -> Result<Outcome, StreamFault>
    requires workers { AreWorkers task.options.workers }
    ensures answered { IfOk result (λ outcome. HasAnswer (AnswersEach task.options.ruling_out task.options.reading task.at_least form (map (named_of S.remaining) texts.entry.items) outcome)
        (W.contents writer.old) (W.contents writer.new)) }
    ensures cut_off { IsErrOf result StreamFault.Write
        → IsCutOffEach task.options.ruling_out task.options.reading task.at_least form (map (named_of S.remaining) texts.entry.items)
        (W.contents writer.old) (W.contents writer.new) }
    ensures kept { IfErr result (λ fault. fault ≢ StreamFault.Write
        → Keeps (W.contents writer.old) (W.contents writer.new)) }
    ensures reported { IfErr result IsWorkedFault }
    ensures alone { task.options.workers ≡ 1 → IfErr result IsStreamFault }
{
    let mut texts = texts;
    let (outcome, lines) = checked_texts(host, &mut texts, task, form, line.progress())?;
    line.end(host.rt, host.threads);
    write_text(writer, &lines)?;
    note_each(host.rt, host.alloc, &texts, task.at_least);
    Ok(outcome)
}

/// Checks the text of each of the files, or the input if there are none, and writes for each its line, as
/// `report::check_stream` does, behind its name and a colon, or its object, in the order of the files. The outcome is
/// the worst one, by `worse_outcome`. As many texts are checked beside each other as there are workers; with more
/// workers than texts each text has several. Nothing is written before all are checked. If the answer to one is yes,
/// and it has no calls or fewer than are asked for, standard error says so. It waits as `report::check_stream` does.
///
/// Errors: `Read` if a file can't be opened, and then nothing is read; `Read`, `NoMemory` and `Worker`, those of the
/// first text that has one; then `Write`.
pub fn check_files<R, T: Threads + Wait + Sync, I: Read + Send + Drop, W: Write>(
    host: &Host<'_, R, T>,
    files: &[&str],
    input: I,
    writer: &mut W,
    task: CheckTask,
    form: Form,
    line: &ProgressLine,
) -> Result<Outcome, StreamFault>
where
    R: Files + Eprint + Clock + Sync,
    R::File: Send,
    // There are 1 to 16 workers.
    requires workers { AreWorkers task.options.workers }
    // The writer holds the lines or objects after what it held, and they answer the bytes of the texts, in their order.
    ensures answered { IfOk result (λ outcome. (texts : List Named)
        × AreOfFiles (or_input (map (λ f. f.now) files.now)) (I.remaining input) texts
        × HasAnswer (AnswersEach task.options.ruling_out task.options.reading task.at_least form texts outcome) (W.contents writer.old) (W.contents writer.new)) }
    // After `Write` the writer holds a prefix of such a text after what it held.
    ensures cut_off { IsErrOf result StreamFault.Write → (texts : List Named)
        × AreOfFiles (or_input (map (λ f. f.now) files.now)) (I.remaining input) texts
        × IsCutOffEach task.options.ruling_out task.options.reading task.at_least form texts (W.contents writer.old) (W.contents writer.new) }
    // After any other error the writer holds what it held.
    ensures kept { IfErr result (λ fault. fault ≢ StreamFault.Write
        → Keeps (W.contents writer.old) (W.contents writer.new)) }
    // The only errors are `Read`, `Write`, `NoMemory` and `Worker`.
    ensures reported { IfErr result IsWorkedFault }
    // With one worker, the caller's thread, the error is never `Worker`.
    ensures alone { task.options.workers ≡ 1 → IfErr result IsStreamFault }
{
    let texts = open_each_or(host.rt, host.alloc, files, input)?;
    check_each(host, texts, writer, task, form, line)
}
