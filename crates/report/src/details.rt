//! What a check finds in a text, piece by piece: what its line reports, and what is known beside.

ghost use Rattle.std.specs.Prelude.{◌≡◌, ◌≢◌, ◌≤◌, IfErr, IfOk, IfSome, None as Nothing, ℕ, List};
ghost use Rattle.evidence.specs.declared.ruling_out.RulingOut.{RulingOut as Ruling};
ghost use Rattle.events.specs.Refusal.{most_events};
ghost use Rattle.history.specs.ByRules.{room_taken};
ghost use Rattle.history.specs.Laws.{AreLost};
ghost use Rattle.history.specs.declared.text_read.TextRead.{TextRead as TextOf};
ghost use Rattle.readings.specs.Reading.{rules_of};
ghost use Rattle.result_lines.specs.Objects.{line_of};
ghost use Rattle.stream_io.specs.Faults.{IsCheckFault, IsReadingFault};
ghost use Rattle.stream_io.specs.Taken.{TakesHistory};
ghost use Rattle.report.specs.Calls.{CountsCalls};
ghost use Rattle.report.specs.Details.{IsProvedOf, calls_reported, status_of};
ghost use Rattle.report.specs.Findings.{IsFoundOf};
ghost use Rattle.report.specs.aids.Reports.{HasStatus, IsOnDocumentOf, IsReportOn};
ghost use Rattle.report.specs.Verdict.{AnswersInput};
ghost use Rattle.report.specs.Workers.{AreWorkers, HasDocument, NamesOwnDocument};

use crate::check_options::CheckOptions;
use crate::finding::find;
use crate::progress::{CheckProgress, CheckStage};
use crate::reported::Answer;
use crate::text_finding::TextFinding;
use crate::text_input::{Kept, NumberedText, read_numbered};
use api_lines::TextFault;
use compose::Offence;
use events::{Event, HashKeys, History};
use history::laws::texts_are_read_by_rules;
use readings::Reading;
use result_lines::{BrokenReply, Reported};
use std::alloc::Global;
use std::io::Read;
use std::sync::Wait;
use std::thread::Threads;
use story::{EventLines, time_text};
use stream_io::{Status, StreamFault};
use version_pair::NoMemory;

/// What an answer reports, and what is known beside.
#[derive(Drop)]
pub struct Details {
    /// What its line reports.
    pub reported: Reported,
    /// Whether it is proved that an order explains the history, or that none does, if one of these is answered.
    pub proved: Option<bool>,
    /// Where the reply is at which the search for an order first fails, if it fails.
    pub broken_reply: Option<BrokenReply>,
}

impl Details {
    /// Returns those of a text that is refused.
    pub fn refused(fault: TextFault) -> Details
        ensures reported { result.reported ≡ Reported.Refused fault }
        ensures proved { result.proved ≡ Nothing }
    {
        Details {
            reported: Reported::Refused(fault),
            proved: None,
            broken_reply: None,
        }
    }
}

/// Returns the status of an answer that reports this.
pub fn status_of(reported: &Reported) -> Status
    // It is that of the definition.
    ensures { result ≡ status_of reported.now }
{
    match reported {
        Reported::Yes(_) | Reported::Verified(_) => Status::Yes,
        Reported::No(_) | Reported::Broken(_) | Reported::BrokenGet(_) => Status::No,
        Reported::Refuted(..) => Status::Refuted,
        Reported::Refused(_) | Reported::RefusedHistory(_) | Reported::RefusedWitness(_) => {
            Status::Refused
        }
    }
}

/// Returns the number of calls, if a check reports yes.
pub fn calls_reported(reported: &Reported) -> Option<usize>
    // It is that of the definition.
    ensures { result ≡ calls_reported reported.now }
{
    match reported {
        Reported::Yes(counts) => Some(counts.calls),
        _ => None,
    }
}

// Returns where the reply of the offence is.
fn broken_reply_of(
    alloc: Global,
    history: &History,
    offence: Offence,
    lines: &EventLines,
) -> Result<Option<BrokenReply>, NoMemory>
    ensures { IfOk result (λ found. IfSome found (IsOnDocumentOf history.now offence.call)) }
{
    let Some(place) = history.call(offence.call) else {
        return Ok(None);
    };
    let Event::Call { id, shard, .. } = history.event(place) else {
        return Ok(None);
    };
    let reply = lines.line(offence.event);
    let time = match reply.time {
        Some(time) => Some(time_text(alloc, time)?),
        None => None,
    };
    Ok(Some(BrokenReply {
        document: id.copy()?,
        shard: *shard,
        call_line: lines.number(place),
        reply_line: reply.number,
        time,
    }))
}

// Returns the offence that is reported, if one is.
fn offence_of(reported: &Reported) -> Option<Offence> {
    match reported {
        Reported::No(offence) | Reported::Refuted(_, offence) => Some(*offence),
        _ => None,
    }
}

/// Returns what is reported of a text of which this was found, and what is known beside. Where the broken reply is, it
/// has only if lines are given.
pub fn details_of(
    alloc: Global,
    found: &TextFinding,
    lines: Option<&EventLines>,
    reading: Reading,
) -> Result<Details, NoMemory>
    // The line that reports it says of the text what it is promised to, the number of calls is the text's, and what is
    // said to be proved is.
    ensures report { (ruling : Ruling) (read : TextOf) → IsFoundOf ruling reading read found.now
        → IfOk result (λ made. IsReportOn ruling reading read made.reported made.proved) }
    // It is yes just if an order explains what was judged, and each get is explained.
    ensures status { IfOk result (λ made. HasStatus found.now.finding found.now.get (status_of made.reported)) }
{
    let Answer { reported, proved } = found.answer(reading);
    let broken_reply = match (offence_of(&reported), lines) {
        (Some(offence), Some(lines)) => { broken_reply_of(alloc, found.history(), offence, lines)? }
        _ => None,
    };
    Ok(Details {
        reported,
        proved: Some(proved),
        broken_reply,
    })
}

// Returns what a check finds in a text that was read so, piece by piece.
fn text_details<T: Threads + Wait + Sync>(
    rt: &T,
    alloc: Global,
    text: NumberedText,
    options: CheckOptions,
    progress: &CheckProgress,
    kept: Kept,
) -> Result<Details, StreamFault>
    requires workers { AreWorkers options.workers }
    requires void { AreLost text.read.history text.read.voids }
    requires room { room_taken options.reading.writes text.read.history ≤ most_events }
    ensures report { IfOk result (λ made. IsReportOn options.ruling_out options.reading text.read made.reported made.proved) }
    ensures reported { IfErr result IsCheckFault }
    ensures alone { options.workers ≡ 1 → IfErr result IsReadingFault }
    ensures named { IfErr result (HasDocument text.read.history) }
{
    let NumberedText { read, lines } = text;
    let found = find(rt, alloc, read, options, progress)?;
    let lines = if kept == Kept::Nothing {
        None
    } else {
        Some(&lines)
    };
    Ok(details_of(alloc, &found, lines, options.reading)?)
}

/// Returns what a check finds in the text of a reader, piece by piece: what the line of `check_stream` reports
/// of it, and what is known beside. `kept` says what is kept of the lines. It writes nothing.
///
/// Errors, whichever comes first: `Read`, `NoMemory`, `Worker`. It waits as `check_stream` does.
pub fn check_details<T: Threads + Wait + Sync, R: Read>(
    rt: &T,
    alloc: Global,
    keys: HashKeys,
    reader: &mut R,
    options: CheckOptions,
    progress: &CheckProgress,
    kept: Kept,
) -> Result<Details, StreamFault>
    // There are 1 to 16 workers.
    requires workers { AreWorkers options.workers }
    // The line that reports it answers the bytes of the reader, as that of `check_stream` does.
    ensures answer { IfOk result (λ found. AnswersInput options.ruling_out options.reading (R.remaining reader.old)
        (status_of found.reported) (line_of found.reported)) }
    // The number of calls is that of the history whose text the bytes are, if the answer is yes.
    ensures calls { IfOk result (λ found. IfSome (R.remaining reader.old)
        (λ input. CountsCalls input (status_of found.reported) (calls_reported found.reported))) }
    // Of a history for which no order was found it is said to be proved that it isn't explained, exactly if evidence was
    // found or what is judged is complete; and then it isn't.
    ensures proved { IfOk result (λ found. IfSome (R.remaining reader.old)
        (λ input. IsProvedOf options.reading input found.reported found.proved)) }
    // The only errors are `Read`, `NoMemory` and `Worker`.
    ensures reported { IfErr result IsCheckFault }
    // With one worker, the caller's thread, the error is never `Worker`.
    ensures alone { options.workers ≡ 1 → IfErr result IsReadingFault }
    // A document that a `Worker` names is one of the history whose text the reader had.
    ensures named { IfErr result (NamesOwnDocument (R.remaining reader.old)) }
    // No bytes after the first refused line are taken but those that the last read returned, as by
    // `check_stream`.
    ensures taken { TakesHistory (rules_of options.reading) (R.remaining reader.old) (R.remaining reader.new) }
{
    // That what is read is a text of its history is known from here on.
    texts_are_read_by_rules();
    progress.reach(CheckStage::Reading);
    match read_numbered(alloc, keys, options.reading.rules(), reader, kept)? {
        Ok(text) => {
            progress.reach(CheckStage::Searching);
            text_details(rt, alloc, text, options, progress, kept)
        }
        Err(refused) => Ok(Details::refused(refused.fault)),
    }
}
