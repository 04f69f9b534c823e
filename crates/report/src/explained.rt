ghost use Rattle.std.specs.Prelude.{◌≡◌, ◌≤◌, IfErr, IfOk, IfSome};
ghost use Rattle.events.specs.Refusal.{most_events};
ghost use Rattle.history.specs.ByRules.{room_taken};
ghost use Rattle.history.specs.Laws.{AreLost};
ghost use Rattle.report.specs.aids.Reports.{IsReportOn};
ghost use Rattle.page.specs.Pages.{IsPage};
ghost use Rattle.result_lines.specs.Objects.{line_of};
ghost use Rattle.stream_io.specs.Faults.{IsCheckFault, IsReadingFault};
ghost use Rattle.stream_io.specs.Taken.{TakesHistory};
ghost use Rattle.report.specs.Details.{IsProvedOf, status_of as reported_status};
ghost use Rattle.report.specs.Explained.{ExplainsInput};
ghost use Rattle.report.specs.Verdict.{AnswersInput};
ghost use Rattle.readings.specs.Reading.{rules_of};
ghost use Rattle.report.specs.Workers.{AreWorkers, HasDocument, NamesOwnDocument};

use crate::check_options::CheckOptions;
use crate::details::{Details, details_of, status_of};
use crate::explain::story_of;
use crate::finding::find;
use crate::progress::{CheckProgress, CheckStage};
use crate::shown_page::{PageOptions, page_shown, view_of};
use crate::text_input::{Kept, NumberedText, read_numbered};
use events::HashKeys;
use history::laws::texts_are_read_by_rules;
use std::alloc::Global;
use std::io::Read;
use std::sync::Wait;
use std::thread::Threads;
use story::{Story, View, plain_text, refused_story};
use stream_io::{AnswerText, StreamFault};

/// What a check finds in a text, piece by piece, and what explains it.
#[derive(Drop)]
pub struct ExplainedDetails {
    /// What it finds.
    pub details: Details,
    /// What explains it, as `explain_stream` writes it after the line.
    pub explanation: String,
    /// The same as a page of HTML, if one is asked for.
    pub page: Option<Vec<u8>>,
}

// Returns what a check finds in a text that was read so, piece by piece, and its explanation.
fn text_explained<T: Threads + Wait + Sync>(
    rt: &T,
    alloc: Global,
    text: NumberedText,
    options: CheckOptions,
    progress: &CheckProgress,
    view: Option<&View<'_>>,
) -> Result<(Details, Story), StreamFault>
    requires workers { AreWorkers options.workers }
    requires void { AreLost text.read.history text.read.voids }
    requires room { room_taken options.reading.writes text.read.history ≤ most_events }
    ensures report { IfOk result (λ made. IsReportOn options.ruling_out options.reading text.read made.0.reported made.0.proved) }
    ensures reported { IfErr result IsCheckFault }
    ensures alone { options.workers ≡ 1 → IfErr result IsReadingFault }
    ensures named { IfErr result (HasDocument text.read.history) }
{
    let NumberedText { read, mut lines } = text;
    lines.end_calls(&read.history, read.voids.numbers())?;
    let found = find(rt, alloc, read, options, progress)?;
    let details = details_of(alloc, &found, Some(&lines), options.reading)?;
    let story = story_of(alloc, &found, &lines, view, options)?;
    Ok((details, story))
}

// Returns the details of the text of a reader, and its explanation.
fn explain<T: Threads + Wait + Sync, R: Read>(
    rt: &T,
    alloc: Global,
    keys: HashKeys,
    reader: &mut R,
    options: CheckOptions,
    progress: &CheckProgress,
    view: Option<&View<'_>>,
) -> Result<(Details, Story), StreamFault>
    requires workers { AreWorkers options.workers }
    ensures answer { IfOk result (λ made. AnswersInput options.ruling_out options.reading (R.remaining reader.old)
        (reported_status made.0.reported) (line_of made.0.reported)) }
    ensures proved { IfOk result (λ made. IfSome (R.remaining reader.old)
        (λ input. IsProvedOf options.reading input made.0.reported made.0.proved)) }
    ensures reported { IfErr result IsCheckFault }
    ensures alone { options.workers ≡ 1 → IfErr result IsReadingFault }
    ensures named { IfErr result (NamesOwnDocument (R.remaining reader.old)) }
    ensures taken { TakesHistory (rules_of options.reading) (R.remaining reader.old) (R.remaining reader.new) }
{
    // That what is read is a text of its history is known from here on.
    texts_are_read_by_rules();
    progress.reach(CheckStage::Reading);
    match read_numbered(alloc, keys, options.reading.rules(), reader, Kept::All)? {
        Ok(text) => {
            progress.reach(CheckStage::Searching);
            text_explained(rt, alloc, text, options, progress, view)
        }
        Err(refused) => {
            let story = refused_story(alloc, &refused)?;
            Ok((Details::refused(refused.fault), story))
        }
    }
}

/// Returns what a check finds in the text of a reader, as `check_details` does, with its explanation, as text, and as
/// a page if one is asked for. It writes nothing.
///
/// Errors, whichever comes first: `Read`, `NoMemory`, `Worker`. It waits as `check_stream` does.
pub fn explained_details<T: Threads + Wait + Sync, R: Read>(
    rt: &T,
    alloc: Global,
    keys: HashKeys,
    reader: &mut R,
    options: CheckOptions,
    progress: &CheckProgress,
    shown: Option<PageOptions<'_>>,
) -> Result<ExplainedDetails, StreamFault>
    // There are 1 to 16 workers.
    requires workers { AreWorkers options.workers }
    // The line that reports it answers the bytes of the reader, as that of `check_stream` does.
    ensures answer { IfOk result (λ found. AnswersInput options.ruling_out options.reading (R.remaining reader.old)
        (reported_status found.details.reported) (line_of found.details.reported)) }
    // What is said to be proved is as `check_details` says.
    ensures proved { IfOk result (λ found. IfSome (R.remaining reader.old)
        (λ input. IsProvedOf options.reading input found.details.reported found.details.proved)) }
    // The page is made of markup of the crate `page`, numbers, and escaped texts.
    ensures page { IfOk result (λ found. IfSome found.page (λ page. IsPage page.items)) }
    // The only errors are `Read`, `NoMemory` and `Worker`.
    ensures reported { IfErr result IsCheckFault }
    // With one worker, the caller's thread, the error is never `Worker`.
    ensures alone { options.workers ≡ 1 → IfErr result IsReadingFault }
    // A document that a `Worker` names is one of the history whose text the reader had.
    ensures named { IfErr result (NamesOwnDocument (R.remaining reader.old)) }
    // No bytes after the first refused line are taken but those that the last read returned, as by
    // `check_stream`.
    ensures taken { TakesHistory (rules_of options.reading) (R.remaining reader.old) (R.remaining reader.new) }
{
    let view = view_of(&shown);
    let (details, story) = explain(rt, alloc, keys, reader, options, progress, view)?;
    let explanation = plain_text(alloc, &story)?;
    let line = details.reported.line(alloc)?;
    let page = page_shown(alloc, line.as_str(), &story, options, shown)?;
    Ok(ExplainedDetails {
        details,
        explanation,
        page,
    })
}

/// Reads a history text to its end. Returns the answer that `explain_stream` writes for it; and the explanation as a
/// page of HTML, with a drawing of the calls, if that is asked for. It writes nothing.
///
/// Errors, whichever comes first: `Read`, `NoMemory`, `Worker`. It waits as `check_stream` does.
pub fn explained_answer<T: Threads + Wait + Sync, R: Read>(
    rt: &T,
    alloc: Global,
    keys: HashKeys,
    reader: &mut R,
    options: CheckOptions,
    progress: &CheckProgress,
    shown: Option<PageOptions<'_>>,
) -> Result<(AnswerText, Option<Vec<u8>>), StreamFault>
    // There are 1 to 16 workers.
    requires workers { AreWorkers options.workers }
    // The text of the answer begins with a line that answers the bytes of the reader as the line of
    // `check_stream` does.
    ensures text { IfOk result (λ made. ExplainsInput options.ruling_out options.reading (R.remaining reader.old) made.0.status
        made.0.text.items) }
    // The page is made of markup of the crate `page`, numbers, and escaped texts.
    ensures page { IfOk result (λ made. IfSome made.1 (λ page. IsPage page.items)) }
    // The only errors are `Read`, `NoMemory` and `Worker`.
    ensures reported { IfErr result IsCheckFault }
    // With one worker, the caller's thread, the error is never `Worker`.
    ensures alone { options.workers ≡ 1 → IfErr result IsReadingFault }
    // A document that a `Worker` names is one of the history whose text the reader had.
    ensures named { IfErr result (NamesOwnDocument (R.remaining reader.old)) }
    // No bytes after the first refused line are taken but those that the last read returned, as by
    // `check_stream`.
    ensures taken { TakesHistory (rules_of options.reading) (R.remaining reader.old) (R.remaining reader.new) }
{
    let found = explained_details(rt, alloc, keys, reader, options, progress, shown)?;
    let reported = &found.details.reported;
    let mut text = reported.line(alloc)?;
    text.push_str(found.explanation.as_str())?;
    let answer = AnswerText {
        status: status_of(reported),
        text: text.into_bytes(),
    };
    Ok((answer, found.page))
}
