ghost use Rattle.std.specs.Prelude.{IfOk, ℕ, List};
ghost use Rattle.history.specs.Text.{IsHistoryText};
ghost use Rattle.readings.specs.Reading.{strict_reading};
ghost use Rattle.report.specs.Verdict.{IsAnswer};

use crate::check_options::CheckOptions;
use crate::details::status_of;
use crate::finding::find_alone;
use crate::progress::CheckProgress;
use compose::RulingOut;
use events::History;
use history::laws::{texts_are_read, texts_are_read_by_rules};
use history::{TextRead, Voids};
use readings::Reading;
use std::alloc::Global;
use stream_io::AnswerText;
use version_pair::NoMemory;

/// Returns the answer to a text of this history by the strict reading, which is the line that `check_stream` writes for
/// it. The caller's thread searches alone.
pub fn history_answer(
    alloc: Global,
    history: History,
    ruling_out: RulingOut,
) -> Result<AnswerText, NoMemory>
    // It answers each text of the history, as `check_stream` does.
    ensures { IfOk result (λ answer. (input : List ℕ) → IsHistoryText input history
        → IsAnswer ruling_out strict_reading input answer.status answer.text.items) }
{
    // That a text of the history is read as it, without void calls, is known from here on, and that the history is
    // within the limit.
    texts_are_read();
    texts_are_read_by_rules();
    let _ = history.len();
    let reading = Reading::strict();
    let options = CheckOptions {
        workers: 1,
        reading,
        ruling_out,
    };
    let voids = Voids::new(alloc, Vec::new(alloc))?;
    let read = TextRead { history, voids };
    let found = find_alone(alloc, read, options, &CheckProgress::new())?;
    let reported = found.answer(reading).reported;
    let line = reported.line(alloc)?;
    Ok(AnswerText::of(status_of(&reported), line))
}
