ghost use Rattle.std.specs.Prelude.{◌≡◌, ◌≤◌, IfOk};
ghost use Rattle.events.specs.Refusal.{most_events};
ghost use Rattle.history.specs.ByRules.{room_taken};
ghost use Rattle.history.specs.Laws.{AreLost};
ghost use Rattle.history.specs.declared.text_read.TextRead.{TextRead as TextOf};
ghost use Rattle.readings.specs.Reading.{read_as};
ghost use Rattle.readings.specs.WayBack.{IsKept};
ghost use Rattle.readings.specs.declared.reading.Reading.{Reading as ReadingOf};

use crate::judged::judged_history;
use crate::reading::Reading;
use events::History;
use history::TextRead;
use version_pair::NoMemory;

/// A text's history as a reading reads it.
#[derive(Debug, Drop)]
pub struct ReadHistory {
    /// The history that the strict check judges.
    pub judged: History,
    /// What was read of the text; `None` if the reading leaves its events as they are, so that they are judged.
    pub text: Option<TextRead>,
}

impl ReadHistory {
    /// Returns what was read of a text, as this reading reads it.
    pub fn of(read: TextRead, reading: Reading) -> Result<ReadHistory, NoMemory>
        // The void calls are lost in the text.
        requires void { AreLost read.history read.voids }
        // There is room for what is read.
        requires room { room_taken reading.writes read.history ≤ most_events }
        // What is judged is what the reading makes of the text's events.
        ensures judged { IfOk result (λ it. it.judged ≡ read_as reading read.voids read.history) }
        // What was read of the text is kept beside it, unless it is what is judged.
        ensures kept { IfOk result (λ it. IsKept reading read it.judged it.text) }
    {
        if reading.leaves_events() {
            return Ok(ReadHistory {
                judged: read.history,
                text: None,
            });
        }
        let judged = judged_history(&read.history, &read.voids, reading)?;
        Ok(ReadHistory {
            judged,
            text: Some(read),
        })
    }
}

/// Returns the text's own history, if this is what is judged, and what is kept of the text.
pub fn text_history<'t>(judged: &'t History, text: &'t Option<TextRead>) -> &'t History
    // It is that of the text of which this is kept.
    ensures { (reading : ReadingOf) (read : TextOf) → IsKept reading read judged.now text.now → result.now ≡ read.history }
{
    match text {
        Some(read) => &read.history,
        None => judged,
    }
}
