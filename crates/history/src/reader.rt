ghost use Rattle.std.specs.Prelude.{◌≡◌, ◌≤◌, [], IfErr, IfOk, OnErr, OnOk, Ok, Err};
ghost use Rattle.api_lines.specs.Faults.{IfTextReported};
ghost use Rattle.api_lines.specs.Lines.{HasNoLineFeed, most_lines};
ghost use Rattle.api_lines.specs.Texts.{next_line, so_far};
ghost use Rattle.history.specs.Reading.{history_text, takes_value};
ghost use Rattle.history.specs.Text.{IsHistoryText};

use crate::text_reader::TextReader;
use crate::text_rules::TextRules;
use api_lines::{LineReader, ReadFault, take_text};
use events::{HashKeys, History};
use std::alloc::Global;
use std::marker::Model;

/// A reader that takes a history line by line, by the strict rules.
///
/// Contracts see the events so far and the number of lines taken. The law `laws::line_by_line` states for
/// texts what `line` states for these.
#[derive(Debug, Drop)]
pub struct HistoryReader {
    reader: TextReader,
}

impl Model for HistoryReader {
    ghost use Rattle.std.specs.Prelude.{List};
    ghost use Rattle.api_lines.specs.Texts.{SoFar, so_far};
    ghost use Rattle.events.specs.declared.event.Event.{Event};
    ghost use Rattle.history.specs.aids.Rules.{IsStrict};

    ghost Value = { SoFar (List Event) };

    ghost view = { λ r. so_far r.reader.state.read.history r.reader.lines };

    ghost invariant = { λ r. IsStrict r.reader.state };
}

impl HistoryReader {
    /// Returns a reader that has taken no line, for a history with fixed keys. It allocates nothing; events
    /// are added in this memory later.
    pub fn new(alloc: Global) -> HistoryReader
        ensures { result ≡ so_far [] 0 }
    {
        HistoryReader::with_keys(alloc, HashKeys::fixed())
    }

    /// Returns a reader that has taken no line, for a history with these keys. It allocates nothing; events
    /// are added in this memory later.
    pub fn with_keys(alloc: Global, keys: HashKeys) -> HistoryReader
        ensures { result ≡ so_far [] 0 }
    {
        HistoryReader {
            reader: TextReader::new(alloc, keys, TextRules::strict()),
        }
    }

    /// Takes the next line, without its line feed; or refuses it with its first cause.
    ///
    /// Errors: those of `read` for this line, in their order; `NoMemory` may come before any of them. A line
    /// that is refused leaves the reader as it was.
    pub fn line(&mut self, line: &[u8]) -> Result<(), ReadFault>
        // The line has no line feed in it.
        requires { HasNoLineFeed line.now }
        // A line that is taken adds what the definition gives.
        ensures ok { OnOk result (next_line takes_value self.old line.now ≡ Ok self.new) }
        // The lines that were taken are 4,194,304 at most.
        ensures within { self.new.lines ≤ most_lines }
        // An error other than `NoMemory` is that of the definition.
        ensures fault { IfErr result (λ fault. IfTextReported fault
            (λ reported. next_line takes_value self.old line.now ≡ Err reported)) }
        // An error leaves the reader as it was.
        ensures unchanged { OnErr result (self.new ≡ self.old) }
    {
        self.reader.line(line)
    }

    /// Returns the history of the lines that were taken. It allocates nothing.
    pub fn finish(self) -> History
        ensures { result ≡ self.state }
    {
        self.reader.into_history()
    }
}

impl LineReader for HistoryReader {
    ghost use Rattle.std.specs.Prelude.{List};
    ghost use Rattle.events.specs.declared.event.Event.{Event};

    // The state is the events so far.
    ghost State = { List Event };

    // The value of a line adds the event that the line gives.
    ghost takes = { takes_value };

    // The events and the number of lines are those of the reader.
    ghost reached = { λ reader. reader };

    fn line(&mut self, line: &[u8]) -> Result<(), ReadFault> {
        HistoryReader::line(self, line)
    }
}

/// Returns the history that a text spells, or the first line that is refused, with its first cause. So there
/// is a history exactly if the bytes are a history text, unless memory is refused.
///
/// Errors of a line, in this order: `Lines` and `Long`, after which a blank line is passed over; `Json`,
/// `Shape`, `Id`, `Half`, `Range`; for a call `SecondCall`, `ShardMoved`, `Full`; for a reply `NoCall`,
/// `Ended`, `Stranger`, `Full`; for a lost line `NoCall`, `Ended`, `Full`. `NoMemory` may come before any of
/// them.
pub fn read(alloc: Global, text: &[u8]) -> Result<History, ReadFault>
    // The history is that which the definition gives for the bytes.
    ensures ok { IfOk result (λ history. history_text text.now ≡ Ok history) }
    // The bytes are a history text of just this history.
    ensures text { IfOk result (IsHistoryText text.now) }
    // An error other than `NoMemory` is the line and the cause that the definition gives.
    ensures fault { IfErr result (λ fault. IfTextReported fault (λ reported. history_text text.now ≡ Err reported)) }
{
    let mut reader = HistoryReader::new(alloc);
    take_text(&mut reader, text)?;
    Ok(reader.finish())
}
