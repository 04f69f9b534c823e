ghost use Rattle.std.specs.Prelude.{◌≡◌, ◌≤◌, IfErr, IfOk, OnErr, OnOk, Ok, Err};
ghost use Rattle.api_lines.specs.Faults.{IfTextReported, IfReported};
ghost use Rattle.api_lines.specs.Lines.{HasNoLineFeed, most_lines};
ghost use Rattle.api_lines.specs.Texts.{next_line, read_line, so_far};
ghost use Rattle.history.specs.ByRules.{history_text_by, start_by, takes_value_by};

use crate::read_so_far::ReadSoFar;
use crate::text_read::TextRead;
use crate::text_rules::TextRules;
use api_lines::{
    LineFault, LineFields, LineReader, LineRoom, ReadFault, given_fields, given_line, line_fields,
    take_text,
};
use events::{HashKeys, History};
use std::alloc::{AllocError, Global};
use std::marker::Model;

// Takes the line with this number, by way of `serde_json` if its fields aren't found without. A line that is
// refused leaves what was read as it was.
fn take_line(
    alloc: Global,
    read: &mut ReadSoFar,
    room: &mut LineRoom,
    number: u64,
    line: &[u8],
) -> Result<(), LineFault>
    ensures ok { OnOk result (read_line takes_value_by number read.old line.now ≡ Ok read.new) }
    ensures within { OnOk result (number ≤ most_lines) }
    ensures err { IfErr result (λ fault. IfReported fault
        (λ cause. read_line takes_value_by number read.old line.now ≡ Err cause)) }
    ensures unchanged { OnErr result (read.new ≡ read.old) }
{
    let mut fields = LineFields::absent();
    if given_fields(number, line, room, &mut fields) {
        return read.take_fields(&fields);
    }
    match given_line(alloc, number, line) {
        Ok(Some(value)) => read.take_fields(&line_fields(&value)),
        Ok(None) => Ok(()),
        Err(fault) => Err(fault),
    }
}

/// A reader that takes a history text line by line, by rules.
///
/// Contracts see the rules, what was read so far and the number of lines taken. The law
/// `laws::line_by_line_by_rules` states for texts what `line` states for these.
#[derive(Debug, Drop)]
pub struct TextReader {
    read: ReadSoFar,
    lines: u64,
    room: LineRoom,
}

impl Model for TextReader {
    ghost use Rattle.std.specs.Prelude.{◌≤◌};
    ghost use Rattle.api_lines.specs.Lines.{most_lines};
    ghost use Rattle.api_lines.specs.Texts.{SoFar, so_far};
    ghost use Rattle.history.specs.ByRules.{TextState};

    ghost Value = { SoFar TextState };

    ghost view = { λ r. so_far r.read r.lines };

    ghost invariant = { λ r. r.lines ≤ most_lines };
}

impl TextReader {
    /// Returns a reader by these rules that has taken no line, for a history with these keys. It allocates
    /// nothing; events are added in this memory later.
    pub fn new(alloc: Global, keys: HashKeys, rules: TextRules) -> TextReader
        ensures { result ≡ so_far (start_by rules) 0 }
    {
        TextReader {
            read: ReadSoFar::new(alloc, keys, rules),
            lines: 0,
            room: LineRoom::new(alloc),
        }
    }

    /// Takes the next line, without its line feed; or refuses it with its first cause.
    ///
    /// Errors: those of `read_text` for this line, in their order; `NoMemory` may come before any of them. A
    /// line that is refused leaves the reader as it was.
    pub fn line(&mut self, line: &[u8]) -> Result<(), ReadFault>
        // The line has no line feed in it.
        requires { HasNoLineFeed line.now }
        // A line that is taken adds what the definition gives.
        ensures ok { OnOk result (next_line takes_value_by self.old line.now ≡ Ok self.new) }
        // The lines that were taken are 4,194,304 at most.
        ensures within { self.new.lines ≤ most_lines }
        // An error other than `NoMemory` is that of the definition.
        ensures fault { IfErr result (λ fault. IfTextReported fault
            (λ reported. next_line takes_value_by self.old line.now ≡ Err reported)) }
        // An error leaves the reader as it was.
        ensures unchanged { OnErr result (self.new ≡ self.old) }
    {
        let number = self.lines + 1;
        let alloc = self.read.allocator();
        match take_line(alloc, &mut self.read, &mut self.room, number, line) {
            Ok(()) => {
                self.lines = number;
                Ok(())
            }
            Err(fault) => Err(fault.at(number)),
        }
    }

    /// Returns the history of the lines that were taken. It allocates nothing.
    pub fn into_history(self) -> History
        ensures { result ≡ self.state.read.history }
    {
        self.read.into_history()
    }

    /// Returns what the lines that were taken are read as. It allocates only if a line said that nothing was
    /// performed.
    pub fn finish(self) -> Result<TextRead, AllocError>
        ensures { IfOk result (λ read. read ≡ self.state.read) }
    {
        self.read.finish()
    }
}

impl LineReader for TextReader {
    ghost use Rattle.history.specs.ByRules.{TextState};

    // The state is the rules and what was read so far.
    ghost State = { TextState };

    // The value of a line adds what the line gives by the rules.
    ghost takes = { takes_value_by };

    // The state and the number of lines are those of the reader.
    ghost reached = { λ reader. reader };

    fn line(&mut self, line: &[u8]) -> Result<(), ReadFault> {
        TextReader::line(self, line)
    }
}

/// Returns what a text is read as by these rules, or the first line that is refused, with its first cause.
///
/// Errors of a line: those of `read`, in their order. If lost lines are trusted, one whose field `void` is
/// neither true nor false is `Shape`. If writes are repeated, the call of a write without a condition takes the
/// room of two events, and a line is `Full` if its event has no room.
pub fn read_text(alloc: Global, rules: TextRules, text: &[u8]) -> Result<TextRead, ReadFault>
    // What is read is that which the definition gives for the bytes.
    ensures ok { IfOk result (λ read. history_text_by rules text.now ≡ Ok read) }
    // An error other than `NoMemory` is the line and the cause that the definition gives.
    ensures fault { IfErr result (λ fault. IfTextReported fault
        (λ reported. history_text_by rules text.now ≡ Err reported)) }
{
    let mut reader = TextReader::new(alloc, HashKeys::fixed(), rules);
    take_text(&mut reader, text)?;
    match reader.finish() {
        Ok(read) => Ok(read),
        Err(_) => Err(ReadFault::NoMemory),
    }
}
