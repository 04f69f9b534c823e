//! Texts that are read line by line, with what their lines say beside the events.

ghost use Rattle.std.specs.Prelude.{◌≡◌, ◌≤◌, Err, IfOk, IfSome, MatchResult, Ok};
ghost use Rattle.events.specs.Refusal.{most_events};
ghost use Rattle.history.specs.ByRules.{history_text_by, room_taken};
ghost use Rattle.history.specs.Laws.{AreLost};
ghost use Rattle.stream_io.specs.Taken.{TakesHistory};

use api_lines::lines::is_blank;
use api_lines::{InputFault, LineReader, ReadFault, RefusedLine, take_lines};
use events::HashKeys;
use history::laws::texts_are_read_by_rules;
use history::{TextRead, TextReader, TextRules};
use std::alloc::Global;
use std::io::Read;
use story::{EventLines, LineKey};
use version_pair::NoMemory;

/// What is kept of what the lines of events say beside the events.
#[derive(Clone, Copy, PartialEq, Eq)]
pub enum Kept {
    /// Nothing at all.
    Nothing,
    /// Nothing but the numbers of the lines.
    Numbers,
    /// When they were written.
    Times,
    /// That, who asked, the notes, and how calls ended.
    All,
}

// The lines of the events of a history that is read, and what they say beside the events.
#[derive(Drop)]
struct NumberedLines {
    alloc: Global,
    lines: EventLines,
    kept: Kept,
    time: LineKey,
    client: LineKey,
    note: LineKey,
    status: LineKey,
    void: LineKey,
}

impl NumberedLines {
    // Returns those of no line.
    fn new(alloc: Global, kept: Kept) -> NumberedLines {
        NumberedLines {
            alloc,
            lines: EventLines::new(alloc),
            kept,
            time: LineKey::time(),
            client: LineKey::client(),
            note: LineKey::note(),
            status: LineKey::status(),
            void: LineKey::void(),
        }
    }

    // Adds who asked by the line of the next event, if it says so.
    fn add_client(&mut self, line: &[u8]) -> Result<(), NoMemory> {
        match self.client.plain_text(line) {
            Some(name) => self.lines.add_client(name),
            None => self
                .lines
                .add_client(self.client.text(self.alloc, line)?.as_str()),
        }
    }

    // Adds when the line of the next event was written, if it says so.
    fn add_time(&mut self, line: &[u8]) -> Result<(), NoMemory> {
        if let Some(millisecond) = self.time.number(self.alloc, line)? {
            self.lines.add_moment(millisecond)?;
        }
        Ok(())
    }

    // Adds who asked by the line of the next event, and the note on it.
    fn add_words(&mut self, line: &[u8]) -> Result<(), NoMemory> {
        if self.client.may_be_in(line) {
            self.add_client(line)?;
        }
        if self.note.may_be_in(line) {
            self.lines
                .add_note(self.note.text(self.alloc, line)?.as_str())?;
        }
        Ok(())
    }

    // Adds what the line of the next event says of how a call ended.
    fn add_ending(&mut self, line: &[u8]) -> Result<(), NoMemory> {
        if self.void.may_be_in(line) {
            self.lines.add_void();
        }
        if self.status.may_be_in(line) {
            if let Some(status) = self.status.number_in_front(self.alloc, line)? {
                self.lines.add_status(status)?;
            }
        }
        Ok(())
    }

    // Adds the next line, which was not refused, if lines are kept.
    fn add(&mut self, line: &[u8]) -> Result<(), NoMemory> {
        if self.kept == Kept::Nothing {
            return Ok(());
        }
        if is_blank(line) {
            return self.lines.add_blank();
        }
        match self.kept {
            Kept::Nothing | Kept::Numbers => {}
            Kept::Times => self.add_time(line)?,
            Kept::All => {
                self.add_time(line)?;
                self.add_words(line)?;
                self.add_ending(line)?;
            }
        }
        self.lines.add_event();
        Ok(())
    }
}

// A history text that is read line by line, and the lines that its events are on.
#[derive(Drop)]
struct NumberedReader {
    text: TextReader,
    numbered: NumberedLines,
}

impl NumberedReader {
    // Returns what was read of the lines that were taken, with their numbers.
    fn finish(self) -> Result<NumberedText, NoMemory>
        ensures { IfOk result (λ it. it.read ≡ self.text.state.read) }
    {
        let NumberedReader { text, numbered } = self;
        Ok(NumberedText {
            read: text.finish()?,
            lines: numbered.lines,
        })
    }
}

impl LineReader for NumberedReader {
    ghost use Rattle.history.specs.ByRules.{TextState, takes_value_by};

    ghost State = { TextState };

    ghost takes = { takes_value_by };

    ghost reached = { λ reader. reader.text };

    fn line(&mut self, line: &[u8]) -> Result<(), ReadFault> {
        self.text.line(line)?;
        match self.numbered.add(line) {
            Ok(()) => Ok(()),
            Err(_) => Err(ReadFault::NoMemory),
        }
    }
}

/// What was read of a text, and the lines that its events are on.
#[derive(Drop)]
pub struct NumberedText {
    pub read: TextRead,
    pub lines: EventLines,
}

/// Reads the history text of the reader to its end by these rules, and returns what was read, with these keys, and the
/// lines that its events are on, of which that much is kept; or the first line that is refused. The reader is asked for
/// 32,768 bytes at a time.
///
/// Errors, whichever comes first: `Read` for a fault of the reader of any kind, an interruption included; `NoMemory`; and
/// inside `Ok` those of `history::read_text`. The lines before the one at which it stopped are taken, and maybe a prefix
/// of that one. Of the lines of the events, and of what is kept of them, nothing is promised.
pub fn read_numbered<R: Read>(
    alloc: Global,
    keys: HashKeys,
    rules: TextRules,
    reader: &mut R,
    kept: Kept,
) -> Result<Result<NumberedText, RefusedLine>, InputFault>
    // If the reader's bytes are known, what was read, or the line and the cause, is what the definition gives for them.
    ensures reported { IfOk result (λ reported. IfSome (R.remaining reader.old) (λ text. MatchResult reported
        (λ it. history_text_by rules text ≡ Ok it.read)
        (λ refused. history_text_by rules text ≡ Err refused.fault))) }
    // The numbers are of lost calls of this history.
    ensures voids { IfOk result (λ reported. IfOk reported (λ it. AreLost it.read.history it.read.voids)) }
    // Its events take the room of 1,048,576 at most.
    ensures room { IfOk result (λ reported. IfOk reported
        (λ it. room_taken rules.writes it.read.history ≤ most_events)) }
    // No bytes after the first refused line are taken but those that the last read returned, 32,768 at most; of that
    // line and all before it 4,194,304 times 65,537 bytes at most.
    ensures taken { TakesHistory rules (R.remaining reader.old) (R.remaining reader.new) }
{
    // That the void calls are lost calls, and that there is room, is known from here on.
    texts_are_read_by_rules();
    let mut lines = NumberedReader {
        text: TextReader::new(alloc, keys, rules),
        numbered: NumberedLines::new(alloc, kept),
    };
    match take_lines(alloc, &mut lines, reader)? {
        Ok(()) => Ok(Ok(lines.finish()?)),
        Err(refused) => Ok(Err(refused)),
    }
}
