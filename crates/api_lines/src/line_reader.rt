ghost use Rattle.std.specs.Prelude.{◌≡◌, ◌<◌, ◌≤◌, ℕ, Err, IfErr, IfOk, IfSome, List, MatchResult, Ok, OnOk, OnSome, Result as Outcome, length};
ghost use Rattle.std.specs.Io.KnownBytes.{IsAtEnd, Keeps, prepend_known};
ghost use Rattle.serde_json.specs.Data.{Data};
ghost use Rattle.api_lines.specs.Faults.{IfTextReported};
ghost use Rattle.api_lines.specs.Lines.{HasNoLineFeed, lines_of, most_lines};
ghost use Rattle.api_lines.specs.Sources.{IsTakenFor, most_brought};
ghost use Rattle.api_lines.specs.Texts.{IsReadTo, SoFar, next_line as after_next, read_lines};
ghost use Rattle.api_lines.specs.declared.text_fault.TextCause.{TextCause as Cause};

use crate::chunk::Chunk;
use crate::line_input::{InputFault, next_line};
use crate::lines::{MOST_LINES, first_line};
use crate::text_fault::{ReadFault, TextCause, TextFault};
use memchr::memchr;
use std::alloc::Global;
use std::io::Read;

/// A reader that takes a text line by line. What it makes of the lines each reader says for itself.
pub trait LineReader {
    /// The state that lines build.
    ghost State: { Type 0 };

    /// The state after the value of one more line, from the state after the lines before it; or the first
    /// cause to refuse the line.
    ghost takes: { Self.State → Data → Outcome Self.State Cause };

    /// The state after the lines that were taken, and the number of these lines.
    ghost reached: { Self → SoFar Self.State };

    /// Takes the next line, without its line feed; or refuses it with its first cause. `NoMemory` may come
    /// before any cause. What an error leaves each reader says for itself.
    fn line(&mut self, line: &[u8]) -> Result<(), ReadFault>
        // The line has no line feed in it.
        requires { HasNoLineFeed line.now }
        // A line that is taken leads to the state that the definition gives.
        ensures ok { OnOk result (after_next Self.takes (Self.reached self.old) line.now ≡ Ok (Self.reached self.new)) }
        // After a line that is taken the lines are 4,194,304 at most.
        ensures within { OnOk result ((Self.reached self.new).lines ≤ most_lines) }
        // An error other than `NoMemory` is that of the definition.
        ensures fault { IfErr result (λ fault. IfTextReported fault
            (λ reported. after_next Self.takes (Self.reached self.old) line.now ≡ Err reported)) };
}

/// A line that was refused.
#[derive(Debug, Drop)]
pub struct RefusedLine {
    pub fault: TextFault,
    /// Its bytes without the line feed. If it has more than 65,537 bytes, a prefix of that length; of the
    /// 4,194,305th line of a text, what the last read brought.
    pub line: Vec<u8>,
}

/// Has the reader take the lines of a text to its end; or returns the first line that is refused, with its
/// first cause. `NoMemory` may come before any cause. Which lines are taken before an error is left open.
pub fn take_text<L: LineReader>(reader: &mut L, text: &[u8]) -> Result<(), ReadFault>
    // The reader has taken no line yet.
    requires { (L.reached reader.old).lines ≡ 0 }
    // All lines are taken, and lead to the state that the definition gives.
    ensures ok { OnOk result (read_lines L.takes 1 (L.reached reader.old).state (lines_of text.now)
        ≡ Ok (L.reached reader.new).state) }
    // An error other than `NoMemory` is that of the definition.
    ensures fault { IfErr result (λ fault. IfTextReported fault
        (λ reported. read_lines L.takes 1 (L.reached reader.old).state (lines_of text.now) ≡ Err reported)) }
{
    let mut rest = text;
    while !rest.is_empty() {
        let (line, after) = first_line(rest);
        reader.line(line)?;
        rest = after;
    }
    Ok(())
}

// Checks whether the bytes continue after the greatest number of lines that a text may have. If they do, the
// line there is refused. None of it is taken; it comes with the part that is at hand, in place of what `line`
// had.
fn refuse_line_past_limit<R: Read>(
    input: &mut R,
    chunk: &mut Chunk,
    mut line: Vec<u8>,
) -> Result<Result<(), RefusedLine>, InputFault>
    ensures kept { Keeps (prepend_known chunk.old (R.remaining input.old))
        (prepend_known chunk.new (R.remaining input.new)) }
    ensures end { IfOk result (λ reported. OnOk reported (IsAtEnd (prepend_known chunk.old (R.remaining input.old)))) }
    ensures past { IfOk result (λ reported. IfErr reported (λ refused.
        (refused.fault ≡ record { line = 4194305; cause = TextCause.Lines }) × IfSome (prepend_known chunk.old (R.remaining input.old))
        (λ bytes. 0 < length bytes))) }
    ensures brought { length chunk.new ≤ most_brought }
{
    chunk.fill(input)?;
    let bytes = chunk.bytes();
    if bytes.is_empty() {
        return Ok(Ok(()));
    }
    let at_hand = match memchr(b'\n', bytes) {
        Some(end) => &bytes[..end],
        None => bytes,
    };
    line.clear();
    line.extend_from_slice(at_hand)?;
    let fault = TextFault {
        line: MOST_LINES + 1,
        cause: TextCause::Lines,
    };
    Ok(Err(RefusedLine { fault, line }))
}

/// Has the reader take the lines of an input's text to its end; or returns the first line that is refused.
///
/// The input is asked for 32,768 bytes at a time, and for none after a line that is refused. Of a line that
/// is too long 65,537 bytes are taken, and of the 4,194,305th line none. At most one line is held, and no
/// more than 65,537 bytes of one.
///
/// Errors, whichever comes first: `Read` if the input failed, `NoMemory`, and inside `Ok` the refused line.
/// The lines before the one at which it stopped are taken, and maybe a prefix of that one. Of the bytes that
/// a `RefusedLine` holds nothing is promised.
pub fn take_lines<L: LineReader, R: Read>(
    alloc: Global,
    reader: &mut L,
    input: &mut R,
) -> Result<Result<(), RefusedLine>, InputFault>
    // The reader has taken no line yet.
    requires { (L.reached reader.old).lines ≡ 0 }
    // If the input's bytes are known, the result is what the definition gives for the text of these bytes, as
    // that of `take_text` is.
    ensures reported { IfOk result (λ reported. IfSome (R.remaining input.old) (λ text. MatchResult reported
        (λ _. read_lines L.takes 1 (L.reached reader.old).state (lines_of text) ≡ Ok (L.reached reader.new).state)
        (λ refused. read_lines L.takes 1 (L.reached reader.old).state (lines_of text) ≡ Err refused.fault))) }
    // If all lines are taken, the reader has taken those of some text, also if the input's bytes are not known.
    ensures some { IfOk result (λ reported. OnOk reported ((text : List ℕ)
        × IsReadTo L.takes (L.reached reader.old).state text (L.reached reader.new))) }
    // Whatever the result, no bytes after the first refused line are taken but those that the last read
    // returned, 32,768 at most; and of this line and all before it 4,194,304 times 65,537 bytes at most.
    ensures taken { IsTakenFor (λ text. read_lines L.takes 1 (L.reached reader.old).state (lines_of text))
        (R.remaining input.old) (R.remaining input.new) }
    // If all lines are taken nothing is left.
    ensures end { IfOk result (λ reported. OnOk reported (OnSome (R.remaining input.old)
        (IsAtEnd (R.remaining input.new)))) }
{
    let mut chunk = Chunk::new(alloc)?;
    let mut line = Vec::new(alloc);
    for _ in 0..MOST_LINES {
        if !next_line(input, &mut chunk, &mut line)? {
            return Ok(Ok(()));
        }
        match reader.line(&line) {
            Ok(()) => {}
            Err(ReadFault::Text(fault)) => return Ok(Err(RefusedLine { fault, line })),
            Err(ReadFault::NoMemory) => return Err(InputFault::NoMemory),
        }
    }
    refuse_line_past_limit(input, &mut chunk, line)
}
