ghost use Rattle.std.specs.Prelude.{◌≡◌, ◌≤◌, [], IfOk, OnErr, Ok, false, true, length};
ghost use Rattle.std.specs.Io.KnownBytes.{Consumes, IsAtEnd, Keeps, prepend_known};
ghost use Rattle.api_lines.specs.Lines.{HasNoLineFeed};
ghost use Rattle.api_lines.specs.Sources.{EndsLine, IsPart, most_brought, most_held};

use crate::chunk::Chunk;
use crate::lines::LONGEST_LINE;
use memchr::memchr;
use std::alloc::AllocError;
use std::io::Read;
use thiserror::Error;

/// The reason why the bytes of a reader could not be read.
#[derive(Clone, Copy, Debug, PartialEq, Eq, Error)]
pub enum InputFault {
    /// The reader failed.
    #[error("the input failed")]
    Read,
    /// Memory was refused.
    #[error("no memory")]
    NoMemory,
}

impl From<AllocError> for InputFault {
    fn from(_: AllocError) -> InputFault {
        InputFault::NoMemory
    }
}

// What was taken of a line from the bytes at hand.
#[derive(Clone, Copy, PartialEq, Eq)]
enum Part {
    // A part of the line.
    More,
    // Its last part, with the line feed.
    Last,
    // Nothing: there are no more bytes.
    End,
}

// Adds the bytes at hand to a line, up to a line feed, and no more than a line may have.
fn take_part<R: Read>(
    reader: &mut R,
    chunk: &mut Chunk,
    line: &mut Vec<u8>,
) -> Result<Part, InputFault>
    requires { length line.now.items ≤ 65536 }
    ensures part { IfOk result (λ part. IsPart part (prepend_known chunk.old (R.remaining reader.old))
        (prepend_known chunk.new (R.remaining reader.new)) line.old.items line.new.items) }
    ensures few { IfOk result (λ _. length line.new.items ≤ most_held) }
    ensures err { OnErr result (Consumes (prepend_known chunk.old (R.remaining reader.old))
        (prepend_known chunk.new (R.remaining reader.new)) []
        × (line.new.items ≡ line.old.items)) }
    ensures brought { length chunk.new ≤ most_brought }
{
    chunk.fill(reader)?;
    let bytes = chunk.bytes();
    if bytes.is_empty() {
        return Ok(Part::End);
    }
    let room = LONGEST_LINE + 1 - line.len();
    match memchr(b'\n', bytes) {
        Some(end) if end < room => {
            line.extend_from_slice(&bytes[..end])?;
            chunk.consume(end + 1);
            Ok(Part::Last)
        }
        Some(_) => {
            line.extend_from_slice(&bytes[..room])?;
            chunk.consume(room);
            Ok(Part::More)
        }
        None => {
            let taken = bytes.len().min(room);
            line.extend_from_slice(&bytes[..taken])?;
            chunk.consume(taken);
            Ok(Part::More)
        }
    }
}

/// Takes the next line of a chunk and the reader after it, without its line feed, and puts it in `line` in
/// place of what that had. Returns `false` at the end of their bytes. Of a line with more bytes than a line
/// may have, only a prefix of 65,537 bytes is taken.
///
/// Errors, whichever comes first: `Read` for a fault of the reader of any kind, an interruption included;
/// `NoMemory`. After either, `line` has the bytes that were taken.
pub fn next_line<R: Read>(
    reader: &mut R,
    chunk: &mut Chunk,
    line: &mut Vec<u8>,
) -> Result<bool, InputFault>
    // The line has no line feed, also after an error.
    ensures unfed { HasNoLineFeed line.new.items }
    // It has 65,537 bytes at most, also after an error.
    ensures few { length line.new.items ≤ most_held }
    // After `true` the chunk and the reader lost the line, of at most 65,536 bytes, and its line feed; or
    // just the line, which is the last one; or the first 65,537 bytes of a line that is too long.
    ensures more { result ≡ Ok true → EndsLine (prepend_known chunk.old (R.remaining reader.old))
        (prepend_known chunk.new (R.remaining reader.new)) line.new.items }
    // After `false` nothing was left, and nothing was taken.
    ensures end { result ≡ Ok false → IsAtEnd (prepend_known chunk.old (R.remaining reader.old))
        × Keeps (prepend_known chunk.old (R.remaining reader.old))
        (prepend_known chunk.new (R.remaining reader.new)) }
    // After an error `line` has just the bytes that the chunk and the reader lost.
    ensures err { OnErr result (Consumes (prepend_known chunk.old (R.remaining reader.old))
        (prepend_known chunk.new (R.remaining reader.new)) line.new.items) }
    // At most 32,768 bytes are at hand in the chunk.
    ensures brought { length chunk.new ≤ most_brought }
{
    line.clear();
    loop {
        match take_part(reader, chunk, line)? {
            Part::More if line.len() > LONGEST_LINE => return Ok(true),
            Part::More => {}
            Part::Last => return Ok(true),
            Part::End => return Ok(!line.is_empty()),
        }
    }
}
