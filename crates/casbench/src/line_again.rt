use memchr::memchr;
use report::{BrokenReply, Kept, written_at};
use std::alloc::{AllocError, Global};
use std::io::{self, BufRead, BufReader, ErrorKind, Read, Seek};

// The most pieces in which a line is passed over: one for each byte of the longest that a history text has.
const MOST_PIECES: usize = 65_538;

// Passes over the next line, its line feed included.
fn skip_line<R: Read>(reader: &mut BufReader<R>) -> io::Result<()> {
    for _ in 0..MOST_PIECES {
        let held = reader.fill_buf()?;
        let end = memchr(b'\n', held);
        let passed = match end {
            Some(at) => at + 1,
            None => held.len(),
        };
        reader.consume(passed);
        if end.is_some() || passed == 0 {
            return Ok(());
        }
    }
    Ok(())
}

// Returns the line of the text with this number, from 1, without its line feed; an empty one if it has fewer.
fn line_again<S: Read + Seek>(alloc: Global, source: &mut S, number: u64) -> io::Result<Vec<u8>> {
    source.rewind()?;
    let mut reader = BufReader::new(alloc, source)?;
    for _ in 1..number {
        skip_line(&mut reader)?;
    }
    let mut line = Vec::new(alloc);
    reader.read_until(b'\n', &mut line)?;
    if line.ends_with(b"\n") {
        line.pop();
    }
    Ok(line)
}

/// Adds when the reply's line was written, if the times of the lines weren't kept: then the text is read again, up to
/// that line. The only error is out of memory: if the text can't be read again there is no time.
pub fn add_time<S: Read + Seek>(
    alloc: Global,
    source: &mut S,
    kept: Kept,
    reply: &mut Option<BrokenReply>,
) -> Result<(), AllocError> {
    let (Kept::Numbers, Some(reply)) = (kept, reply) else {
        return Ok(());
    };
    match line_again(alloc, source, reply.reply_line) {
        Ok(line) => reply.time = written_at(alloc, &line)?,
        Err(error) if error.kind() == ErrorKind::OutOfMemory => return Err(AllocError),
        Err(_) => {}
    }
    Ok(())
}
