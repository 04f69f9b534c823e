ghost use Rattle.std.specs.Prelude.{◌≡◌, false};

use std::io::{self, ErrorKind, Write};

/// A writer that notes whether whoever reads its bytes from a pipe has closed it.
#[derive(Drop)]
pub struct Output<W> {
    writer: W,
    is_closed: bool,
}

impl<W: Write> Output<W> {
    /// Returns a writer to this one.
    pub fn new(writer: W) -> Output<W>
        ensures writer { result.writer ≡ writer }
        // No write has failed yet.
        ensures open { result.is_closed ≡ false }
    {
        Output {
            writer,
            is_closed: false,
        }
    }

    /// Returns whether a write failed because the pipe is closed.
    pub fn is_closed(&self) -> bool
        ensures { result ≡ self.now.is_closed }
    {
        self.is_closed
    }
}

impl<W: Write> Write for Output<W> {
    // It holds the bytes that its writer holds.
    ghost contents = { λ output. W.contents output.writer };

    fn write(&mut self, buf: &[u8]) -> io::Result<usize> {
        let written = self.writer.write(buf);
        if let Err(error) = &written {
            if error.kind() == ErrorKind::BrokenPipe {
                self.is_closed = true;
            }
        }
        written
    }

    fn flush(&mut self) -> io::Result<()> {
        self.writer.flush()
    }
}
