ghost use Rattle.std.specs.Prelude.{◌≡◌, ◌≤◌, [], IfOk, OnErr, OnOk, drop, length, take, vec_len};
ghost use Rattle.std.specs.Io.KnownBytes.{Consumes, IsAtEnd, Keeps, prepend_known};
ghost use Rattle.api_lines.specs.Sources.{most_brought};

use crate::line_input::InputFault;
use std::alloc::{AllocError, Global};
use std::io::Read;
use std::marker::Model;

/// The number of bytes that a reader is asked for at once.
pub const CHUNK: usize = 32_768;

/// The bytes that the last read of a reader brought and that nobody took yet: at most 32,768 bytes.
///
/// Contracts see these bytes. If a chunk is before a reader, the bytes are those of the chunk, followed by
/// what the reader has left.
#[derive(Drop)]
pub struct Chunk {
    bytes: Vec<u8>,
    start: usize,
    end: usize,
}

impl Model for Chunk {
    ghost use Rattle.std.specs.Prelude.{◌≡◌, ◌≤◌, List, slice_range, vec_len, ℕ};

    ghost Value = { List ℕ };

    ghost view = { λ c. slice_range c.bytes.items c.start c.end };

    ghost invariant = { λ c. (c.start ≤ c.end) × (c.end ≤ vec_len c.bytes) × (vec_len c.bytes ≡ 32768) };
}

// Reads once, over these bytes.
fn read_over<R: Read>(reader: &mut R, bytes: &mut Vec<u8>) -> Result<usize, InputFault>
    requires { vec_len bytes.old ≡ 32768 }
    ensures room { vec_len bytes.new ≡ 32768 }
    ensures within { IfOk result (λ n. n ≤ 32768) }
    ensures ok { IfOk result (λ n. Consumes (R.remaining reader.old) (R.remaining reader.new) (take n bytes.new.items)) }
    ensures end { IfOk result (λ n. n ≡ 0 → IsAtEnd (R.remaining reader.new)) }
    ensures err { OnErr result (Keeps (R.remaining reader.old) (R.remaining reader.new)) }
{
    match reader.read(bytes.as_mut_slice()) {
        Ok(count) => Ok(count),
        Err(_) => Err(InputFault::Read),
    }
}

impl Chunk {
    /// Returns the chunk for a reader that was not asked yet. It takes room for 32,768 bytes, unless memory
    /// is refused.
    pub fn new(alloc: Global) -> Result<Chunk, AllocError>
        // Nothing is at hand in it.
        ensures { IfOk result (λ chunk. chunk ≡ []) }
    {
        let mut bytes = Vec::with_capacity(alloc, CHUNK)?;
        bytes.resize(CHUNK, 0)?;
        Ok(Chunk {
            bytes,
            start: 0,
            end: 0,
        })
    }

    /// Asks the reader once for 32,768 bytes, but only if none are at hand. Errors: `Read` for a fault of the
    /// reader of any kind, an interruption included.
    pub(crate) fn fill<R: Read>(&mut self, reader: &mut R) -> Result<(), InputFault>
        ensures bytes { Keeps (prepend_known self.old (R.remaining reader.old))
            (prepend_known self.new (R.remaining reader.new)) }
        ensures end { OnOk result (self.new ≡ [] → IsAtEnd (R.remaining reader.new)) }
        ensures few { length self.new ≤ most_brought }
    {
        if self.start < self.end {
            return Ok(());
        }
        self.start = 0;
        self.end = 0;
        self.end = read_over(reader, &mut self.bytes)?;
        Ok(())
    }

    /// Returns the bytes at hand.
    pub(crate) fn bytes(&self) -> &[u8]
        ensures { result.now ≡ self.now }
    {
        &self.bytes[self.start..self.end]
    }

    /// Takes that many of the bytes at hand.
    pub(crate) fn consume(&mut self, count: usize)
        requires { count ≤ length self.old }
        ensures { self.new ≡ drop count self.old }
    {
        self.start += count;
    }
}
