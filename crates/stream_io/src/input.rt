ghost use Rattle.std.specs.Prelude.{◌≡◌, ℕ, Err, IfOk, IfSome, List, MatchResult, Ok, OnErr, OnOk, OnSome, map};
ghost use Rattle.std.specs.Io.KnownBytes.{Consumes, IsAtEnd};
ghost use Rattle.stream_io.specs.Taken.{TakesWitness};
ghost use Rattle.places.specs.Documents.{doc_places};
ghost use Rattle.witness.specs.Text.{witness_text};

use api_lines::{CHUNK, InputFault, TextFault};
use places::Place;
use std::alloc::Global;
use std::io::Read;
use version_pair::DocId;
use witness::read_witness_from;

/// Reads the witness text of the reader to its end, and returns its entries; or the first line that is
/// refused. The reader is asked for 32,768 bytes at a time.
///
/// Errors, whichever comes first: `Read` for a fault of the reader of any kind, an interruption included;
/// `NoMemory`; and inside `Ok` those of `witness::read_witness`. The lines before the one at which it stopped
/// are taken, maybe some bytes of that one, and what the last read returned.
pub fn read_entries<R: Read>(
    alloc: Global,
    reader: &mut R,
) -> Result<Result<Vec<(DocId, Vec<Place>)>, TextFault>, InputFault>
    // If the reader's bytes are known, the result is what the definition gives for them, as that of
    // `witness::read_witness` is.
    ensures reported { IfOk result (λ reported. IfSome (R.remaining reader.old) (λ text. MatchResult reported
        (λ entries. witness_text text ≡ Ok (map doc_places entries.items))
        (λ fault. witness_text text ≡ Err fault))) }
    // Whatever the result, no bytes after the first refused line are taken but those that the last read
    // returned, 32,768 at most.
    ensures taken { TakesWitness (R.remaining reader.old) (R.remaining reader.new) }
    // If all lines are taken nothing is left in the reader.
    ensures end { IfOk result (λ reported. OnOk reported (OnSome (R.remaining reader.old)
        (IsAtEnd (R.remaining reader.new)))) }
{
    read_witness_from(alloc, reader)
}

/// Returns all bytes of the reader to its end. It asks for 32,768 bytes at once.
///
/// Errors, whichever comes first: `Read` for a fault of the reader of any kind, an interruption included;
/// `NoMemory`. Some prefix of the bytes is then taken.
pub fn read_all<R: Read>(alloc: Global, reader: &mut R) -> Result<Vec<u8>, InputFault>
    // If the reader's bytes are known, they are these, to their end.
    ensures all { IfOk result (λ bytes. IfSome (R.remaining reader.old) (λ input. bytes.items ≡ input)) }
    // If it succeeds nothing is left in the reader.
    ensures end { OnOk result (OnSome (R.remaining reader.old) (IsAtEnd (R.remaining reader.new))) }
    // After an error some prefix of the reader's bytes is taken.
    ensures left { OnErr result ((front : List ℕ) × Consumes (R.remaining reader.old) (R.remaining reader.new) front) }
{
    let mut chunk = [0u8; CHUNK];
    let mut bytes = Vec::new(alloc);
    loop {
        match reader.read(&mut chunk) {
            Ok(0) => return Ok(bytes),
            Ok(count) => bytes.extend_from_slice(&chunk[..count])?,
            Err(_) => return Err(InputFault::Read),
        }
    }
}
