ghost use Rattle.std.specs.Prelude.{◌≡◌, Err, IfOk, IfSome, MatchResult, Ok, OnOk, OnSome, map};
ghost use Rattle.std.specs.Io.KnownBytes.{IsAtEnd};
ghost use Rattle.api_lines.specs.Sources.{IsTakenFor};
ghost use Rattle.places.specs.Documents.{doc_places};
ghost use Rattle.witness.specs.Text.{witness_text};

use crate::witness_reader::WitnessReader;
use api_lines::{InputFault, TextFault, take_lines};
use places::Place;
use std::alloc::Global;
use std::io::Read;
use version_pair::DocId;

/// Reads the witness text of a reader to its end, and returns its documents, each with its places; or the
/// first line that is refused, with its first cause, as `read_witness` reports them of the text.
///
/// The reader is asked for 32,768 bytes at a time, and for none after the line that is refused. Of a line
/// that is too long 65,537 bytes are taken, and of the 4,194,305th line none. At most one line is held, and
/// no more than 65,537 bytes of one.
///
/// Errors, whichever comes first: `Read` if the reader failed, an interruption included; `NoMemory`; and
/// inside `Ok` those of `read_witness`. The lines before the one at which it stopped are taken, and maybe a
/// prefix of that one.
pub fn read_witness_from<R: Read>(
    alloc: Global,
    input: &mut R,
) -> Result<Result<Vec<(DocId, Vec<Place>)>, TextFault>, InputFault>
    // If the reader's bytes are known, the result is what the definition gives for them, as that of
    // `read_witness` is.
    ensures reported { IfOk result (λ reported. IfSome (R.remaining input.old) (λ text. MatchResult reported
        (λ documents. witness_text text ≡ Ok (map doc_places documents.items))
        (λ fault. witness_text text ≡ Err fault))) }
    // No bytes after the first refused line are taken but those that the last read returned, 32,768 at most;
    // of that line and all before it 4,194,304 times 65,537 bytes at most.
    ensures taken { IsTakenFor witness_text (R.remaining input.old) (R.remaining input.new) }
    // If all lines are taken nothing is left in the reader.
    ensures end { IfOk result (λ reported. OnOk reported (OnSome (R.remaining input.old)
        (IsAtEnd (R.remaining input.new)))) }
{
    let mut reader = WitnessReader::new(alloc);
    match take_lines(alloc, &mut reader, input)? {
        Ok(()) => Ok(Ok(reader.finish())),
        Err(refused) => Ok(Err(refused.fault)),
    }
}
