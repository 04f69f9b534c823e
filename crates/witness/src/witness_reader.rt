ghost use Rattle.std.specs.Prelude.{◌≡◌, ◌≤◌, [], IfErr, IfOk, OnErr, OnOk, Ok, Err, map};
ghost use Rattle.api_lines.specs.Faults.{IfTextReported};
ghost use Rattle.api_lines.specs.Lines.{HasNoLineFeed, most_lines};
ghost use Rattle.api_lines.specs.Texts.{next_line, so_far};
ghost use Rattle.places.specs.Documents.{doc_places};
ghost use Rattle.witness.specs.Text.{takes_value, witness_text};

use crate::documents::Documents;
use api_lines::{LineReader, ReadFault, take_text};
use places::Place;
use std::alloc::Global;
use std::marker::Model;
use version_pair::DocId;

/// A reader that takes a witness text line by line.
///
/// Contracts see the documents so far, each with its places, and the number of lines taken. The law
/// `laws::line_by_line` states for texts what `line` states for these.
#[derive(Debug, Drop)]
pub struct WitnessReader {
    documents: Documents,
    lines: u64,
}

impl Model for WitnessReader {
    ghost use Rattle.std.specs.Prelude.{◌≤◌, List};
    ghost use Rattle.api_lines.specs.Lines.{most_lines};
    ghost use Rattle.api_lines.specs.Texts.{SoFar, so_far};
    ghost use Rattle.places.specs.Documents.{DocPlaces};

    ghost Value = { SoFar (List DocPlaces) };

    ghost view = { λ r. so_far r.documents r.lines };

    ghost invariant = { λ r. r.lines ≤ most_lines };
}

impl WitnessReader {
    /// Returns a reader that has taken no line. It allocates nothing; documents are added in this memory
    /// later.
    pub fn new(alloc: Global) -> WitnessReader
        ensures { result ≡ so_far [] 0 }
    {
        WitnessReader {
            documents: Documents::new(alloc),
            lines: 0,
        }
    }

    /// Takes the next line, without its line feed; or refuses it with its first cause.
    ///
    /// Errors: those of `read_witness` for this line, in their order; `NoMemory` may come before any of them.
    /// A line that is refused leaves the reader as it was.
    pub fn line(&mut self, line: &[u8]) -> Result<(), ReadFault>
        // The line has no line feed in it.
        requires { HasNoLineFeed line.now }
        // A line that is taken adds what the definition gives.
        ensures ok { OnOk result (next_line takes_value self.old line.now ≡ Ok self.new) }
        // The lines that were taken are 4,194,304 at most.
        ensures within { self.new.lines ≤ most_lines }
        // An error other than `NoMemory` is that of the definition.
        ensures fault { IfErr result (λ fault. IfTextReported fault
            (λ reported. next_line takes_value self.old line.now ≡ Err reported)) }
        // An error leaves the reader as it was.
        ensures unchanged { OnErr result (self.new ≡ self.old) }
    {
        let number = self.lines + 1;
        let alloc = self.documents.allocator();
        match self.documents.take_line(alloc, number, line) {
            Ok(()) => {
                self.lines = number;
                Ok(())
            }
            Err(fault) => Err(fault.at(number)),
        }
    }

    /// Returns the documents of the lines that were taken, each with its places. It allocates nothing.
    pub fn finish(self) -> Vec<(DocId, Vec<Place>)>
        ensures { map doc_places result.items ≡ self.state }
    {
        self.documents.into_list()
    }
}

impl LineReader for WitnessReader {
    ghost use Rattle.std.specs.Prelude.{List};
    ghost use Rattle.places.specs.Documents.{DocPlaces};

    // The state is the documents so far, each with its places.
    ghost State = { List DocPlaces };

    // The value of a line adds the document or the place that the line gives.
    ghost takes = { takes_value };

    // The documents and the number of lines are those of the reader.
    ghost reached = { λ reader. reader };

    fn line(&mut self, line: &[u8]) -> Result<(), ReadFault> {
        WitnessReader::line(self, line)
    }
}

/// Returns the documents of a witness text, each with its places; or the first line that is refused, with its
/// first cause. So there are documents exactly if the bytes are a witness text, unless memory is refused.
///
/// A line `{"doc":"d"}` begins a document. Each line `{"rec":0}` after it is a place of the document, or,
/// with a pair, `{"rec":1,"seq":2,"term":3}`.
///
/// Errors of a line, in this order: `Lines` and `Long`, after which a blank line is passed over; `Json`;
/// `Shape`, also for a place before any document; `Id`; `Half`, if only one of `seq` and `term` is given;
/// `Range`; `Full`, after 2,097,152 documents and places. `NoMemory` may come before any of them.
pub fn read_witness(alloc: Global, text: &[u8]) -> Result<Vec<(DocId, Vec<Place>)>, ReadFault>
    // The documents are those that the definition gives for the bytes.
    ensures ok { IfOk result
        (λ documents. witness_text text.now ≡ Ok (map doc_places documents.items)) }
    // An error other than `NoMemory` is the line and the cause that the definition gives.
    ensures fault { IfErr result
        (λ fault. IfTextReported fault (λ reported. witness_text text.now ≡ Err reported)) }
{
    let mut reader = WitnessReader::new(alloc);
    take_text(&mut reader, text)?;
    Ok(reader.finish())
}
