//! Witness texts read whole and line by line.

use api_lines::lines::first_line;
use api_lines::{ReadFault, TextCause, TextFault};
use places::Place;
use std::alloc::Global;
use version_pair::{DocId, Pair};
use witness::{WitnessReader, read_witness};

const TWO_DOCUMENTS: &str =
    "\r\n{\"doc\":\"a\"}\r\n \t\n{\"rec\" : 7} \r\n\n{\"doc\":\"b\"}\n{\"rec\":1,\"seq\":4,\"term\":2}";

const HALF: &str = "\n \t\r\n{\"doc\":\"d\"}\n\n{\"rec\":0,\"seq\":1}\n{\"rec\":";

// What is read of a text.
type Documents = Vec<(DocId, Vec<Place>)>;

// Returns whether this is the only place of the document of this id.
fn is_document(document: &(DocId, Vec<Place>), id: &str, place: Place) -> bool {
    document.0.as_str() == id && document.1.as_slice() == [place].as_slice()
}

// Returns whether these are the two documents.
fn are_two(documents: &[(DocId, Vec<Place>)]) -> bool {
    let first = Place { rec: 7, pair: None };
    let second = Place {
        rec: 1,
        pair: Pair::new(2, 4),
    };
    match documents {
        [one, other] => is_document(one, "a", first) && is_document(other, "b", second),
        _ => false,
    }
}

// Returns what a reader reports of the lines of a text, handed over one by one. An open bracket before each
// line is refused, and changes nothing.
fn read_by_line(alloc: Global, text: &str) -> Result<Documents, ReadFault> {
    let mut reader = WitnessReader::new(alloc);
    let mut rest = text.as_bytes();
    for _ in 0..20 {
        if rest.is_empty() {
            break;
        }
        let (line, after) = first_line(rest);
        let _ = reader.line(b"[");
        reader.line(line)?;
        rest = after;
    }
    Ok(reader.finish())
}

// Returns whether the two documents are read whole and by line.
fn are_read(alloc: Global) -> Option<bool> {
    let whole = read_witness(alloc, TWO_DOCUMENTS.as_bytes()).ok()?;
    let by_line = read_by_line(alloc, TWO_DOCUMENTS).ok()?;
    Some(are_two(&whole) && are_two(&by_line))
}

#[test]
fn lines_give_what_their_text_gives(rt: HostRuntime) {
    assert!(rt; are_read(rt.alloc()) == Some(true));
    let fault = ReadFault::Text(TextFault {
        line: 5,
        cause: TextCause::Half,
    });
    assert!(rt; read_witness(rt.alloc(), HALF.as_bytes()).err() == Some(fault));
    assert!(rt; read_by_line(rt.alloc(), HALF).err() == Some(fault));
}
