//! Histories read line by line.

use api_lines::lines::first_line;
use api_lines::{ReadFault, TextCause, TextFault};
use history::{HistoryReader, write};
use std::alloc::Global;

const CALL: &str = r#"{"e":"call","id":"d","k":1,"n":0,"op":"index"}"#;

const REPLY: &str =
    r#"{"body":{"_id":"d","_primary_term":1,"_seq_no":0,"result":"created"},"e":"reply","n":0,"status":201}"#;

const REPLY_OF_ANOTHER_DOCUMENT: &str =
    r#"{"body":{"_id":"x","_primary_term":1,"_seq_no":0,"result":"created"},"e":"reply","n":0,"status":201}"#;

// What is said of a line.
type Taken = Result<(), ReadFault>;

fn refused(line: u64, cause: TextCause) -> Taken {
    Err(ReadFault::Text(TextFault { line, cause }))
}

// Returns what a reader says of a line, which is not empty.
fn taken(reader: &mut HistoryReader, line: &str) -> Option<Taken> {
    if line.is_empty() {
        return None;
    }
    Some(reader.line(first_line(line.as_bytes()).0))
}

// Returns whether a reader says of a line what it should, and refuses an open bracket as the line with this
// number before it.
fn is_taken(reader: &mut HistoryReader, number: u64, line: &str, wanted: Taken) -> bool {
    taken(reader, "[") == Some(refused(number, TextCause::Json))
        && taken(reader, line) == Some(wanted)
}

// Returns whether the call is taken, and its reply is refused as a stranger's; then the line is still the
// second one, and another reply is taken.
fn are_taken(reader: &mut HistoryReader) -> bool {
    let stranger = refused(2, TextCause::Stranger);
    is_taken(reader, 1, CALL, Ok(()))
        && is_taken(reader, 2, REPLY_OF_ANOTHER_DOCUMENT, stranger)
        && is_taken(reader, 2, REPLY, Ok(()))
        && taken(reader, "[") == Some(refused(3, TextCause::Json))
}

// Returns whether the history has the lines that were taken.
fn is_read(alloc: Global) -> Option<bool> {
    let mut reader = HistoryReader::new(alloc);
    let are_taken = are_taken(&mut reader);
    let text = write(alloc, &reader.finish()).ok()?;
    let wanted = format!(in alloc; "{CALL}\n{REPLY}\n").ok()?;
    Some(are_taken && text.as_slice() == wanted.as_bytes())
}

#[test]
fn a_refused_line_changes_nothing(rt: HostRuntime) {
    assert!(rt; is_read(rt.alloc()) == Some(true));
}
