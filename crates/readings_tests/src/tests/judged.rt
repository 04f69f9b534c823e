//! What the strict check judges.

use crate::tests::texts::{STALE, VOID_DELETE, WRITES};
use history::laws::texts_are_read_by_rules;
use history::{read_text, write};
use readings::{Reading, judged_history};
use std::alloc::Global;

// Returns the text of what the text of these parts is read as.
fn read_as(alloc: Global, reading: Reading, parts: [&str; 2]) -> Option<Vec<u8>> {
    let mut text = String::new(alloc);
    for part in parts {
        text.push_str(part).ok()?;
    }
    let Ok(read) = read_text(alloc, reading.rules(), text.as_bytes()) else {
        return None;
    };
    // So the void calls are lost, and there is room.
    texts_are_read_by_rules();
    let judged = judged_history(&read.history, &read.voids, reading).ok()?;
    write(alloc, &judged).ok()
}

// Numbers are twice the position, twins have the odd ones; the get is a lost call.
const OPENSEARCH: &str = r#"{"e":"call","id":"d","k":1,"n":0,"op":"index"}
{"e":"call","id":"d","k":1,"n":1,"op":"index"}
{"body":{"_id":"d","_primary_term":1,"_seq_no":0,"result":"created"},"e":"reply","n":0,"status":201}
{"e":"call","id":"d","if_primary_term":1,"if_seq_no":0,"k":2,"n":4,"op":"index"}
{"body":{"_id":"d","_primary_term":1,"_seq_no":1,"result":"updated"},"e":"reply","n":4,"status":200}
{"e":"call","id":"d","n":8,"op":"get"}
{"e":"lost","n":8}
"#;

#[test]
fn gets_are_lost_and_writes_have_twins(rt: HostRuntime) {
    let read = read_as(rt.alloc(), Reading::opensearch(), [WRITES, STALE]);
    assert!(rt; read.is_some_and(|text| text.as_slice() == OPENSEARCH.as_bytes()));
}

// Numbers and replies stay.
const STRICT: &str = r#"{"e":"call","id":"d","k":1,"n":5,"op":"index"}
{"body":{"_id":"d","_primary_term":1,"_seq_no":0,"result":"created"},"e":"reply","n":5,"status":201}
{"e":"call","id":"d","if_primary_term":1,"if_seq_no":0,"k":2,"n":6,"op":"index"}
{"body":{"_id":"d","_primary_term":1,"_seq_no":1,"result":"updated"},"e":"reply","n":6,"status":200}
{"e":"call","id":"d","n":7,"op":"get"}
{"body":{"_id":"d","_primary_term":1,"_seq_no":0,"_source":{"k":1},"found":true},"e":"reply","n":7,"status":200}
"#;

#[test]
fn strictly_read_a_history_stays(rt: HostRuntime) {
    let read = read_as(rt.alloc(), Reading::strict(), [WRITES, STALE]);
    assert!(rt; read.is_some_and(|text| text.as_slice() == STRICT.as_bytes()));
}

// The void delete is a get without a reply.
const WITHOUT_VOID: &str = r#"{"e":"call","id":"d","k":1,"n":0,"op":"index"}
{"e":"call","id":"d","k":1,"n":1,"op":"index"}
{"body":{"_id":"d","_primary_term":1,"_seq_no":0,"result":"created"},"e":"reply","n":0,"status":201}
{"e":"call","id":"d","if_primary_term":1,"if_seq_no":0,"k":2,"n":4,"op":"index"}
{"body":{"_id":"d","_primary_term":1,"_seq_no":1,"result":"updated"},"e":"reply","n":4,"status":200}
{"e":"call","id":"d","n":8,"op":"get"}
{"e":"lost","n":8}
"#;

#[test]
fn void_calls_change_nothing(rt: HostRuntime) {
    let read = read_as(rt.alloc(), Reading::opensearch(), [WRITES, VOID_DELETE]);
    assert!(rt; read.is_some_and(|text| text.as_slice() == WITHOUT_VOID.as_bytes()));
}
