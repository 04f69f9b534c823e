//! The greatest numbers that a history names.

use history::read;
use std::alloc::Global;

const TERM_BEFORE_SEQUENCE: &str = r#"{"e":"call","n":0,"id":"d","op":"index","k":1}
{"e":"reply","n":0,"status":201,"body":{"_id":"d","result":"created","_seq_no":7,"_primary_term":1}}
{"e":"call","n":1,"id":"d","op":"index","k":2}
{"e":"reply","n":1,"status":200,"body":{"_id":"d","result":"updated","_seq_no":5,"_primary_term":2}}
"#;

const GREATEST_SEQUENCE_NUMBER: &str =
    r#"{"e":"call","n":0,"id":"d","op":"delete","if_seq_no":9223372036854775807,"if_primary_term":1}"#;

// Returns the greatest numbers that the history of a text names.
fn seen_of(alloc: Global, text: &str) -> Option<(u64, u64)> {
    let seen = read(alloc, text.as_bytes()).ok()?.seen();
    Some((seen.term, seen.seq))
}

#[test]
fn greatest_numbers(rt: HostRuntime) {
    for (text, want) in [
        ("", (0, 0)),
        (r#"{"e":"call","n":9,"id":"d","op":"create","k":4}"#, (0, 0)),
        (TERM_BEFORE_SEQUENCE, (2, 7)),
        (GREATEST_SEQUENCE_NUMBER, (1, 9_223_372_036_854_775_807)),
    ] {
        assert_eq!(rt; seen_of(rt.alloc(), text), Some(want), "{text}");
    }
}
