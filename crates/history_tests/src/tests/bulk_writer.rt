//! Texts of bulk requests and their replies.

use history::bulk_text;
use std::alloc::Global;

// The body of the cases `bulk` and `bulk-item-missing`.
const BODY: &str = r#"{"index":{"_index":"i","_id":"a"}}
{"k":1}
{"delete":{"_index":"i","_id":"b"}}
{"index":{"_index":"i","_id":"a","if_seq_no":0,"if_primary_term":1}}
{"k":2}
"#;

const REPLY: &str =
    r#"{"took":1,"errors":true,"items":[{"index":{"_id":"a","status":201,"result":"created","_seq_no":0,"_primary_term":1}},{"delete":{"_id":"b","status":404,"result":"not_found","_seq_no":1,"_primary_term":1}},{"index":{"_id":"a","status":409,"error":{"type":"version_conflict_engine_exception","reason":"x"}}}]}"#;

const TEXT: &str = r#"{"e":"call","id":"a","k":1,"n":0,"op":"index"}
{"e":"call","id":"b","n":1,"op":"delete"}
{"e":"call","id":"a","if_primary_term":1,"if_seq_no":0,"k":2,"n":2,"op":"index"}
{"body":{"_id":"a","_primary_term":1,"_seq_no":0,"result":"created"},"e":"reply","n":0,"status":201}
{"body":{"_id":"b","_primary_term":1,"_seq_no":1,"result":"not_found"},"e":"reply","n":1,"status":404}
{"body":{"error":{"type":"version_conflict_engine_exception"}},"e":"reply","n":2,"status":409}
"#;

// A reply that isn't read leaves the outcome of each call unknown.
const TEXT_FROM_LAST_NUMBERS: &str =
    r#"{"e":"call","id":"a","k":1,"n":18446744073709551613,"op":"index"}
{"e":"call","id":"b","n":18446744073709551614,"op":"delete"}
{"e":"call","id":"a","if_primary_term":1,"if_seq_no":0,"k":2,"n":18446744073709551615,"op":"index"}
{"e":"lost","n":18446744073709551613}
{"e":"lost","n":18446744073709551614}
{"e":"lost","n":18446744073709551615}
"#;

// Returns whether the bulk and this reply to it give the text.
fn is_text(alloc: Global, first: u64, status: u16, reply: &str, want: &str) -> Option<bool> {
    let text = bulk_text(alloc, first, BODY.as_bytes(), status, reply.as_bytes()).ok()?;
    Some(text.as_slice() == want.as_bytes())
}

#[test]
fn bulks_written(rt: HostRuntime) {
    for (first, status, reply, want) in [
        (0, 200, REPLY, TEXT),
        (u64::MAX - 2, 503, "{", TEXT_FROM_LAST_NUMBERS),
    ] {
        assert_eq!(rt;
            is_text(rt.alloc(), first, status, reply, want),
            Some(true),
            "{first}"
        );
    }
}
