//! Histories written as texts.

use history::{read, write};
use std::alloc::Global;

// Members in another order, and some that are not written.
const INDEX_THEN_GET: &str = r#"{"e":"call","n":0,"id":"d","op":"index","k":1}
{"e":"reply","n":0,"status":201,"body":{"_index":"i","_id":"d","_version":1,"result":"created","_shards":{"total":2,"successful":1,"failed":0},"_seq_no":0,"_primary_term":1}}
{"e":"call","n":1,"id":"d","op":"get"}
{"e":"reply","n":1,"status":200,"body":{"_index":"i","_id":"d","_version":1,"_seq_no":0,"_primary_term":1,"found":true,"_source":{"k":1}}}
"#;

const INDEX_THEN_GET_WRITTEN: &str = r#"{"e":"call","id":"d","k":1,"n":0,"op":"index"}
{"body":{"_id":"d","_primary_term":1,"_seq_no":0,"result":"created"},"e":"reply","n":0,"status":201}
{"e":"call","id":"d","n":1,"op":"get"}
{"body":{"_id":"d","_primary_term":1,"_seq_no":0,"_source":{"k":1},"found":true},"e":"reply","n":1,"status":200}
"#;

const CALLS_ON_A_SHARD: &str = r#"{"e":"call","id":"a","n":0,"op":"get","shard":3}
{"e":"call","id":"a","k":7,"n":1,"op":"create","shard":3}
{"e":"call","id":"a","if_primary_term":1,"if_seq_no":0,"n":2,"op":"delete","shard":3}
{"e":"call","id":"a","if_primary_term":1,"if_seq_no":0,"k":2,"n":3,"op":"index","shard":3}
{"e":"lost","n":1}
"#;

// Returns whether the history of a text is written as wanted.
fn is_written(alloc: Global, text: &str, wanted: &str) -> Option<bool> {
    let written = write(alloc, &read(alloc, text.as_bytes()).ok()?).ok()?;
    Some(written.as_slice() == wanted.as_bytes())
}

#[test]
fn histories_written(rt: HostRuntime) {
    for (text, wanted) in [
        ("", ""),
        (INDEX_THEN_GET, INDEX_THEN_GET_WRITTEN),
        (INDEX_THEN_GET_WRITTEN, INDEX_THEN_GET_WRITTEN),
        (CALLS_ON_A_SHARD, CALLS_ON_A_SHARD),
    ] {
        assert!(rt;
            is_written(rt.alloc(), text, wanted) == Some(true),
            "{text}"
        );
    }
}
