//! Cases of histories.

// The case pair-twice-over-documents.
pub const PAIR_TWICE_OVER_DOCUMENTS: &str = r#"{"e":"call","n":0,"id":"a","op":"index","k":1}
{"e":"reply","n":0,"status":201,"body":{"_id":"a","result":"created","_seq_no":0,"_primary_term":1}}
{"e":"call","n":1,"id":"b","op":"index","k":2}
{"e":"reply","n":1,"status":201,"body":{"_id":"b","result":"created","_seq_no":0,"_primary_term":1}}
"#;

// A write without a condition is refused, and the outcome of a write of another document is lost
// (indeterminate).
pub const REFUSED_FOR_NOTHING: &str = r#"{"e":"call","n":0,"id":"d","op":"index","k":1}
{"e":"reply","n":0,"status":201,"body":{"_id":"d","result":"created","_seq_no":0,"_primary_term":1}}
{"e":"call","n":1,"id":"e","op":"index","k":2}
{"e":"lost","n":1}
{"e":"call","n":2,"id":"d","op":"index","k":3}
{"e":"reply","n":2,"status":409,"body":{"error":{"type":"version_conflict_engine_exception"}}}
"#;

// The case documents-interleaved: neither document can come before the other.
pub const DOCUMENTS_INTERLEAVED: &str = r#"{"e":"call","n":0,"id":"a","op":"index","k":1}
{"e":"call","n":1,"id":"b","op":"index","k":2}
{"e":"reply","n":0,"status":201,"body":{"_id":"a","result":"created","_seq_no":0,"_primary_term":1}}
{"e":"reply","n":1,"status":201,"body":{"_id":"b","result":"created","_seq_no":1,"_primary_term":1}}
{"e":"call","n":2,"id":"a","op":"get"}
{"e":"call","n":3,"id":"b","op":"get"}
{"e":"reply","n":2,"status":200,"body":{"_id":"a","_seq_no":0,"_primary_term":1,"found":true,"_source":{"k":1}}}
{"e":"reply","n":3,"status":200,"body":{"_id":"b","_seq_no":1,"_primary_term":1,"found":true,"_source":{"k":2}}}
"#;
