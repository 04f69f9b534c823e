//! Texts of histories: an index performed with the pair 1/0 and one with 1/1, and gets of the same document.

/// The first index, called and answered before the second.
pub const WRITES: &str = r#"
{"e":"call","n":5,"id":"d","op":"index","k":1}
{"e":"reply","n":5,"status":201,"body":{"result":"created","_seq_no":0,"_primary_term":1}}
{"e":"call","n":6,"id":"d","op":"index","k":2,"if_seq_no":0,"if_primary_term":1}
{"e":"reply","n":6,"status":200,"body":{"result":"updated","_seq_no":1,"_primary_term":1}}
"#;

/// A get called after both were answered, which finds the first.
pub const STALE: &str = r#"
{"e":"call","n":7,"id":"d","op":"get"}
{"e":"reply","n":7,"status":200,"body":{"found":true,"_seq_no":0,"_primary_term":1,"_source":{"k":1}}}
"#;

/// A get called after both were answered, which finds the number of the second with a pair that no reply shows.
pub const UNKNOWN_PAIR: &str = r#"
{"e":"call","n":7,"id":"d","op":"get"}
{"e":"reply","n":7,"status":200,"body":{"found":true,"_seq_no":4,"_primary_term":1,"_source":{"k":2}}}
"#;

/// A get called after both were answered, which finds what nobody wrote.
pub const NOBODY: &str = r#"
{"e":"call","n":7,"id":"d","op":"get"}
{"e":"reply","n":7,"status":200,"body":{"found":true,"_seq_no":4,"_primary_term":1,"_source":{"k":9}}}
"#;

/// A get called after both were answered, which finds nothing.
pub const MISSING: &str = r#"
{"e":"call","n":7,"id":"d","op":"get"}
{"e":"reply","n":7,"status":404,"body":{"found":false}}
"#;

/// A delete whose outcome is lost, called before the get that finds nothing.
pub const LOST_DELETE: &str = r#"
{"e":"call","n":8,"id":"d","op":"delete","if_seq_no":1,"if_primary_term":1}
{"e":"lost","n":8}
"#;

/// The same, with the word of the recorder that nothing was performed.
pub const VOID_DELETE: &str = r#"
{"e":"call","n":8,"id":"d","op":"delete","if_seq_no":1,"if_primary_term":1}
{"e":"lost","n":8,"void":true}
"#;
