//! Texts that are read by rules.

use api_lines::{ReadFault, TextCause, TextFault};
use history::{Failed, TextRules, Writes, read_text};
use std::alloc::Global;

// Three calls whose outcome is lost. Of the first it is said that nothing was performed; of the second the
// contrary; of the third nothing. On the lines of the calls and of the reply the field doesn't count. A key
// with an escape and a number with a fraction are read in other ways than the rest.
const SAID: &str = r#"{"e":"call","id":"d","k":1,"n":7,"op":"index","void":null}
{"e":"call","id":"d","k":2,"n":3,"op":"create","void":1}
{"e":"call","id":"d","n":5,"op":"get"}
{"e":"call","id":"d","n":4,"op":"delete"}
{"e":"lost","n":7,"vo\u0069d":true}
{"e":"lost","n":3,"void":false,"t":1.5}
{"e":"lost","n":4,"void":true,"t":1.5}
{"e":"reply","n":5,"status":404,"body":{"_id":"d","found":false},"void":"x"}
"#;

const CALL: &str = r#"{"e":"call","id":"d","k":1,"n":0,"op":"index"}"#;

const TRUSTED: TextRules = TextRules {
    failed: Failed::Trusted,
    writes: Writes::Once,
};

// Returns the numbers of the calls of which the text says that nothing was performed, by the rules.
fn voids_of(alloc: Global, rules: TextRules, text: &str) -> Option<Vec<u64>> {
    let read = read_text(alloc, rules, text.as_bytes()).ok()?;
    let mut numbers = Vec::new(alloc);
    for number in read.voids.numbers() {
        numbers.push(*number).ok()?;
    }
    for number in 0..9 {
        if read.voids.contains(number) != numbers.contains(&number) {
            return None;
        }
    }
    Some(numbers)
}

// Returns whether the second line, a lost line with these further members, is refused in this way.
fn is_refused(alloc: Global, rules: TextRules, members: &str, cause: TextCause) -> Option<bool> {
    let text = format!(in alloc; "{CALL}\n{{\"e\":\"lost\",{members}}}\n").ok()?;
    let fault = TextFault { line: 2, cause };
    match read_text(alloc, rules, text.as_bytes()) {
        Ok(_) => Some(false),
        Err(reported) => Some(reported == ReadFault::Text(fault)),
    }
}

#[test]
fn the_strict_rules_ignore_what_lost_lines_say(rt: HostRuntime) {
    let alloc = rt.alloc();
    let voids = voids_of(alloc, TextRules::strict(), SAID);
    assert!(rt; voids.is_some_and(|numbers| numbers.is_empty()));
    let ignored = is_refused(
        alloc,
        TextRules::strict(),
        "\"n\":-1,\"void\":null",
        TextCause::Range,
    );
    assert!(rt; ignored == Some(true));
}

#[test]
fn trusted_lost_lines_are_numbered_in_their_order(rt: HostRuntime) {
    let alloc = rt.alloc();
    let voids = voids_of(alloc, TRUSTED, SAID);
    assert!(rt; voids.is_some_and(|numbers| numbers.as_slice() == [7, 4].as_slice()));
}

#[test]
fn trusted_fields_of_another_kind_are_shape(rt: HostRuntime) {
    let alloc = rt.alloc();
    for value in ["null", "1", "1.5", "\"true\"", "[]", "{}"] {
        let members = format!(in alloc; "\"n\":0,\"void\":{value}").unwrap_or_else(|_| String::new(
            alloc,
        ));
        assert!(rt; is_refused(alloc, TRUSTED, members.as_str(), TextCause::Shape) == Some(true));
    }
    let before_range = is_refused(alloc, TRUSTED, "\"n\":-1,\"void\":null", TextCause::Shape);
    assert!(rt; before_range == Some(true));
    let range = is_refused(alloc, TRUSTED, "\"n\":-1,\"void\":true", TextCause::Range);
    assert!(rt; range == Some(true));
    let before_no_call = is_refused(alloc, TRUSTED, "\"n\":1,\"void\":null", TextCause::Shape);
    assert!(rt; before_no_call == Some(true));
    let no_call = is_refused(alloc, TRUSTED, "\"n\":1,\"void\":true", TextCause::NoCall);
    assert!(rt; no_call == Some(true));
}
