//! Gets that any copy may answer, judged one by one.

use crate::tests::texts::{LOST_DELETE, MISSING, NOBODY, STALE, UNKNOWN_PAIR, VOID_DELETE, WRITES};
use evidence::Refuted;
use history::laws::texts_are_read_by_rules;
use history::read_text;
use readings::{Reading, Writes, unexplained_get};
use std::alloc::Global;

// Returns what shows that a get of the text of these parts isn't explained, if one isn't.
fn unexplained(alloc: Global, reading: Reading, parts: [&str; 3]) -> Option<Option<Refuted>> {
    let mut text = String::new(alloc);
    for part in parts {
        text.push_str(part).ok()?;
    }
    let Ok(read) = read_text(alloc, reading.rules(), text.as_bytes()) else {
        return None;
    };
    // So the void calls are lost.
    texts_are_read_by_rules();
    let found = unexplained_get(alloc, &read.history, &read.voids, reading).ok()?;
    Some(found.map(|get| get.evidence))
}

// The same as OpenSearch's documentation has it, but for writes that are performed once.
fn once() -> Reading {
    Reading {
        writes: Writes::Once,
        ..Reading::opensearch()
    }
}

#[test]
fn a_get_is_older_than_what_was_acknowledged(rt: HostRuntime) {
    let found = unexplained(rt.alloc(), Reading::opensearch(), [WRITES, STALE, ""]);
    assert!(rt; found == Some(Some(Refuted::StaleGet(7, 6))));
}

// Its writer is called only after it was answered.
#[test]
fn a_get_found_what_is_written_later(rt: HostRuntime) {
    let found = unexplained(rt.alloc(), Reading::opensearch(), [STALE, WRITES, ""]);
    assert!(rt; found == Some(Some(Refuted::NoWriter(7))));
}

#[test]
fn a_get_found_what_nobody_wrote(rt: HostRuntime) {
    let found = unexplained(rt.alloc(), Reading::opensearch(), [WRITES, NOBODY, ""]);
    assert!(rt; found == Some(Some(Refuted::NoWriter(7))));
}

// A second performance may have given the document the pair, unless writes are performed once.
#[test]
fn a_get_found_a_pair_that_no_reply_shows(rt: HostRuntime) {
    let parts = [WRITES, UNKNOWN_PAIR, ""];
    assert!(rt; unexplained(rt.alloc(), Reading::opensearch(), parts) == Some(None));
    assert!(rt; unexplained(rt.alloc(), once(), parts) == Some(Some(Refuted::NoWriter(7))));
}

#[test]
fn a_get_missed_a_write(rt: HostRuntime) {
    let found = unexplained(rt.alloc(), Reading::opensearch(), [WRITES, MISSING, ""]);
    assert!(rt; found == Some(Some(Refuted::MissedWrite(7, 6))));
}

// A lost delete may have removed the document, unless it is trusted that it did nothing.
#[test]
fn a_delete_explains_that_nothing_was_found(rt: HostRuntime) {
    let lost = [WRITES, LOST_DELETE, MISSING];
    assert!(rt; unexplained(rt.alloc(), Reading::opensearch(), lost) == Some(None));
    let void = [WRITES, VOID_DELETE, MISSING];
    assert!(rt;
        unexplained(rt.alloc(), Reading::opensearch(), void)
            == Some(Some(Refuted::MissedWrite(7, 6)))
    );
}
