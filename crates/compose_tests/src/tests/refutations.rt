//! Evidence against cases.

use crate::tests::cases::{PAIR_TWICE_OVER_DOCUMENTS, REFUSED_FOR_NOTHING};
use compose::{Refuted, refutes};
use doc_register::Conflicts;
use events::History;
use history::read;
use std::alloc::Global;

// Returns whether evidence is accepted, in one reading of a conflict and in the other.
fn is_accepted(alloc: Global, history: &History, evidence: Refuted) -> Option<[bool; 2]> {
    let plain = refutes(alloc, history, &evidence, Conflicts::Plain).ok()?;
    let maybe = refutes(alloc, history, &evidence, Conflicts::Maybe).ok()?;
    Some([plain, maybe])
}

// Returns the same of evidence against the history of a text.
fn accepted(alloc: Global, text: &str, evidence: Refuted) -> Option<[bool; 2]> {
    let history = read(alloc, text.as_bytes()).ok()?;
    is_accepted(alloc, &history, evidence)
}

// There is no call 9.
#[test]
fn calls_that_are_not_there(rt: HostRuntime) {
    for evidence in [
        Refuted::PairTwice(0, 9),
        Refuted::PairTwice(9, 0),
        Refuted::NoWriter(9),
        Refuted::StaleGet(0, 9),
        Refuted::StaleSwap(9, 1),
        Refuted::RuledOut(9),
    ] {
        let accepted = accepted(rt.alloc(), PAIR_TWICE_OVER_DOCUMENTS, evidence);
        assert!(rt; accepted == Some([false, false]));
    }
}

#[test]
fn a_document_is_ruled_out_at_one_call(rt: HostRuntime) {
    let text = REFUSED_FOR_NOTHING;
    for (call, wanted) in [(2, [true, false]), (0, [false, false])] {
        assert!(rt; accepted(rt.alloc(), text, Refuted::RuledOut(call)) == Some(wanted));
    }
}

#[test]
fn a_pair_is_taken_twice(rt: HostRuntime) {
    let accepted = accepted(
        rt.alloc(),
        PAIR_TWICE_OVER_DOCUMENTS,
        Refuted::PairTwice(0, 1),
    );
    assert!(rt; accepted == Some([true, true]));
}
