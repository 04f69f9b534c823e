//! Steps of a document. The laws of `doc_register` prove more cases of the definition.

use doc_register::{DocState, Op, Reply, step};
use version_pair::Pair;

// Returns whether gets show a document, deleted or there.
fn are_shown(pair: Pair) -> bool {
    let gone = DocState::Gone(pair);
    let here = DocState::Here(pair, 4);
    let found = Reply::Found { pair, k: 4 };
    step(here, &Op::Get, &found, None) == Some(here)
        && step(gone, &Op::Get, &Reply::Missing, None) == Some(gone)
        && step(gone, &Op::Get, &found, None).is_none()
        && step(here, &Op::Get, &Reply::Conflict, None).is_none()
}

// Returns whether a write under the condition of the first pair is performed with the second one, also if
// its reply is a conflict that hides it.
fn is_swapped(first: Pair, second: Pair) -> bool {
    let here = DocState::Here(first, 4);
    let swap = Op::Index {
        k: 6,
        cond: Some(first),
    };
    let updated = Reply::Indexed {
        pair: second,
        created: false,
    };
    let written = Some(DocState::Here(second, 6));
    step(here, &swap, &updated, None) == written
        && step(here, &swap, &Reply::Conflict, Some(second)) == written
        && step(here, &swap, &Reply::Conflict, None).is_none()
}

// Returns whether a write without a condition is performed with the second pair, and replaces the document.
fn is_replaced(first: Pair, second: Pair) -> bool {
    let here = DocState::Here(first, 4);
    let plain = Op::Index { k: 6, cond: None };
    let updated = Reply::Indexed {
        pair: second,
        created: false,
    };
    step(here, &plain, &updated, None) == Some(DocState::Here(second, 6))
        && step(DocState::Never, &plain, &updated, None).is_none()
        && step(DocState::Here(second, 4), &plain, &updated, None).is_none()
}

// Returns whether a write under another condition than the document's pair is refused.
fn is_refused(first: Pair, second: Pair) -> bool {
    let here = DocState::Here(first, 4);
    let delete = Op::Delete { cond: Some(second) };
    step(here, &delete, &Reply::Conflict, None) == Some(here)
}

// Returns whether all of that holds of two pairs.
fn are_steps() -> Option<bool> {
    let first = Pair::new(1, 7)?;
    let second = Pair::new(2, 5)?;
    Some(
        are_shown(first)
            && is_swapped(first, second)
            && is_replaced(first, second)
            && is_refused(first, second),
    )
}

#[test]
fn steps(rt: HostRuntime) {
    assert!(rt; are_steps() == Some(true));
}
