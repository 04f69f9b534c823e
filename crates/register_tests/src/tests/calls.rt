//! What calls, replies and states name.

use doc_register::{DocState, Op, Reply, exceeds, step};
use version_pair::Pair;

#[test]
fn conditions_and_values(rt: HostRuntime) {
    let cond = Pair::new(1, 7);
    for (op, condition, value) in [
        (Op::Get, None, None),
        (Op::Index { k: 4, cond }, cond, Some(4)),
        (Op::Delete { cond }, cond, None),
        (Op::Create { k: 4 }, None, Some(4)),
    ] {
        assert!(rt; op.condition() == condition && op.value() == value);
    }
}

// Returns whether each reply names the pair, if it should, and takes it, if it should.
fn are_named_and_taken() -> Option<bool> {
    let pair = Pair::new(1, 7)?;
    let found = Reply::Found { pair, k: 4 };
    let deleted = Reply::Deleted { pair, found: false };
    let named = [found.pair(), deleted.pair(), Reply::Conflict.pair()];
    let taken = [
        found.pair_taken(),
        deleted.pair_taken(),
        Reply::Conflict.pair_taken(),
    ];
    Some(named == [Some(pair), Some(pair), None] && taken == [None, Some(pair), None])
}

#[test]
fn pairs_of_replies(rt: HostRuntime) {
    assert!(rt; are_named_and_taken() == Some(true));
}

// Returns whether a write makes this state of a document that was never written.
fn is_made(state: DocState) -> Option<bool> {
    let (op, reply) = state.making()?;
    Some(step(DocState::Never, &op, &reply, None) == Some(state))
}

// Returns whether states with a pair are made, and have the pair, which isn't greater than itself.
fn are_made() -> Option<bool> {
    let pair = Pair::new(1, 7)?;
    let gone = DocState::Gone(pair);
    let here = DocState::Here(pair, 4);
    let are_made = is_made(gone)? && is_made(here)?;
    let pairs = [gone.pair(), here.pair()];
    Some(are_made && pairs == [Some(pair); 2] && !exceeds(pair, gone) && !exceeds(pair, here))
}

#[test]
fn states_made(rt: HostRuntime) {
    assert!(rt; are_made() == Some(true));
    assert!(rt; DocState::Never.making().is_none());
}
