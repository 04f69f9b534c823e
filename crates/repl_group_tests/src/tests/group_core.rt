//! The core of a group, step by step.

use crate::tests::script::{Act, Script, has_replies, is_played, replies};
use crate::tests::testing::{FAULTS, deleted, found, indexed};
use doc_register::{Op, Reply};
use repl_group::{Answer, Core, CoreFault, Fault, Step, submit_step};
use std::alloc::Global;
use std::test::Fail;
use version_pair::DocId;
use workload::{TargetFault, Ticket};

// Returns the fault of a group with that many copies, if it has one.
fn fault_of(alloc: Global, copies: u32) -> Option<CoreFault> {
    Core::new(alloc, copies, Fault::None).err()
}

#[test]
fn copy_counts(rt: HostRuntime) {
    assert!(rt; fault_of(rt.alloc(), 0) == Some(CoreFault::Copies));
    assert!(rt; fault_of(rt.alloc(), 6) == Some(CoreFault::Copies));
}

// A get waits for a write in flight, which a promotion loses.
const PROMOTED: Script = &[
    (Act::Index(1), Answer::Ticket(0)),
    (Act::Serve(0), Answer::Done),
    (Act::Ack(0), Answer::NotNow),
    (Act::Copy(0, 1), Answer::Done),
    (Act::Ack(0), Answer::Done),
    (Act::Index(2), Answer::Ticket(1)),
    (Act::Serve(1), Answer::Done),
    (Act::Get, Answer::Ticket(2)),
    (Act::Serve(2), Answer::Waits),
    (Act::Promote(1), Answer::Done),
    (Act::Serve(2), Answer::Done),
    (Act::Ack(1), Answer::NotNow),
    (Act::Index(3), Answer::Ticket(3)),
    (Act::Serve(3), Answer::Done),
    (Act::Copy(3, 0), Answer::Done),
    (Act::Ack(3), Answer::Done),
];

// Returns the replies of a new core after that, if it answers so.
fn replies_promoted(alloc: Global, id: &DocId) -> Result<Option<[Option<Reply>; 4]>, Fail> {
    let mut core = Core::new(alloc, 2, Fault::None)?;
    Ok(replies(&mut core, id, PROMOTED)?)
}

#[test]
fn core_promotes(rt: HostRuntime) -> Result<(), Fail> {
    let wanted = [
        indexed(1, 0, true),
        None,
        found(1, 0, 1),
        indexed(2, 1, false),
    ];
    let id = DocId::new(rt.alloc(), "d")?;
    assert!(rt; replies_promoted(rt.alloc(), &id)? == Some(wanted));
    Ok(())
}

// The case group-dirty: a get sees a write in flight, which a promotion loses.
const DIRTY: Script = &[
    (Act::Index(1), Answer::Ticket(0)),
    (Act::Serve(0), Answer::Done),
    (Act::Copy(0, 1), Answer::Done),
    (Act::Ack(0), Answer::Done),
    (Act::Index(2), Answer::Ticket(1)),
    (Act::Serve(1), Answer::Done),
    (Act::Get, Answer::Ticket(2)),
    (Act::Serve(2), Answer::Done),
    (Act::Promote(1), Answer::Done),
    (Act::Get, Answer::Ticket(3)),
    (Act::Serve(3), Answer::Done),
];

#[test]
fn dirty(rt: HostRuntime) {
    let wanted = [indexed(1, 0, true), None, found(1, 1, 2), found(1, 0, 1)];
    assert!(rt; has_replies(rt.alloc(), 2, Fault::Dirty, DIRTY, wanted));
}

// The case group-early: a write that one copy holds is acknowledged, and another copy becomes the primary.
const EARLY: Script = &[
    (Act::Index(1), Answer::Ticket(0)),
    (Act::Serve(0), Answer::Done),
    (Act::Ack(0), Answer::Done),
    (Act::Promote(1), Answer::Done),
    (Act::Get, Answer::Ticket(1)),
    (Act::Serve(1), Answer::Done),
];

#[test]
fn early(rt: HostRuntime) {
    let wanted = [indexed(1, 0, true), Some(Reply::Missing), None, None];
    assert!(rt; has_replies(rt.alloc(), 2, Fault::Early, EARLY, wanted));
}

// The case group-stale: a copy that misses a write serves a get.
const STALE: Script = &[
    (Act::Index(1), Answer::Ticket(0)),
    (Act::Serve(0), Answer::Done),
    (Act::Copy(0, 1), Answer::Done),
    (Act::Ack(0), Answer::Done),
    (Act::Cut(1), Answer::Done),
    (Act::Drop(1), Answer::Done),
    (Act::Index(2), Answer::Ticket(1)),
    (Act::Serve(1), Answer::Done),
    (Act::Ack(1), Answer::Done),
    (Act::Get, Answer::Ticket(2)),
    (Act::Serve(2), Answer::Done),
    (Act::Get, Answer::Ticket(3)),
    (Act::Serve(3), Answer::Done),
];

#[test]
fn stale(rt: HostRuntime) {
    let wanted = [
        indexed(1, 0, true),
        indexed(1, 1, false),
        found(1, 1, 2),
        found(1, 0, 1),
    ];
    assert!(rt; has_replies(rt.alloc(), 2, Fault::Stale, STALE, wanted));
}

// The case group-blind: two writes are performed under the same condition.
const BLIND: Script = &[
    (Act::Index(1), Answer::Ticket(0)),
    (Act::Serve(0), Answer::Done),
    (Act::Ack(0), Answer::Done),
    (Act::Swap(2), Answer::Ticket(1)),
    (Act::Serve(1), Answer::Done),
    (Act::Ack(1), Answer::Done),
    (Act::Swap(3), Answer::Ticket(2)),
    (Act::Serve(2), Answer::Done),
    (Act::Ack(2), Answer::Done),
];

#[test]
fn blind(rt: HostRuntime) {
    let wanted = [
        indexed(1, 0, true),
        indexed(1, 1, false),
        indexed(1, 2, false),
        None,
    ];
    assert!(rt; has_replies(rt.alloc(), 1, Fault::Blind, BLIND, wanted));
}

// A get is served before the write in flight has been copied.
const UNCOPIED: Script = &[
    (Act::Index(1), Answer::Ticket(0)),
    (Act::Serve(0), Answer::Done),
    (Act::Get, Answer::Ticket(1)),
    (Act::Serve(1), Answer::Done),
];

// A write under a condition that a missing document doesn't meet is performed, or refused.
const PERFORMED: Script = &[
    (Act::Swap(1), Answer::Ticket(0)),
    (Act::Serve(0), Answer::Done),
    (Act::Ack(0), Answer::Done),
];

const REFUSED: Script = &[
    (Act::Swap(1), Answer::Ticket(0)),
    (Act::Serve(0), Answer::Done),
    (Act::Ack(0), Answer::NotNow),
];

#[test]
fn named_faults(rt: HostRuntime) {
    let missing = [None, Some(Reply::Missing), None, None];
    let performed = [indexed(1, 0, true), None, None, None];
    let refused = [Some(Reply::Conflict), None, None, None];
    for (copies, fault, script, wanted) in [
        (2, Fault::Stale, UNCOPIED, missing),
        (1, Fault::Blind, PERFORMED, performed),
        (1, Fault::None, REFUSED, refused),
    ] {
        assert!(rt;
            has_replies(rt.alloc(), copies, fault, script, wanted),
            "{fault:?}"
        );
    }
}

// The case group-same-term: a write of one document is performed and lost by a promotion, after which one of
// another document is performed. If the term is kept, both get the same pair.
const LOST: Script = &[
    (Act::Index(1), Answer::Ticket(0)),
    (Act::Serve(0), Answer::Done),
    (Act::Promote(1), Answer::Done),
];

const NEXT: Script = &[
    (Act::Index(2), Answer::Ticket(1)),
    (Act::Serve(1), Answer::Done),
    (Act::Copy(1, 0), Answer::Done),
    (Act::Ack(1), Answer::Done),
];

// Returns the replies of a core after both, if it answers so.
fn replies_to_both(core: &mut Core, first: &DocId, second: &DocId) -> Option<[Option<Reply>; 4]> {
    if is_played(core, first, LOST).ok()? {
        replies(core, second, NEXT).ok()?
    } else {
        None
    }
}

// Returns the replies of a new core, whose documents have these ids.
fn replies_after_loss(
    alloc: Global,
    fault: Fault,
    first: &str,
    second: &str,
) -> Option<[Option<Reply>; 4]> {
    let first = DocId::new(alloc, first).ok()?;
    let second = DocId::new(alloc, second).ok()?;
    let mut core = Core::new(alloc, 2, fault).ok()?;
    replies_to_both(&mut core, &first, &second)
}

#[test]
fn kept_term_gives_one_pair_to_two_tickets(rt: HostRuntime) {
    for (fault, term) in [(Fault::SameTerm, 1), (Fault::None, 2)] {
        let wanted = Some([None, indexed(term, 0, true), None, None]);
        assert!(rt; replies_after_loss(rt.alloc(), fault, "a", "b") == wanted);
        assert!(rt; replies_after_loss(rt.alloc(), fault, "d", "d") == wanted);
    }
}

// A create of a document that exists.
const CREATED: Script = &[
    (Act::Create(1), Answer::Ticket(0)),
    (Act::Serve(0), Answer::Done),
    (Act::Ack(0), Answer::Done),
    (Act::Create(2), Answer::Ticket(1)),
    (Act::Serve(1), Answer::Done),
];

#[test]
fn create_of_a_live_document(rt: HostRuntime) {
    let wanted = [indexed(1, 0, true), Some(Reply::Conflict), None, None];
    for fault in FAULTS {
        assert!(rt;
            has_replies(rt.alloc(), 1, fault, CREATED, wanted),
            "{fault:?}"
        );
    }
}

// A copy that was cut off misses a write; healed, it takes what the primary holds, and can lead.
const HEALED: Script = &[
    (Act::Cut(2), Answer::Done),
    (Act::Drop(2), Answer::Done),
    (Act::Delete, Answer::Ticket(0)),
    (Act::Serve(0), Answer::Done),
    (Act::Copy(0, 1), Answer::Done),
    (Act::Ack(0), Answer::Done),
    (Act::Promote(2), Answer::NotNow),
    (Act::Heal(2), Answer::Done),
    (Act::Promote(2), Answer::Done),
    (Act::Index(1), Answer::Ticket(1)),
    (Act::Serve(1), Answer::Done),
    (Act::Copy(1, 0), Answer::Done),
    (Act::Copy(1, 1), Answer::Done),
    (Act::Ack(1), Answer::Done),
];

#[test]
fn cut_copy_catches_up(rt: HostRuntime) {
    let wanted = [deleted(1, 0, false), indexed(2, 1, true), None, None];
    assert!(rt; has_replies(rt.alloc(), 3, Fault::None, HEALED, wanted));
}

// The primary isn't promoted. A copy is dropped, and another one is promoted. A group of three copies has no
// copy 3 and no ticket 0.
const LED: Script = &[
    (Act::Promote(0), Answer::NotNow),
    (Act::Cut(1), Answer::Done),
    (Act::Drop(1), Answer::Done),
    (Act::Promote(2), Answer::Done),
    (Act::Promote(2), Answer::NotNow),
    (Act::Cut(3), Answer::NotNow),
    (Act::Serve(0), Answer::NotNow),
];

// Returns whether the copy 2 leads after that, and is in sync, but not the copies 1 and 3.
fn is_led(core: &mut Core, id: &DocId) -> bool {
    is_played(core, id, LED) == Ok(true)
        && core.term() == 2
        && core.primary() == 2
        && [core.in_sync(1), core.in_sync(2), core.in_sync(3)] == [false, true, false]
}

// Returns whether that is so of a new core.
fn is_new_led(alloc: Global, id: &DocId) -> Option<bool> {
    let mut core = Core::new(alloc, 3, Fault::None).ok()?;
    Some(is_led(&mut core, id))
}

// Returns whether that is so of a group of the document `d`.
fn is_promoted(alloc: Global) -> Option<bool> {
    let id = DocId::new(alloc, "d").ok()?;
    is_new_led(alloc, &id)
}

#[test]
fn primary_promoted(rt: HostRuntime) {
    assert!(rt; is_promoted(rt.alloc()) == Some(true));
}

// Fills a group with tickets, and returns whether each was given.
fn is_filled(core: &mut Core, id: &DocId) -> bool {
    for ticket in 0..524_288 {
        if submit_step(core, id, &Op::Get) != Ok(Ticket(ticket)) {
            return false;
        }
    }
    true
}

// Returns whether a full group gives no more tickets, in either way.
fn is_full(alloc: Global, core: &mut Core) -> Option<bool> {
    let id = DocId::new(alloc, "d").ok()?;
    let is_filled = is_filled(core, &id);
    let is_refused = submit_step(core, &id, &Op::Get) == Err(TargetFault::Full);
    let answer = core.step(Step::Submit(id, Op::Get)).ok()?;
    Some(is_filled && is_refused && answer == Answer::Full)
}

// Returns whether that is so of a group of one copy.
fn is_one_copy_full(alloc: Global) -> Option<bool> {
    let mut core = Core::new(alloc, 1, Fault::None).ok()?;
    is_full(alloc, &mut core)
}

#[test]
fn full(rt: HostRuntime) {
    assert!(rt; is_one_copy_full(rt.alloc()) == Some(true));
}
