//! A group that threads share.

use crate::tests::testing::{FAULTS, deleted, found, indexed, plays_alike};
use disturbances::{Disturbance, DisturbedCore};
use doc_register::{Op, Reply};
use rand_pcg::Lcg64Xsh32;
use repl_group::{Core, Fault, Group, poll_step, submit_step};
use std::alloc::Global;
use std::sync::Wait;
use std::thread::{Threads, join};
use version_pair::DocId;
use workload::{Progress, Target, Ticket};

// Polls a ticket until it has a reply, at most 1,000 times, and returns the reply.
fn reply_to<R: Wait>(rt: &R, group: &Group, ticket: Ticket) -> Option<Reply> {
    for _ in 0..1_000 {
        if let Progress::Done(reply) = group.poll(rt, ticket).ok()? {
            return Some(reply);
        }
    }
    None
}

// Submits an operation on `d` and polls it until it has a reply.
fn call<R: Wait>(rt: &R, alloc: Global, group: &Group, op: Op) -> Option<Reply> {
    let id = DocId::new(alloc, "d").ok()?;
    let ticket = group.submit(rt, &id, &op).ok()?;
    reply_to(rt, group, ticket)
}

// Returns the replies of a group of one copy.
fn replies<R: Wait>(rt: &R, alloc: Global) -> Option<[Option<Reply>; 5]> {
    let group = Group::new(alloc, 1, Fault::None, 7).ok()?;
    Some([
        call(rt, alloc, &group, Op::Index { k: 1, cond: None }),
        call(rt, alloc, &group, Op::Get),
        call(rt, alloc, &group, Op::Delete { cond: None }),
        call(rt, alloc, &group, Op::Create { k: 3 }),
        call(rt, alloc, &group, Op::Create { k: 4 }),
    ])
}

#[test]
fn polled_until_done(rt: HostRuntime) {
    let wanted = [
        indexed(1, 0, true),
        found(1, 0, 1),
        deleted(1, 1, true),
        indexed(1, 2, true),
        Some(Reply::Conflict),
    ];
    assert!(rt; replies(&rt, rt.alloc()) == Some(wanted));
}

// Returns the reply to a get of a group of three copies.
fn reply_of_three<R: Wait>(rt: &R, alloc: Global, seed: u64) -> Option<Reply> {
    let group = Group::new(alloc, 3, Fault::None, seed).ok()?;
    call(rt, alloc, &group, Op::Get)
}

#[test]
fn three_copies_answer(rt: HostRuntime) {
    for seed in 0..20 {
        assert!(rt;
            reply_of_three(&rt, rt.alloc(), seed) == Some(Reply::Missing),
            "{seed}"
        );
    }
}

// Returns whether a group answers as its core.
fn is_its_core<R: Wait>(rt: &R, alloc: Global, copies: u32, fault: Fault) -> Option<bool> {
    let group = Group::new(alloc, copies, fault, 9).ok()?;
    let mut core = DisturbedCore::new(alloc, copies, fault, 9, Disturbance::None, 0).ok()?;
    plays_alike(rt, alloc, &group, &mut core)
}

#[test]
fn group_is_its_core_under_a_lock(rt: HostRuntime) {
    for fault in FAULTS {
        for copies in [1, 2, 3, 5] {
            assert!(rt; is_its_core(&rt, rt.alloc(), copies, fault) == Some(true));
        }
    }
}

// Returns the replies to two deletes, each on a thread of its own.
fn replies_in_threads<R: Threads + Wait + Sync>(
    rt: &R,
    alloc: Global,
) -> Option<[Option<Reply>; 2]> {
    let group = Group::new(alloc, 1, Fault::None, 1).ok()?;
    let (one, two) = join(
        rt,
        || call(rt, alloc, &group, Op::Delete { cond: None }),
        || call(rt, alloc, &group, Op::Delete { cond: None }),
    );
    Some([one, two])
}

#[test]
fn two_threads(rt: HostRuntime) {
    let replies = replies_in_threads(&rt, rt.alloc());
    let (first, second) = (deleted(1, 0, false), deleted(1, 1, false));
    assert!(rt; replies == Some([first, second]) || replies == Some([second, first]));
}

// Returns whether a ticket that a core does not know waits, and is the first one that it gives.
fn is_unknown(alloc: Global, core: &mut Core) -> Option<bool> {
    let mut random = Lcg64Xsh32::new(1, 55);
    let progress = poll_step(core, &mut random, Ticket(0)).ok()?;
    let id = DocId::new(alloc, "d").ok()?;
    let ticket = submit_step(core, &id, &Op::Get).ok()?;
    Some(progress == Progress::Waiting && ticket == Ticket(0))
}

// Returns whether that is so of a group of two copies.
fn is_first_unknown(alloc: Global) -> Option<bool> {
    let mut core = Core::new(alloc, 2, Fault::None).ok()?;
    is_unknown(alloc, &mut core)
}

#[test]
fn unknown_ticket_waits(rt: HostRuntime) {
    assert!(rt; is_first_unknown(rt.alloc()) == Some(true));
}
