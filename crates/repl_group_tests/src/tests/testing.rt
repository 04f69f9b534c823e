//! What tests share: replies, the calls of a run, and a target beside the core that one caller owns.

use disturbances::DisturbedCore;
use doc_register::{Op, Reply};
use repl_group::Fault;
use std::alloc::Global;
use std::sync::Wait;
use version_pair::{DocId, Pair};
use workload::{OwnedTarget, Target, Ticket};

/// All faults of a group.
pub const FAULTS: [Fault; 6] = [
    Fault::None,
    Fault::Dirty,
    Fault::Early,
    Fault::SameTerm,
    Fault::Stale,
    Fault::Blind,
];

/// Returns the reply of an index that was performed with this pair.
pub fn indexed(term: u64, seq: u64, created: bool) -> Option<Reply> {
    let pair = Pair::new(term, seq)?;
    Some(Reply::Indexed { pair, created })
}

/// Returns the reply of a get that found the document with this pair and number.
pub fn found(term: u64, seq: u64, k: u64) -> Option<Reply> {
    let pair = Pair::new(term, seq)?;
    Some(Reply::Found { pair, k })
}

/// Returns the reply of a delete that was performed with this pair.
pub fn deleted(term: u64, seq: u64, found: bool) -> Option<Reply> {
    let pair = Pair::new(term, seq)?;
    Some(Reply::Deleted { pair, found })
}

// Returns the operation of the k-th call: in turn a write without a condition, one with a condition, and a
// get.
fn kth_call(k: u64) -> Op {
    match k % 3 {
        0 => Op::Index { k, cond: None },
        1 => Op::Index {
            k,
            cond: Pair::new(1, 0),
        },
        _ => Op::Get,
    }
}

// Returns whether both report the same of a ticket.
fn is_polled_alike<R: Wait, T: Target>(
    rt: &R,
    target: &T,
    core: &mut DisturbedCore,
    ticket: Ticket,
) -> bool {
    target.poll(rt, ticket) == core.poll(ticket)
}

// Returns whether both report the same of a ticket, twenty times.
fn polls_alike<R: Wait, T: Target>(
    rt: &R,
    target: &T,
    core: &mut DisturbedCore,
    ticket: Ticket,
) -> bool {
    for _ in 0..20 {
        if !is_polled_alike(rt, target, core, ticket) {
            return false;
        }
    }
    true
}

// Returns the ticket that both give the k-th call, if they give it the same.
fn submitted_alike<R: Wait, T: Target>(
    rt: &R,
    target: &T,
    core: &mut DisturbedCore,
    id: &DocId,
    k: u64,
) -> Option<Ticket> {
    let op = kth_call(k);
    let ticket = target.submit(rt, id, &op).ok()?;
    if core.submit(id, &op) == Ok(ticket) {
        Some(ticket)
    } else {
        None
    }
}

// Returns whether both answer the k-th call alike, polled twenty times.
fn is_call_alike<R: Wait, T: Target>(
    rt: &R,
    target: &T,
    core: &mut DisturbedCore,
    id: &DocId,
    k: u64,
) -> bool {
    match submitted_alike(rt, target, core, id, k) {
        Some(ticket) => polls_alike(rt, target, core, ticket),
        None => false,
    }
}

/// Returns whether both answer twenty calls of `d` alike, each polled twenty times.
pub fn plays_alike<R: Wait, T: Target>(
    rt: &R,
    alloc: Global,
    target: &T,
    core: &mut DisturbedCore,
) -> Option<bool> {
    let id = DocId::new(alloc, "d").ok()?;
    for k in 0..20 {
        if !is_call_alike(rt, target, core, &id, k) {
            return Some(false);
        }
    }
    Some(true)
}
