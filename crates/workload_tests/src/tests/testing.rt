//! What tests of runs share: plans, a target, and what is recorded against targets.

use doc_register::{Op, Reply};
use events::History;
use recorder::{ClockRecorder, Recorder};
use std::alloc::Global;
use std::sync::Wait;
use std::sync::atomic::{AtomicU64, Ordering};
use std::thread::Threads;
use version_pair::{DocId, Pair};
use workload::{
    Kind, Plan, Progress, Target, TargetFault, Ticket, Turn, run_clients, run_in_turns,
};

/// Returns a plan of that many clients, each with that many turns of this kind on one document.
pub fn alike(alloc: Global, clients: usize, count: usize, turn: Turn) -> Option<Plan> {
    let mut lists = Vec::new(alloc);
    for _ in 0..clients {
        lists.push(vec![in alloc; turn; count].ok()?).ok()?;
    }
    Plan::of(lists).ok()
}

/// A get of document 0.
pub const GET: Turn = Turn {
    doc: 0,
    kind: Kind::Get,
};

/// A target whose tickets count from 0. At each of its first polls it reports either that the ticket waits or
/// its number, at the others that the outcome is unknown.
#[derive(Drop)]
pub struct Pacing<'a> {
    next: AtomicU64,
    polls: AtomicU64,
    waits: &'a [bool],
}

impl<'a> Pacing<'a> {
    pub fn new(waits: &'a [bool]) -> Pacing<'a> {
        Pacing {
            next: AtomicU64::new(0),
            polls: AtomicU64::new(0),
            waits,
        }
    }

    /// Returns the number of polls.
    pub fn polls(&self) -> u64 {
        self.polls.load(Ordering::SeqCst)
    }
}

// Returns the report of a get that found the number of this ticket.
fn found(ticket: Ticket) -> Progress {
    match Pair::new(1, 0) {
        Some(pair) => Progress::Done(Reply::Found { pair, k: ticket.0 }),
        None => Progress::Unknown,
    }
}

impl Target for Pacing<'_> {
    ghost issued = { λ _ _ _. Unit {0} };

    ghost gave = { λ _ _. Unit {0} };

    fn submit<R: Wait>(&self, _rt: &R, _id: &DocId, _op: &Op) -> Result<Ticket, TargetFault> {
        Ok(Ticket(self.next.fetch_add(1, Ordering::SeqCst)))
    }

    fn poll<R: Wait>(&self, _rt: &R, ticket: Ticket) -> Result<Progress, TargetFault> {
        let poll = self.polls.fetch_add(1, Ordering::SeqCst);
        match self.waits.get(poll as usize) {
            Some(false) => Ok(found(ticket)),
            Some(true) => Ok(Progress::Waiting),
            None => Ok(Progress::Unknown),
        }
    }
}

/// Returns what the clients of the plan record on threads, each polling a call at most this often.
pub fn recorded_on_threads<R: Threads + Wait + Sync, T: Target + Sync>(
    rt: &R,
    alloc: Global,
    plan: &Plan,
    target: &T,
    turns: u32,
) -> Option<History> {
    let (recorder, pens) = ClockRecorder::start(alloc, plan.clients()).ok()?;
    let pens = run_clients(rt, alloc, plan, target, &recorder, pens, turns).ok()?;
    recorder.close(pens).ok()
}

/// Returns what the clients of the plan record in turns.
pub fn recorded_in_turns<R: Wait>(
    rt: &R,
    alloc: Global,
    plan: &Plan,
    target: &Pacing<'_>,
    turns: u32,
) -> Option<History> {
    let (recorder, pens) = Recorder::start(alloc, plan.clients()).ok()?;
    let pens = run_in_turns(rt, alloc, plan, target, &recorder, pens, turns).ok()?;
    recorder.close(pens).ok()
}
