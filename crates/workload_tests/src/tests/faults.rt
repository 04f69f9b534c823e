//! Faults that end a run.

ghost use Rattle.std.specs.Prelude.{◌≡◌, length};

use crate::tests::testing::{GET, alike};
use doc_register::Op;
use recorder::{Pen, RecFault, Recorder};
use std::alloc::Global;
use std::sync::Wait;
use std::thread::Threads;
use version_pair::DocId;
use workload::{
    Kind, Plan, Progress, RunFault, Target, TargetFault, Ticket, Turn, run_clients, run_in_turns,
};

// A target that takes only operations on `d0`, and reports nothing of them.
#[derive(Drop)]
struct Failing;

impl Target for Failing {
    ghost issued = { λ _ _ _. Unit {0} };

    ghost gave = { λ _ _. Unit {0} };

    fn submit<R: Wait>(&self, _rt: &R, id: &DocId, _op: &Op) -> Result<Ticket, TargetFault> {
        if id.as_str() == "d0" {
            Ok(Ticket(0))
        } else {
            Err(TargetFault::Full)
        }
    }

    fn poll<R: Wait>(&self, _rt: &R, _ticket: Ticket) -> Result<Progress, TargetFault> {
        Err(TargetFault::NoMemory)
    }
}

// A get of document 1, which the target refuses.
const REFUSED: Turn = Turn {
    doc: 1,
    kind: Kind::Get,
};

// Returns the fault of a run on threads.
fn fault_on_threads<R: Threads + Wait + Sync>(
    rt: &R,
    alloc: Global,
    plan: &Plan,
    recorder: &Recorder,
    pens: Vec<Pen>,
) -> Option<RunFault>
    requires { length pens.items ≡ length plan.now }
{
    run_clients(rt, alloc, plan, &Failing, recorder, pens, 1).err()
}

// Returns the fault of a run in turns.
fn fault_in_turns<R: Wait>(
    rt: &R,
    alloc: Global,
    plan: &Plan,
    recorder: &Recorder,
    pens: Vec<Pen>,
) -> Option<RunFault>
    requires { length pens.items ≡ length plan.now }
{
    run_in_turns(rt, alloc, plan, &Failing, recorder, pens, 1).err()
}

// Returns a plan of two clients, of which only the second one is refused.
fn two_clients(alloc: Global) -> Option<Plan> {
    let mut lists = Vec::new(alloc);
    lists.push(vec![in alloc; GET].ok()?).ok()?;
    lists.push(vec![in alloc; REFUSED].ok()?).ok()?;
    Plan::of(lists).ok()
}

// Returns the fault of the two clients on threads.
fn fault_of_two_on_threads<R: Threads + Wait + Sync>(rt: &R, alloc: Global) -> Option<RunFault> {
    let plan = two_clients(alloc)?;
    let (recorder, pens) = Recorder::start(alloc, plan.clients()).ok()?;
    fault_on_threads(rt, alloc, &plan, &recorder, pens)
}

// Returns the fault of the two clients in turns.
fn fault_of_two_in_turns<R: Wait>(rt: &R, alloc: Global) -> Option<RunFault> {
    let plan = two_clients(alloc)?;
    let (recorder, pens) = Recorder::start(alloc, plan.clients()).ok()?;
    fault_in_turns(rt, alloc, &plan, &recorder, pens)
}

// On threads the fault of the first client is reported; in turns that of the second one, who meets it at its
// first visit, and the first client at its second.
#[test]
fn the_first_fault_is_reported(rt: HostRuntime) {
    let on_threads = fault_of_two_on_threads(&rt, rt.alloc());
    assert!(rt; on_threads == Some(RunFault::Target(TargetFault::NoMemory)));
    let in_turns = fault_of_two_in_turns(&rt, rt.alloc());
    assert!(rt; in_turns == Some(RunFault::Target(TargetFault::Full)));
}

// Calls `d0` through a pen.
fn record_call<R: Wait>(rt: &R, alloc: Global, recorder: &Recorder, pen: &mut Pen) -> Option<u64> {
    let id = DocId::new(alloc, "d0").ok()?;
    recorder.call(rt, pen, id, Op::Get).ok()
}

// Fills a recording by calls of `d0`.
fn fill<R: Wait>(rt: &R, alloc: Global, recorder: &Recorder, pen: &mut Pen) -> Option<u64> {
    let mut last = None;
    for _ in 0..1_048_576 {
        last = Some(record_call(rt, alloc, recorder, pen)?);
    }
    last
}

// Returns a recorder whose recording is full, and its pen.
fn filled<R: Wait>(rt: &R, alloc: Global) -> Option<(Recorder, Pen)> {
    let (recorder, mut pens) = Recorder::start(alloc, 1).ok()?;
    let mut pen = pens.pop()?;
    fill(rt, alloc, &recorder, &mut pen)?;
    Some((recorder, pen))
}

// Returns the fault of a client on a thread whose recording is full, and whose call would be refused.
fn fault_of_full_on_threads<R: Threads + Wait + Sync>(rt: &R, alloc: Global) -> Option<RunFault> {
    let plan = alike(alloc, 1, 1, REFUSED)?;
    let (recorder, pen) = filled(rt, alloc)?;
    if plan.clients() != 1 {
        return None;
    }
    fault_on_threads(rt, alloc, &plan, &recorder, vec![in alloc; pen].ok()?)
}

// Returns the same in turns.
fn fault_of_full_in_turns<R: Wait>(rt: &R, alloc: Global) -> Option<RunFault> {
    let plan = alike(alloc, 1, 1, REFUSED)?;
    let (recorder, pen) = filled(rt, alloc)?;
    if plan.clients() != 1 {
        return None;
    }
    fault_in_turns(rt, alloc, &plan, &recorder, vec![in alloc; pen].ok()?)
}

#[test]
fn recorded_before_submitted(rt: HostRuntime) {
    let wanted = Some(RunFault::Record(RecFault::Full));
    assert!(rt; fault_of_full_on_threads(&rt, rt.alloc()) == wanted);
    assert!(rt; fault_of_full_in_turns(&rt, rt.alloc()) == wanted);
}
