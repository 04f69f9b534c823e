ghost use Rattle.std.specs.Prelude.{◌≡◌, ◌<◌, All, IfErr, IfOk, length, map, replicate};
ghost use Rattle.recorder.specs.Pens.{new_pen};
ghost use Rattle.recorder.specs.Recordings.{lists_of};
ghost use Rattle.workload.specs.ClientRuns.{AreClientRuns, AreLongerByRuns};
ghost use Rattle.workload.specs.RunFaults.{HasCause, IsMisfit};
ghost use Rattle.workload.specs.aids.Seats.{AreNew, AreVisitedOnce, IsOpenIfAny, VisitsEach};

use crate::plan::Plan;
use crate::run_fault::RunFault;
use crate::seat::{Seat, visit};
use crate::target::Target;
use recorder::Recording;
use std::alloc::{AllocError, Global};
use std::sync::Wait;

// The clients before their first turns, in the order of their pens.
fn seat_clients<P: Drop>(alloc: Global, pens: Vec<P>) -> Result<Vec<Seat<P>>, AllocError>
    ensures { IfOk result (λ seats. AreNew pens.items seats.items) }
{
    let mut seats = Vec::with_capacity(alloc, pens.len())?;
    for pen in pens {
        seats.push(Seat::new(alloc, seats.len(), pen)?)?;
    }
    Ok(seats)
}

// Visits each client once, in their order, and returns whether one of them had something to do.
fn visit_each<R: Wait, T: Target, X: Recording>(
    rt: &R,
    alloc: Global,
    plan: &Plan,
    target: &T,
    recorder: &X,
    seats: &mut Vec<Seat<X::Pen>>,
    polls: u32,
) -> Result<bool, RunFault>
    requires clients { All (λ seat. seat.client < length plan.now) seats.old.items }
    requires pens { All (λ seat. X.has_pen recorder.now seat.pen) seats.old.items }
    requires calls { All (λ seat. IsOpenIfAny T.issued (X.pen_state seat.pen).list seat.open_call) seats.old.items }
    ensures visits { IfOk result (VisitsEach T.issued T.gave polls X.pen_state plan.now
        seats.old.items seats.new.items) }
    ensures once { IfOk result (λ _. AreVisitedOnce polls seats.old.items seats.new.items) }
    ensures clients { IfOk result (λ _. All (λ seat. seat.client < length plan.now) seats.new.items) }
    ensures pens { IfOk result (λ _. All (λ seat. X.has_pen recorder.now seat.pen) seats.new.items) }
    ensures calls { IfOk result (λ _. All (λ seat. IsOpenIfAny T.issued (X.pen_state seat.pen).list seat.open_call)
        seats.new.items) }
    ensures cause { IfErr result (HasCause (IsMisfit T.issued T.gave) T.all_given (X.may_rewind recorder.now)
        X.pen_state (X.has_pen recorder.now)) }
{
    let mut acted = false;
    for seat in seats.iter_mut() {
        if visit(rt, alloc, plan, target, recorder, seat, polls)? {
            acted = true;
        }
    }
    Ok(acted)
}

// The pens of the clients, in their order.
fn pens_of<P: Drop>(alloc: Global, seats: Vec<Seat<P>>) -> Result<Vec<P>, AllocError>
    ensures { IfOk result (λ pens. pens.items ≡ map (λ seat. seat.pen) seats.items) }
{
    let mut pens = Vec::with_capacity(alloc, seats.len())?;
    for seat in seats {
        pens.push(seat.pen)?;
    }
    Ok(pens)
}

/// Runs the clients of the plan on the caller's thread, in rounds: each round visits each client once, in
/// their order, until all are done. The pens are theirs, in their order, and are returned in that order.
///
/// A client does one thing at a visit: it begins its next turn, or polls its open call once. So it records
/// what it would under `run_clients`, and against a target that always answers in the same way each run of a
/// plan gives the same recording. A call that waits at its last poll is recorded as lost at that visit; if
/// `turns` is 0, at the visit after the one that submitted it. The order of the visits, how often a call is
/// polled, and which fault is returned, is tested, not proved.
///
/// Errors: the first fault that a client meets ends the run, of the recorder (`Record`) or of the target
/// (`Target`), and the pens are dropped; `NoMemory` also if memory was refused while the clients were seated
/// or the pens gathered. The rounds are bounded, so it returns if each call of the target and of the recorder
/// does, and waits as they do.
pub fn run_in_turns<R: Wait, T: Target, X: Recording>(
    rt: &R,
    alloc: Global,
    plan: &Plan,
    target: &T,
    recorder: &X,
    pens: Vec<X::Pen>,
    turns: u32,
) -> Result<Vec<X::Pen>, RunFault>
where
    X::Pen: Drop,
    // There is one pen for each client of the plan.
    requires count { length pens.items ≡ length plan.now }
    // The pens are the recorder's.
    requires pens { All (X.has_pen recorder.now) pens.items }
    // The list of each pen is longer by a run of its client; in a run the numbers of the events rise.
    ensures runs { IfOk result (λ done. AreLongerByRuns T.issued T.gave turns plan.now
        (map X.pen_state pens.items) (map X.pen_state done.items)) }
    // If the pens are new, the lists are the runs of the clients, and nothing else.
    ensures of_new_pens { map X.pen_state pens.items ≡ replicate (length plan.now) new_pen
        → IfOk result (λ done. AreClientRuns T.issued T.gave turns plan.now
        (lists_of (map X.pen_state done.items))) }
    // The pens stay the recorder's.
    ensures keeps { IfOk result (λ done. All (X.has_pen recorder.now) done.items) }
    // Each error has its cause, as under `run_clients`.
    ensures cause { IfErr result (HasCause (IsMisfit T.issued T.gave) T.all_given (X.may_rewind recorder.now)
        X.pen_state (X.has_pen recorder.now)) }
{
    let mut seats = seat_clients(alloc, pens)?;
    'rounds: while visit_each(rt, alloc, plan, target, recorder, &mut seats, turns)? {}
    Ok(pens_of(alloc, seats)?)
}
