ghost use Rattle.std.specs.Prelude.{◌≡◌, ◌<◌, ℕ, IfErr, IfOk, List, length, true};
ghost use Rattle.workload.specs.RunFaults.{HasCause, IsMisfit};
ghost use Rattle.workload.specs.aids.Seats.{IsNew, IsOpenIfAny, IsVisitedOnce, Visits};
ghost use Rattle.workload.specs.declared.turn.Turn.{Turn};

use crate::client::{begin_turn, end_turn};
use crate::known::LastPairs;
use crate::plan::Plan;
use crate::polled_call::{Polled, PolledCall};
use crate::run_fault::RunFault;
use crate::target::Target;
use recorder::Recording;
use std::alloc::{AllocError, Global};
use std::sync::Wait;

/// A client between two visits.
#[derive(Drop)]
pub struct Seat<P> {
    /// The number of the client.
    pub client: usize,
    pub pen: P,
    pub known: LastPairs,
    /// The number of turns that it has begun.
    pub begun: usize,
    /// The call of the last of these turns, until it has its ending.
    pub open_call: Option<PolledCall>,
}

impl<P: Drop> Seat<P> {
    /// Returns a client before its first turn.
    pub fn new(alloc: Global, client: usize, pen: P) -> Result<Seat<P>, AllocError>
        ensures { IfOk result (IsNew client pen) }
    {
        Ok(Seat {
            client,
            pen,
            known: LastPairs::nothing(alloc)?,
            begun: 0,
            open_call: None,
        })
    }
}

// Begins the next turn of a client that has no open call, if a turn is left.
fn begin_next<R: Wait, T: Target, X: Recording>(
    rt: &R,
    alloc: Global,
    plan: &Plan,
    target: &T,
    recorder: &X,
    seat: &mut Seat<X::Pen>,
    polls: u32,
) -> Result<bool, RunFault>
    requires client { seat.old.client < length plan.now }
    requires pen { X.has_pen recorder.now seat.old.pen }
    requires idle { seat.old.open_call ≡ None }
    ensures visits { IfOk result (Visits T.issued T.gave polls X.pen_state plan.now seat.old seat.new) }
    ensures once { IfOk result (λ _. IsVisitedOnce polls seat.old seat.new) }
    ensures keeps { IfOk result (λ _. X.has_pen recorder.now seat.new.pen) }
    ensures opens { IfOk result (λ _. IsOpenIfAny T.issued (X.pen_state seat.new.pen).list seat.new.open_call) }
    ensures cause { IfErr result (HasCause (IsMisfit T.issued T.gave) T.all_given (X.may_rewind recorder.now)
        X.pen_state (X.has_pen recorder.now)) }
{
    let Some((turn, k)) = plan.numbered_turn(seat.client, seat.begun) else {
        return Ok(false);
    };
    let call = begin_turn(
        rt,
        alloc,
        target,
        recorder,
        &mut seat.pen,
        &seat.known,
        turn,
        k,
    )?;
    seat.begun += 1;
    seat.open_call = Some(PolledCall {
        call,
        polls_left: polls,
    });
    Ok(true)
}

// Polls the open call of a client once, and ends its turn unless the call is to be polled again.
fn poll_open<R: Wait, T: Target, X: Recording>(
    rt: &R,
    target: &T,
    recorder: &X,
    seat: &mut Seat<X::Pen>,
    polled: PolledCall,
) -> Result<(), RunFault>
    requires pen { X.has_pen recorder.now seat.old.pen }
    requires call { seat.old.open_call ≡ Some polled }
    requires opened { IsOpenIfAny T.issued (X.pen_state seat.old.pen).list seat.old.open_call }
    ensures visits { IfOk result (λ _. (polls : ℕ) (clients : List (List Turn))
        → Visits T.issued T.gave polls X.pen_state clients seat.old seat.new true) }
    ensures once { IfOk result (λ _. (polls : ℕ) → IsVisitedOnce polls seat.old seat.new) }
    ensures keeps { IfOk result (λ _. X.has_pen recorder.now seat.new.pen) }
    ensures opens { IfOk result (λ _. IsOpenIfAny T.issued (X.pen_state seat.new.pen).list seat.new.open_call) }
    ensures cause { IfErr result (HasCause (IsMisfit T.issued T.gave) T.all_given (X.may_rewind recorder.now)
        X.pen_state (X.has_pen recorder.now)) }
{
    match polled.poll(rt, target)? {
        Polled::Waits => {
            seat.open_call = Some(PolledCall {
                polls_left: polled.polls_left - 1,
                ..polled
            });
        }
        Polled::Ends(heard) => {
            end_turn(
                rt,
                recorder,
                &mut seat.pen,
                &mut seat.known,
                polled.call,
                heard,
            )?;
            seat.open_call = None;
        }
    }
    Ok(())
}

/// Visits a client: begins its next turn, or polls its open call once. Returns whether there was something to
/// do.
///
/// The visit that begins a turn records its call and submits it, and doesn't poll it. The visit of the last
/// poll records the call's ending. A call that may not be polled at all is lost at the next visit.
pub fn visit<R: Wait, T: Target, X: Recording>(
    rt: &R,
    alloc: Global,
    plan: &Plan,
    target: &T,
    recorder: &X,
    seat: &mut Seat<X::Pen>,
    polls: u32,
) -> Result<bool, RunFault>
    requires client { seat.old.client < length plan.now }
    requires pen { X.has_pen recorder.now seat.old.pen }
    requires opened { IsOpenIfAny T.issued (X.pen_state seat.old.pen).list seat.old.open_call }
    ensures visits { IfOk result (Visits T.issued T.gave polls X.pen_state plan.now seat.old seat.new) }
    ensures once { IfOk result (λ _. IsVisitedOnce polls seat.old seat.new) }
    ensures keeps { IfOk result (λ _. X.has_pen recorder.now seat.new.pen) }
    ensures opens { IfOk result (λ _. IsOpenIfAny T.issued (X.pen_state seat.new.pen).list seat.new.open_call) }
    ensures cause { IfErr result (HasCause (IsMisfit T.issued T.gave) T.all_given (X.may_rewind recorder.now)
        X.pen_state (X.has_pen recorder.now)) }
{
    match seat.open_call {
        Some(polled) => {
            poll_open(rt, target, recorder, seat, polled)?;
            Ok(true)
        }
        None => begin_next(rt, alloc, plan, target, recorder, seat, polls),
    }
}
