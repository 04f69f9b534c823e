ghost use Rattle.std.specs.Prelude.{◌≡◌, ℕ, ◌+◌, ◌<◌, ◌^◌, All, Err, IfErr, IfOk, Some, false, length};
ghost use Rattle.doc_register.specs.declared.op.Op.{Op as Asked};
ghost use Rattle.events.specs.Refusal.{op_of};
ghost use Rattle.recorder.specs.declared.fault.RecFault.TheVariants as recording;
ghost use Rattle.recorder.specs.Pens.{Records, events_in, is_ended, refusal_of};
ghost use Rattle.workload.specs.RunFaults.{HasCause, IsMisfit};
ghost use Rattle.workload.specs.ClientRuns.{ending_of, pair_in};
ghost use Rattle.workload.specs.aids.Clients.{BeginsTurn, EndsTurn, IsHeard, IsLongerByRun, IsMisheard, IsOpenIn, TakesTurn};

use crate::asked::doc_name;
use crate::known::LastPairs;
use crate::open_call::OpenCall;
use crate::plan::MOST_DOCS;
use crate::run_fault::RunFault;
use crate::target::{Progress, Target, TargetFault, Ticket};
use crate::turn::Turn;
use doc_register::Reply;
use recorder::{RecFault, Recording};
use std::alloc::Global;
use std::sync::Wait;

// What is heard of a ticket that is polled at most this often: its reply, or nothing.
fn hear<R: Wait, T: Target>(
    rt: &R,
    target: &T,
    ticket: Ticket,
    polls: u32,
) -> Result<Option<Reply>, TargetFault>
    ensures heard { IfOk result (IsHeard T.issued T.gave polls ticket) }
    ensures refused { IfErr result (λ fault. fault ≡ TargetFault.NoMemory) }
{
    for _ in 0..polls {
        match target.poll(rt, ticket)? {
            Progress::Waiting => {}
            Progress::Done(reply) => return Ok(Some(reply)),
            Progress::Unknown => return Ok(None),
        }
    }
    Ok(None)
}

// Records what was heard of the call of this number: its reply, or that it is lost.
fn record_ending<R: Wait, X: Recording>(
    rt: &R,
    recorder: &X,
    pen: &mut X::Pen,
    no: u64,
    heard: Option<Reply>,
) -> Result<u64, RecFault>
    requires { X.has_pen recorder.now pen.old }
    ensures records { Records (X.pen_state pen.old) (refusal_of (X.pen_state pen.old).list (ending_of no heard))
        (λ _. ending_of no heard) result (X.pen_state pen.new) }
    ensures keeps { X.has_pen recorder.now pen.new }
    ensures forward { (n : ℕ) → result ≡ Err (recording.Rewound n) → X.may_rewind recorder.now }
{
    match heard {
        Some(reply) => recorder.reply(rt, pen, no, reply),
        None => recorder.lost(rt, pen, no),
    }
}

/// Begins a turn, whose write writes the number `k`: records its call, then submits it.
pub fn begin_turn<R: Wait, T: Target, X: Recording>(
    rt: &R,
    alloc: Global,
    target: &T,
    recorder: &X,
    pen: &mut X::Pen,
    known: &LastPairs,
    turn: Turn,
    k: u64,
) -> Result<OpenCall, RunFault>
    requires pen { X.has_pen recorder.now pen.old }
    requires document { turn.doc < MOST_DOCS }
    ensures begins { IfOk result (BeginsTurn T.issued (pair_in known.now) k turn
        (X.pen_state pen.old).list (X.pen_state pen.new).list) }
    ensures opens { IfOk result (IsOpenIn T.issued (X.pen_state pen.new).list) }
    ensures keeps { X.has_pen recorder.now pen.new }
    ensures cause { IfErr result (HasCause (IsMisfit T.issued T.gave) T.all_given (X.may_rewind recorder.now)
        X.pen_state (X.has_pen recorder.now)) }
{
    let op = turn.operation(known.pair(turn.doc), k);
    let id = doc_name(alloc, turn.doc)?;
    let no = recorder.call(rt, pen, id.copy()?, op)?;
    let ticket = target.submit(rt, &id, &op)?;
    Ok(OpenCall {
        no,
        doc: turn.doc,
        ticket,
    })
}

/// Ends a turn: records what was heard of its call, and from then on knows what the reply says. If nothing
/// was heard, the call is lost.
pub fn end_turn<R: Wait, X: Recording>(
    rt: &R,
    recorder: &X,
    pen: &mut X::Pen,
    known: &mut LastPairs,
    call: OpenCall,
    heard: Option<Reply>,
) -> Result<(), RunFault>
    requires pen { X.has_pen recorder.now pen.old }
    requires called { (op : Asked) × (op_of (events_in (X.pen_state pen.old).list) call.no ≡ Some op) }
    requires unended { is_ended (X.pen_state pen.old).list call.no ≡ false }
    ensures ends { IfOk result (λ _. EndsTurn call heard (pair_in known.old)
        (X.pen_state pen.old).list (X.pen_state pen.new).list (pair_in known.new)) }
    ensures keeps { X.has_pen recorder.now pen.new }
    ensures cause { IfErr result (HasCause (IsMisheard (X.pen_state pen.old).list call.no heard) ⊥
        (X.may_rewind recorder.now) X.pen_state (X.has_pen recorder.now)) }
{
    record_ending(rt, recorder, pen, call.no, heard)?;
    if let Some(reply) = heard {
        known.hear(call.doc, &reply);
    }
    Ok(())
}

/// Takes one turn: records the call before it is submitted, and after it was polled its reply, or that it is
/// lost.
pub fn take_turn<R: Wait, T: Target, X: Recording>(
    rt: &R,
    alloc: Global,
    target: &T,
    recorder: &X,
    pen: &mut X::Pen,
    known: &mut LastPairs,
    turn: Turn,
    k: u64,
    polls: u32,
) -> Result<(), RunFault>
    requires pen { X.has_pen recorder.now pen.old }
    requires document { turn.doc < MOST_DOCS }
    ensures takes { IfOk result (λ _. TakesTurn T.issued T.gave polls (pair_in known.old) k turn
        (X.pen_state pen.old).list (X.pen_state pen.new).list (pair_in known.new)) }
    ensures keeps { X.has_pen recorder.now pen.new }
    ensures cause { IfErr result (HasCause (IsMisfit T.issued T.gave) T.all_given (X.may_rewind recorder.now)
        X.pen_state (X.has_pen recorder.now)) }
{
    let call = begin_turn(rt, alloc, target, recorder, pen, known, turn, k)?;
    let heard = hear(rt, target, call.ticket, polls)?;
    end_turn(rt, recorder, pen, known, call, heard)
}

/// Takes the turns, one after the other. The first writes the number `first`, each later one a number that is
/// greater by one. Returns the pen, through which each call and its ending were recorded.
pub fn run_client<R: Wait, T: Target, X: Recording>(
    rt: &R,
    alloc: Global,
    target: &T,
    recorder: &X,
    turns: &[Turn],
    first: u64,
    mut pen: X::Pen,
    polls: u32,
) -> Result<X::Pen, RunFault>
where
    X::Pen: Drop,
    requires pen { X.has_pen recorder.now pen }
    requires documents { All (λ turn. turn.doc < MOST_DOCS) turns.now }
    requires room { first + length turns.now < 2 ^ 64 }
    ensures run { IfOk result (λ done. IsLongerByRun T.issued T.gave polls first turns.now
        (X.pen_state pen).list (X.pen_state done).list) }
    ensures keeps { IfOk result (λ done. X.has_pen recorder.now done) }
    ensures cause { IfErr result (HasCause (IsMisfit T.issued T.gave) T.all_given (X.may_rewind recorder.now)
        X.pen_state (X.has_pen recorder.now)) }
{
    let mut known = LastPairs::nothing(alloc)?;
    let mut k = first;
    for turn in turns {
        take_turn(
            rt, alloc, target, recorder, &mut pen, &mut known, *turn, k, polls,
        )?;
        k += 1;
    }
    Ok(pen)
}
