ghost use Rattle.std.specs.Prelude.{◌≡◌, ◌<◌, IfOk, length, true};
ghost use Rattle.workload.specs.Playing.{BeginsCall, EndsCall, PollsCall, VisitsPlayer, polled_to as polled_by};
ghost use Rattle.workload.specs.aids.Players.{Advances};

use crate::asked::doc_name;
use crate::open_call::OpenCall;
use crate::owned_target::OwnedTarget;
use crate::plan::Plan;
use crate::play_fault::PlayFault;
use crate::player::Player;
use crate::polled_call::{Polled, PolledCall};
use crate::target::Progress;
use doc_register::Reply;
use events::{Event, History};
use std::alloc::Global;

// Begins the next turn of a client that has no open call, if a turn is left.
fn begin_next<T: OwnedTarget>(
    alloc: Global,
    plan: &Plan,
    target: &mut T,
    history: &mut History,
    player: &mut Player,
    polls: u32,
) -> Result<bool, PlayFault>
    requires client { player.old.client < length plan.now }
    requires idle { player.old.open_call ≡ None }
    ensures visits { IfOk result (λ _. VisitsPlayer T.takes T.reports polls plan.now target.old player.old history.old
        target.new player.new history.new) }
    ensures advances { IfOk result (Advances polls plan.now player.old player.new) }
{
    let Some((turn, k)) = plan.numbered_turn(player.client, player.begun) else {
        return Ok(false);
    };
    let op = turn.operation(player.known.pair(turn.doc), k);
    let id = doc_name(alloc, turn.doc)?;
    let no = history.len() as u64;
    history.push(Event::Call {
        shard: 0,
        no,
        id: id.copy()?,
        op,
    })?;
    let ticket = target.submit(&id, &op)?;
    player.begun += 1;
    player.open_call = Some(PolledCall {
        call: OpenCall {
            no,
            doc: turn.doc,
            ticket,
        },
        polls_left: polls,
    });
    Ok(true)
}

// Ends the open call of a client: records what was heard of it, a reply, or otherwise that it is lost.
fn end_open(
    history: &mut History,
    player: &mut Player,
    call: OpenCall,
    heard: Option<Reply>,
) -> Result<(), PlayFault>
    ensures { IfOk result (λ _. EndsCall call heard player.old history.old player.new history.new) }
{
    match heard {
        Some(reply) => {
            history.push(Event::Reply { no: call.no, reply })?;
            player.known.hear(call.doc, &reply);
        }
        None => history.push(Event::Lost { no: call.no })?,
    }
    player.open_call = None;
    Ok(())
}

// The result of a poll of a call that may be polled this many more times.
fn polled_to(left: u32, progress: Progress) -> Polled
    ensures { result ≡ polled_by left progress }
{
    match progress {
        Progress::Waiting if left > 1 => Polled::Waits,
        Progress::Done(reply) => Polled::Ends(Some(reply)),
        Progress::Waiting | Progress::Unknown => Polled::Ends(None),
    }
}

// Polls the open call of a client once, and ends it unless it is to be polled again.
fn poll_open<T: OwnedTarget>(
    target: &mut T,
    history: &mut History,
    player: &mut Player,
    polled: PolledCall,
) -> Result<(), PlayFault>
    requires { player.old.open_call ≡ Some polled }
    ensures polls { IfOk result (λ _. PollsCall T.reports polled target.old player.old history.old
        target.new player.new history.new) }
{
    let progress = target.poll(polled.call.ticket)?;
    match polled_to(polled.polls_left, progress) {
        Polled::Waits => {
            player.open_call = Some(PolledCall {
                polls_left: polled.polls_left - 1,
                ..polled
            });
            Ok(())
        }
        Polled::Ends(heard) => end_open(history, player, polled.call, heard),
    }
}

/// Visits a client: begins its next turn, or polls its open call once. Returns whether there was something to
/// do.
///
/// A call that may not be polled at all is lost at the visit after the one that submitted it.
pub fn visit<T: OwnedTarget>(
    alloc: Global,
    plan: &Plan,
    target: &mut T,
    history: &mut History,
    player: &mut Player,
    polls: u32,
) -> Result<bool, PlayFault>
    requires { player.old.client < length plan.now }
    ensures visits { IfOk result (λ _. VisitsPlayer T.takes T.reports polls plan.now target.old player.old history.old
        target.new player.new history.new) }
    ensures advances { IfOk result (Advances polls plan.now player.old player.new) }
{
    match player.open_call {
        Some(polled) if polled.polls_left == 0 => {
            end_open(history, player, polled.call, None)?;
            Ok(true)
        }
        Some(polled) => {
            poll_open(target, history, player, polled)?;
            Ok(true)
        }
        None => begin_next(alloc, plan, target, history, player, polls),
    }
}
