ghost use Rattle.std.specs.Prelude.{◌≡◌, ◌<◌, All, IfOk, length};
ghost use Rattle.workload.specs.Playing.{AreNewPlayers, ArePlayed, AreVisited};
ghost use Rattle.workload.specs.aids.Players.{AdvanceEach};

use crate::owned_target::OwnedTarget;
use crate::plan::Plan;
use crate::play_fault::PlayFault;
use crate::player::Player;
use crate::visiting::visit;
use events::History;
use std::alloc::{AllocError, Global};

// That many clients before their first turns.
fn new_players(alloc: Global, count: usize) -> Result<Vec<Player>, AllocError>
    ensures { IfOk result (λ players. AreNewPlayers count players.items) }
{
    let mut players = Vec::with_capacity(alloc, count)?;
    for client in 0..count {
        players.push(Player::new(alloc, client)?)?;
    }
    Ok(players)
}

// Visits each client once, in their order, and returns whether one of them had something to do.
fn visit_all<T: OwnedTarget>(
    alloc: Global,
    plan: &Plan,
    target: &mut T,
    history: &mut History,
    players: &mut Vec<Player>,
    polls: u32,
) -> Result<bool, PlayFault>
    requires { All (λ player. player.client < length plan.now) players.old.items }
    ensures visits { IfOk result (λ _. AreVisited T.takes T.reports polls plan.now (length players.old.items)
        (record { target = target.old; players = players.old.items; events = history.old })
        (record { target = target.new; players = players.new.items; events = history.new })) }
    ensures advances { IfOk result (AdvanceEach polls plan.now players.old.items players.new.items) }
    ensures clients { IfOk result (λ _. All (λ player. player.client < length plan.now) players.new.items) }
    ensures count { IfOk result (λ _. length players.new.items ≡ length players.old.items) }
{
    let mut acted = false;
    for player in players.iter_mut() {
        if visit(alloc, plan, target, history, player, polls)? {
            acted = true;
        }
    }
    Ok(acted)
}

/// Plays the clients of the plan against the target, in rounds: each round visits each client once, in their
/// order, until all are done. The events are recorded in the order in which they come, and each call's number
/// is its index in the history.
///
/// A client does one thing at a visit: it begins its next turn, or polls its open call once, as under
/// `run_in_turns`. A call that waits at its last poll is recorded as lost at that visit; if `turns` is 0, at
/// the visit after the one that submitted it. If tickets and reports are such as a `Target` issues and gives,
/// the events are such as `run_clients` records, by a lemma of the crate.
///
/// Errors: the first that is met ends it: a fault of the history (`Event`) or of the target (`Target`);
/// `NoMemory` also if the clients were refused memory. What an error leaves of the target is left open.
pub fn play_in_turns<T: OwnedTarget>(
    alloc: Global,
    plan: &Plan,
    target: &mut T,
    turns: u32,
) -> Result<History, PlayFault>
    // The events are what the clients of the plan record if they are played in turns against the target, from
    // its state before to its state after: which client is visited when, which call is recorded and
    // submitted, how often one is polled, and when it is lost.
    ensures { IfOk result (λ history. ArePlayed T.takes T.reports turns plan.now target.old target.new history) }
{
    let mut history = History::new(alloc);
    let mut players = new_players(alloc, plan.clients())?;
    'rounds: while visit_all(alloc, plan, target, &mut history, &mut players, turns)? {}
    Ok(history)
}
