ghost use Rattle.std.specs.Prelude.{◌≡◌, ◌≢◌, ◌+◌, ◌<◌, ◌≤◌, ◌^◌, ◌*◌, All, Err, IfOk, IfSome, List, Some, slice_get, take, length, map, nat_lt, option_map, sum_by};
ghost use Rattle.std.specs.List.{list_any};
ghost use Rattle.workload.specs.Plans.{is_far, is_idle, is_too_large, lacks_turns, refusal_of, refusal_reported, turn_at, turn_count};
ghost use Rattle.workload.specs.declared.turn.Turn.{Turn};
ghost use Rattle.workload.specs.Drawing.{draw_refusal, plan_drawn};

use crate::drawing::{draw_clients, generator};
use crate::plan_fault::PlanFault;
use crate::turn::Turn;
use std::alloc::Global;
use std::marker::Model;

/// The greatest number of clients of a plan.
pub const MOST_CLIENTS: usize = 8;

/// The greatest number of turns that all clients of a plan have together.
pub const MOST_TURNS: usize = 524_288;

/// The greatest number of documents of a plan: document numbers are below it.
pub const MOST_DOCS: u32 = 1_024;

/// What each of some clients does: its turns, one after the other.
///
/// There are 1 to 8 clients, each with at least one turn, at most 524,288 turns in all, on at most 1,024
/// documents. Contracts see a plan as the list of its clients' lists of turns.
#[derive(Debug, Drop)]
pub struct Plan {
    clients: Vec<Vec<Turn>>,
}

impl Model for Plan {
    ghost use Rattle.std.specs.Prelude.{◌≡◌, List, None, map};
    ghost use Rattle.workload.specs.Plans.{refusal_of};
    ghost use Rattle.workload.specs.declared.turn.Turn.{Turn};

    ghost Value = { List (List Turn) };

    ghost view = { λ p. map (λ turns. turns.items) p.clients.items };

    ghost invariant = { λ p. refusal_of (map (λ turns. turns.items) p.clients.items) ≡ None };
}

// Whether a client has no turn.
fn has_idle(clients: &[Vec<Turn>]) -> bool
    ensures { result ≡ list_any (λ turns. is_idle turns.items) clients.now }
{
    clients.iter().any(
        |turns: &Vec<Turn>| -> bool
            ensures { result ≡ is_idle turns.now.items }
        { turns.is_empty() },
    )
}

// Whether a turn has a document number above those that there may be.
fn has_far(clients: &[Vec<Turn>]) -> bool
    ensures { result ≡ list_any (λ turns. list_any is_far turns.items) clients.now }
{
    clients.iter().any(
        |turns: &Vec<Turn>| -> bool
            ensures { result ≡ list_any is_far turns.now.items }
        { turns.iter().any(|turn| turn.doc >= MOST_DOCS) },
    )
}

// Whether the clients together have more turns than there may be.
fn has_many(clients: &[Vec<Turn>]) -> bool
    ensures { result ≡ nat_lt MOST_TURNS (sum_by (λ turns. length turns.items) clients.now) }
{
    let mut left = MOST_TURNS;
    for turns in clients {
        if turns.len() > left {
            return true;
        }
        left -= turns.len();
    }
    false
}

// Whether there is no client, or one without turns.
#[tactic(auto, using(crate::proofs::PlanLemmas::lacks_turns_mapped))]
fn is_lacking(clients: &[Vec<Turn>]) -> bool
    ensures { result ≡ lacks_turns (map (λ turns. turns.items) clients.now) }
{
    clients.is_empty() || has_idle(clients)
}

// Whether there are more clients, turns or documents than there may be.
#[tactic(auto, using(crate::proofs::PlanLemmas::is_too_large_mapped))]
fn is_large(clients: &[Vec<Turn>]) -> bool
    ensures { result ≡ is_too_large (map (λ turns. turns.items) clients.now) }
{
    clients.len() > MOST_CLIENTS || has_many(clients) || has_far(clients)
}

impl Plan {
    /// Returns the plan of these turns, each list being those of one client. It allocates nothing.
    ///
    /// Errors: `Zero` if there is no client or a client without turns; `TooMany` if there are more than 8
    /// clients, more than 524,288 turns in all, or a document number of 1,024 or more. The lists are then
    /// dropped.
    pub fn of(clients: Vec<Vec<Turn>>) -> Result<Plan, PlanFault>
        // The error is `Zero` or `TooMany` exactly if the definition gives it.
        ensures refused { refusal_reported result ≡ refusal_of (map (λ turns. turns.items) clients.items) }
        // The plan has just these lists.
        ensures plan { IfOk result (λ plan. plan ≡ map (λ turns. turns.items) clients.items) }
        // The error is never `NoMemory`.
        ensures memory { result ≢ Err PlanFault.NoMemory }
    {
        if is_lacking(&clients) {
            return Err(PlanFault::Zero);
        }
        if is_large(&clients) {
            return Err(PlanFault::TooMany);
        }
        Ok(Plan { clients })
    }

    /// Returns the plan that is drawn from the seed, with that many clients, 1 to 8, that many calls of each,
    /// and that many documents, 1 to 1,024.
    ///
    /// One seed draws one plan: two words of a generator, 32 bits each, make a turn, client by client and
    /// turn by turn.
    ///
    /// Errors, in this order: `Zero` if a number is 0, `TooMany` if one is greater or the calls are more than
    /// 524,288 in all; `NoMemory`.
    pub fn draw(
        alloc: Global,
        seed: u64,
        clients: u32,
        calls: u32,
        docs: u32,
    ) -> Result<Plan, PlanFault>
        // The error is `Zero` or `TooMany` exactly if the definition gives it.
        ensures refused { refusal_reported result ≡ draw_refusal clients calls docs }
        // The plan is the one that the seed draws.
        ensures plan { IfOk result (λ plan. plan ≡ plan_drawn seed clients calls docs) }
    {
        if clients == 0 || calls == 0 || docs == 0 {
            return Err(PlanFault::Zero);
        }
        if clients as usize > MOST_CLIENTS
            || clients as usize * calls as usize > MOST_TURNS
            || docs > MOST_DOCS
        {
            return Err(PlanFault::TooMany);
        }
        let clients = draw_clients(alloc, &mut generator(seed), clients, calls, docs)?;
        Ok(Plan { clients })
    }

    /// Returns the number of clients, 1 to 8.
    pub fn clients(&self) -> usize
        ensures count { result ≡ length self.now }
        ensures some { 1 ≤ result }
        ensures few { result ≤ 8 }
    {
        self.clients.len()
    }

    /// Returns the turn of a client at an index, counted from 0; `None` after its last turn, or if there is
    /// no such client.
    pub fn turn(&self, client: usize, i: usize) -> Option<Turn>
        ensures { result ≡ turn_at self.now client i }
    {
        self.clients.get(client)?.get(i).copied()
    }

    /// Returns the turns of a client.
    pub(crate) fn turns(&self, client: usize) -> &[Turn]
        requires { client < length self.now }
        ensures turns { slice_get self.now client ≡ Some result.now }
        ensures documents { All (λ turn. turn.doc < MOST_DOCS) result.now }
    {
        &self.clients[client]
    }

    /// Returns the number that the write of a client's first turn writes: 1 plus the number of turns of all
    /// earlier clients.
    pub(crate) fn first_number(&self, client: usize) -> u64
        requires { client < length self.now }
        ensures number { result ≡ 1 + turn_count (take client self.now) }
        ensures room { (turns : List Turn) → slice_get self.now client ≡ Some turns
            → result + length turns < 2 ^ 64 }
    {
        let mut number = 1;
        for turns in &self.clients[..client] {
            number += turns.len() as u64;
        }
        number
    }

    /// Returns the turn of a client at an index, with the number that its write writes; `None` after its last
    /// turn.
    pub(crate) fn numbered_turn(&self, client: usize, i: usize) -> Option<(Turn, u64)>
        requires { client < length self.now }
        ensures turn { option_map (λ numbered. numbered.0) result ≡ turn_at self.now client i }
        ensures number { IfSome result (λ numbered. numbered.1 ≡ 1 + turn_count (take client self.now) + i) }
        ensures document { IfSome result (λ numbered. numbered.0.doc < MOST_DOCS) }
    {
        let turn = *self.turns(client).get(i)?;
        Some((turn, self.first_number(client) + i as u64))
    }
}
