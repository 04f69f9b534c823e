ghost use Rattle.std.specs.Prelude.{◌≡◌, IfErr};
ghost use Rattle.repl_group.specs.Honest.{IsHonestUnlessFaulty};
ghost use Rattle.repl_group.specs.Polling.{Polls, Submits, flight_drawn as flight_by, progress_of, step_drawn as step_by, step_of_kind as step_by_kind};

use crate::group_core::Core;
use crate::step::{Answer, Step};
use doc_register::Op;
use rand_core::utils::NextWord;
use rand_pcg::Lcg64Xsh32;
use version_pair::DocId;
use workload::{Progress, TargetFault, Ticket};

// The ticket in flight at this number modulo their count.
fn flight_drawn(core: &Core, number: u32) -> Option<u64>
    ensures { result ≡ flight_by core.now number }
{
    let count = core.in_flight_len();
    if count == 0 {
        return None;
    }
    core.in_flight_at(number as usize % count)
}

// The step of a poll, by its kind from 0 to 63, and the copy and the number that were drawn.
fn step_of_kind(core: &Core, ticket: u64, kind: u32, copy: u32, number: u32) -> Option<Step>
    ensures { result ≡ step_by_kind core.now ticket kind copy number }
{
    if kind < 24 {
        return Some(Step::Serve(ticket));
    }
    if kind < 48 {
        let flight = flight_drawn(core, number)?;
        return Some(Step::Copy(flight, copy));
    }
    if kind < 60 {
        let flight = flight_drawn(core, number)?;
        return Some(Step::Ack(flight));
    }
    if kind == 60 {
        return Some(Step::Cut(copy));
    }
    if kind < 63 {
        return Some(Step::Heal(copy));
    }
    if number % 2 == 0 {
        Some(Step::Drop(copy))
    } else {
        Some(Step::Promote(copy))
    }
}

// The step of a poll that draws the word.
fn step_drawn(core: &Core, ticket: u64, word: u32) -> Option<Step>
    ensures { result ≡ step_by core.now ticket word }
{
    let copies = core.copy_count();
    let rest = word / 64;
    step_of_kind(core, ticket, word % 64, rest % copies, rest / copies)
}

// What a poll reports of a ticket.
fn progress(core: &Core, ticket: u64) -> Progress
    ensures { result ≡ progress_of core.now ticket }
{
    match core.result(ticket) {
        Some(reply) => Progress::Done(reply),
        None => Progress::Waiting,
    }
}

/// Does what a submission does in one hold of the group's lock: the step `Submit`. Errors, in this order:
/// `Full` if 524,288 tickets are given, `NoMemory`. An error leaves the core as it was.
pub fn submit_step(core: &mut Core, id: &DocId, op: &Op) -> Result<Ticket, TargetFault>
    // The result and the core after it are those of a submission, in both directions.
    ensures submits { Submits core.old id.now op.now result core.new }
    // The group stays honest unless it has a fault.
    ensures honest { IsHonestUnlessFaulty core.new }
{
    if core.is_full() {
        return Err(TargetFault::Full);
    }
    let Ok(id) = id.copy() else {
        return Err(TargetFault::NoMemory);
    };
    match core.step(Step::Submit(id, *op)) {
        Ok(Answer::Ticket(ticket)) => Ok(Ticket(ticket)),
        Ok(_) => Err(TargetFault::Full),
        Err(_) => Err(TargetFault::NoMemory),
    }
}

/// Does what a poll does in one hold of the group's lock: at most one step, which a word of the generator
/// determines.
///
/// For a ticket with a result the poll returns it, and no word is drawn. If the step is refused memory, the
/// core stays as it was, and the word is spent. A poll of a ticket that the group does not know takes its
/// step too, and reports that the ticket waits.
pub fn poll_step(
    core: &mut Core,
    random: &mut Lcg64Xsh32,
    ticket: Ticket,
) -> Result<Progress, TargetFault>
    // The result, the core and the generator after it are those of a poll, in both directions. It fails only
    // at a step that the table lets the group take.
    ensures polls { Polls core.old random.old ticket.0 result core.new random.new }
    // The only error is `NoMemory`.
    ensures refused { IfErr result (λ fault. fault ≡ TargetFault.NoMemory) }
    // The group stays honest unless it has a fault.
    ensures honest { IsHonestUnlessFaulty core.new }
{
    if let Some(reply) = core.result(ticket.0) {
        return Ok(Progress::Done(reply));
    }
    let word = random.next_word();
    let Some(step) = step_drawn(core, ticket.0, word) else {
        return Ok(Progress::Waiting);
    };
    match core.step(step) {
        Ok(_) => Ok(progress(core, ticket.0)),
        Err(_) => Err(TargetFault::NoMemory),
    }
}
