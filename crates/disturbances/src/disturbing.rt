ghost use Rattle.std.specs.Prelude.{◌≡◌, ◌≤◌, IfErr, IfOk};
ghost use Rattle.disturbances.specs.Disturbed.{IsDisturbed, PollsDisturbed, other_copy as other_by};
ghost use Rattle.repl_group.specs.Group.{IsCopyCount, Takes};
ghost use Rattle.repl_group.specs.Honest.{IsHonestUnlessFaulty};
ghost use Rattle.repl_group.specs.declared.step.Answer.{Answer as Reported};

use crate::incident::Incident;
use crate::schedule::Schedule;
use rand_pcg::Lcg64Xsh32;
use repl_group::{Core, Step, poll_step};
use workload::{Progress, TargetFault, Ticket};

// The copy of this number beside the primary.
fn other_copy(primary: u32, copies: u32, number: u32) -> u32
    requires { 2 ≤ copies }
    ensures { result ≡ other_by primary copies number }
{
    ((primary as u64 + 1 + (number % (copies - 1)) as u64) % copies as u64) as u32
}

// Takes one step, whatever its answer.
fn take(core: &mut Core, step: Step) -> Result<(), TargetFault>
    ensures takes { IfOk result (λ _. (reported : Reported) × Takes core.old step reported core.new) }
    ensures refused { IfErr result (λ fault. fault ≡ TargetFault.NoMemory) }
    ensures honest { IsHonestUnlessFaulty core.new }
{
    match core.step(step) {
        Ok(_) => Ok(()),
        Err(_) => Err(TargetFault::NoMemory),
    }
}

/// Disturbs a group: it takes the steps of the incident, one after the other, whatever the answer to each. A
/// group of one copy takes none. If a step is refused memory, those before it have been taken, which no
/// clause says.
pub fn disturb(core: &mut Core, incident: Incident) -> Result<(), TargetFault>
    // The group is honest unless it has a fault.
    requires honest { IsHonestUnlessFaulty core.old }
    // The group takes the steps of the incident, each as the table says.
    ensures disturbed { IfOk result (λ _. IsDisturbed core.old incident core.new) }
    // The only error is `NoMemory`. What it leaves is a group that is honest unless it has a fault.
    ensures refused { IfErr result (λ fault. fault ≡ TargetFault.NoMemory) }
    // The group stays honest unless it has a fault, whatever the result.
    ensures honest { IsHonestUnlessFaulty core.new }
{
    let copies = core.copy_count();
    if copies < 2 {
        return Ok(());
    }
    let primary = core.primary();
    match incident {
        Incident::Quiet => Ok(()),
        Incident::CutOff(number) => take(core, Step::Cut(other_copy(primary, copies, number))),
        Incident::Reach(number) => take(core, Step::Heal(other_copy(primary, copies, number))),
        Incident::TakeOver(number) => {
            let other = other_copy(primary, copies, number);
            take(core, Step::Cut(primary))?;
            take(core, Step::Heal(other))?;
            take(core, Step::Promote(other))?;
            take(core, Step::Heal(primary))
        }
    }
}

/// Does what the poll of that number does in one hold of a disturbed group's lock: the incident that the
/// schedule has before it, followed by the step of the poll. What an error leaves of the generator is left
/// open.
pub fn disturbed_poll_step(
    core: &mut Core,
    random: &mut Lcg64Xsh32,
    schedule: &Schedule,
    number: u64,
    ticket: Ticket,
) -> Result<Progress, TargetFault>
    // The group is honest unless it has a fault.
    requires honest { IsHonestUnlessFaulty core.old }
    // The group takes the incident of the schedule, none left out, and then the step of the poll.
    ensures polls { IfOk result (λ _. PollsDisturbed schedule.now number core.old random.old ticket.0
        result core.new random.new) }
    // The only error is `NoMemory`. What it leaves is a group that is honest unless it has a fault.
    ensures refused { IfErr result (λ fault. fault ≡ TargetFault.NoMemory) }
    // The group stays honest unless it has a fault, whatever the result.
    ensures honest { IsHonestUnlessFaulty core.new }
{
    disturb(core, schedule.before_poll(number))?;
    poll_step(core, random, ticket)
}
