ghost use Rattle.std.specs.Prelude.{◌≡◌, ◌<◌, ◌⊎◌, ◌↔◌, Err, IfErr, IfOk};

use crate::disturbing::disturbed_poll_step;
use crate::schedule::Schedule;
use doc_register::Op;
use rand_pcg::Lcg64Xsh32;
use repl_group::{Core, CoreFault, Fault, submit_step};
use std::alloc::Global;
use std::marker::Model;
use version_pair::DocId;
use workload::{Progress, TargetFault, Ticket};

// The stream of generator words from which a group draws its steps.
const STREAM: u64 = 55;

/// A core, the generator from which its steps are drawn, and the number of polls so far. If the core has no
/// fault, it is honest between two calls.
#[derive(Drop)]
pub struct CountedCore {
    core: Core,
    random: Lcg64Xsh32,
    polls: u64,
}

impl Model for CountedCore {
    ghost use Rattle.std.specs.Prelude.{ℕ};
    ghost use Rattle.repl_group.specs.Group.{GroupState};
    ghost use Rattle.repl_group.specs.Honest.{IsHonestUnlessFaulty};
    ghost use Rattle.rand_pcg.specs.Lcg.{Lcg};
    ghost use Rattle.disturbances.specs.Disturbed.{CountedState};

    ghost Value = { CountedState };

    ghost view = { λ c. record { core = c.core; random = c.random; polls = c.polls } };

    ghost invariant = { λ c. IsHonestUnlessFaulty c.core };
}

impl CountedCore {
    ghost use Rattle.std.specs.Prelude.{◌+◌, ◌%◌, ◌^◌};
    ghost use Rattle.repl_group.specs.Polling.{Submits};
    ghost use Rattle.disturbances.specs.Disturbed.{PollsDisturbed, counted_from};

    /// Returns the core of a group of that many copies at the start, whose steps are drawn from the seed, and
    /// which was not polled.
    pub fn new(
        alloc: Global,
        copies: u32,
        fault: Fault,
        seed: u64,
    ) -> Result<CountedCore, CoreFault>
        ensures start { IfOk result (λ counted. counted ≡ counted_from fault copies seed) }
        ensures copies { (result ≡ Err CoreFault.Copies) ↔ ((copies ≡ 0) ⊎ (5 < copies)) }
    {
        let core = Core::new(alloc, copies, fault)?;
        let random = Lcg64Xsh32::new(seed, STREAM);
        Ok(CountedCore {
            core,
            random,
            polls: 0,
        })
    }

    pub fn submit(&mut self, id: &DocId, op: &Op) -> Result<Ticket, TargetFault>
        ensures submits { Submits self.old.core id.now op.now result self.new.core }
        ensures random { self.new.random ≡ self.old.random }
        ensures polls { self.new.polls ≡ self.old.polls }
    {
        submit_step(&mut self.core, id, op)
    }

    // Polls are counted modulo 2^64.
    pub fn poll(&mut self, schedule: &Schedule, ticket: Ticket) -> Result<Progress, TargetFault>
        ensures polls { IfOk result (λ _. PollsDisturbed schedule.now self.old.polls self.old.core self.old.random
            ticket.0 result self.new.core self.new.random) }
        ensures counted { self.new.polls ≡ (self.old.polls + 1) % 2 ^ 64 }
        ensures refused { IfErr result (λ fault. fault ≡ TargetFault.NoMemory) }
    {
        let number = self.polls;
        self.polls = number.wrapping_add(1);
        disturbed_poll_step(&mut self.core, &mut self.random, schedule, number, ticket)
    }
}
