ghost use Rattle.std.specs.Prelude.{◌≡◌, ◌<◌, ◌⊎◌, ◌↔◌, Err, IfOk};

use crate::counted_core::CountedCore;
use crate::disturbance::Disturbance;
use crate::schedule::Schedule;
use doc_register::Op;
use repl_group::{CoreFault, Fault};
use std::alloc::Global;
use std::marker::Model;
use version_pair::DocId;
use workload::{OwnedTarget, Progress, TargetFault, Ticket};

/// A replication group that one caller owns as a target, and that a schedule disturbs as it is polled.
///
/// A poll makes the group take the steps of the incident that the schedule has before it, then a step that is
/// drawn at random from its seed. Contracts see a `DisturbedState`: the group, its generator, the number of
/// polls so far, and the incidents.
#[derive(Drop)]
pub struct DisturbedCore {
    counted: CountedCore,
    schedule: Schedule,
}

impl Model for DisturbedCore {
    ghost use Rattle.disturbances.specs.Disturbed.{DisturbedState, with_schedule};

    ghost Value = { DisturbedState };

    ghost view = { λ c. with_schedule c.counted c.schedule };
}

impl DisturbedCore {
    ghost use Rattle.disturbances.specs.Disturbed.{disturbed_from, with_schedule};

    /// Returns a group with that many copies, 1 to 5, at the start. Its steps are drawn from the seed, and so
    /// is its schedule of that many incidents; no poll was counted. Errors, in this order: `Copies` for
    /// another number of copies; `NoMemory`.
    pub fn new(
        alloc: Global,
        copies: u32,
        fault: Fault,
        seed: u64,
        disturbance: Disturbance,
        length: u32,
    ) -> Result<DisturbedCore, CoreFault>
        // The group is at the start with these copies and this fault, has the generator of the seed and the
        // schedule that the seed draws, and was not polled.
        ensures start { IfOk result (λ core. core ≡ disturbed_from fault copies seed disturbance length) }
        // The error is `Copies` exactly outside 1 to 5.
        ensures copies { (result ≡ Err CoreFault.Copies) ↔ ((copies ≡ 0) ⊎ (5 < copies)) }
    {
        let counted = CountedCore::new(alloc, copies, fault, seed)?;
        match Schedule::draw(alloc, disturbance, seed, length) {
            Ok(schedule) => Ok(DisturbedCore { counted, schedule }),
            Err(_) => Err(CoreFault::NoMemory),
        }
    }

    // Returns the group without its schedule, and the schedule.
    pub(crate) fn into_parts(self) -> (CountedCore, Schedule)
        ensures { with_schedule result.0 result.1 ≡ self }
    {
        let DisturbedCore { counted, schedule } = self;
        (counted, schedule)
    }
}

// Its errors are those of `submit_step` and `disturbed_poll_step`. What they leave is left open.
impl OwnedTarget for DisturbedCore {
    ghost use Rattle.disturbances.specs.Disturbed.{SubmitsTicket, ReportsProgress};

    // A submission is the step `Submit`, and leaves the rest as it was.
    ghost takes = { SubmitsTicket };

    // A poll is the incident that the schedule has before it, followed by the step of the poll, and it is
    // counted modulo 2^64.
    ghost reports = { ReportsProgress };

    fn submit(&mut self, id: &DocId, op: &Op) -> Result<Ticket, TargetFault> {
        self.counted.submit(id, op)
    }

    fn poll(&mut self, ticket: Ticket) -> Result<Progress, TargetFault> {
        self.counted.poll(&self.schedule, ticket)
    }
}
