ghost use Rattle.std.specs.Prelude.{◌≡◌, ◌<◌, ◌⊎◌, ◌↔◌, Err, IfErr, IfOk};

use crate::counted_core::CountedCore;
use crate::disturbance::Disturbance;
use crate::disturbed_core::DisturbedCore;
use crate::schedule::Schedule;
use doc_register::Op;
use repl_group::{CoreFault, Fault};
use std::alloc::Global;
use std::marker::Model;
use std::sync::{Mutex, Wait};
use version_pair::DocId;
use workload::{Progress, Target, TargetFault, Ticket};

/// A replication group that threads share as a target, and that a schedule disturbs as it is polled. Each
/// submission and each poll is one hold of its lock.
///
/// Under its lock is a `DisturbedCore` without its schedule. Without a disturbance it is a `Group`. Contracts
/// see a disturbed group as the incidents of its schedule.
#[derive(Drop)]
pub struct DisturbedGroup {
    locked: Mutex<CountedCore>,
    schedule: Schedule,
}

impl Model for DisturbedGroup {
    ghost use Rattle.std.specs.Prelude.{List};
    ghost use Rattle.disturbances.specs.declared.incident.Incident.{Incident};

    ghost Value = { List Incident };

    ghost view = { λ g. g.schedule };
}

impl DisturbedGroup {
    ghost use Rattle.disturbances.specs.Schedules.{schedule_drawn};

    /// Returns a group with that many copies, 1 to 5, at the start. Its steps are drawn from the seed, and so
    /// is its schedule of that many incidents. Errors, in this order: `Copies` for another number of copies;
    /// `NoMemory`.
    ///
    /// That what lies under its lock is what `DisturbedCore::new` returns no clause can say: it is tested.
    pub fn new(
        alloc: Global,
        copies: u32,
        fault: Fault,
        seed: u64,
        disturbance: Disturbance,
        length: u32,
    ) -> Result<DisturbedGroup, CoreFault>
        // Its schedule is the one that the seed draws.
        ensures schedule { IfOk result (λ group. group ≡ schedule_drawn disturbance seed length) }
        // The error is `Copies` exactly outside 1 to 5.
        ensures copies { (result ≡ Err CoreFault.Copies) ↔ ((copies ≡ 0) ⊎ (5 < copies)) }
    {
        let core = DisturbedCore::new(alloc, copies, fault, seed, disturbance, length)?;
        Ok(DisturbedGroup::shared(core))
    }

    /// Returns the group that one caller owned, for threads to share. That this very group is under its lock
    /// is tested.
    pub fn shared(core: DisturbedCore) -> DisturbedGroup
        // Its schedule is that of the group.
        ensures { result ≡ core.schedule }
    {
        let (counted, schedule) = core.into_parts();
        DisturbedGroup {
            locked: Mutex::new(counted),
            schedule,
        }
    }
}

// Under the lock a submission and a poll are those of a `DisturbedCore`, by the same body, which is tested.
// Its errors are those of `submit_step` and `disturbed_poll_step`.
impl Target for DisturbedGroup {
    ghost use Rattle.std.specs.Prelude.{◌<◌};
    ghost use Rattle.repl_group.specs.Group.{most_tickets};
    ghost use Rattle.repl_group.specs.Polling.{IsKnown};

    // A ticket that is issued is below 524,288.
    ghost issued = { λ ticket _ _. ticket.0 < most_tickets };

    // Through its lock nothing is known of a group that has given all its tickets.
    ghost all_given = { Unit {0} };

    // A report is never that an outcome is unknown.
    ghost gave = { λ _ progress. IsKnown progress };

    fn submit<R: Wait>(&self, rt: &R, id: &DocId, op: &Op) -> Result<Ticket, TargetFault> {
        self.locked.lock(rt).submit(id, op)
    }

    fn poll<R: Wait>(&self, rt: &R, ticket: Ticket) -> Result<Progress, TargetFault> {
        self.locked.lock(rt).poll(&self.schedule, ticket)
    }
}
