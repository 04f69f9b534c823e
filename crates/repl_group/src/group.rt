ghost use Rattle.std.specs.Prelude.{◌≡◌, ◌<◌, ◌⊎◌, ◌↔◌, Err, IfErr, IfOk};

use crate::fault::{CoreFault, Fault};
use crate::group_core::Core;
use crate::polling::{poll_step, submit_step};
use doc_register::Op;
use rand_pcg::Lcg64Xsh32;
use std::alloc::Global;
use std::marker::Model;
use std::sync::{Mutex, Wait};
use version_pair::DocId;
use workload::{Progress, Target, TargetFault, Ticket};

// The stream of generator words from which a group draws its steps.
const STREAM: u64 = 55;

// What is under the lock of a group: its core, and the generator from which its steps are drawn. If the core
// has no fault, it is honest each time the lock is taken.
#[derive(Drop)]
struct Locked {
    core: Core,
    random: Lcg64Xsh32,
}

impl Model for Locked {
    ghost use Rattle.repl_group.specs.Group.{GroupState};
    ghost use Rattle.repl_group.specs.Honest.{IsHonestUnlessFaulty};
    ghost use Rattle.rand_pcg.specs.Lcg.{Lcg};

    ghost Value = { GroupState × Lcg };

    ghost view = { λ l. (l.core, l.random) };

    ghost invariant = { λ l. IsHonestUnlessFaulty l.core };
}

impl Locked {
    ghost use Rattle.repl_group.specs.Group.{start};
    ghost use Rattle.repl_group.specs.Polling.{Polls, Submits, generator_of};

    // The state in which a group of that many copies begins. Its steps are drawn from the seed.
    fn new(alloc: Global, copies: u32, fault: Fault, seed: u64) -> Result<Locked, CoreFault>
        ensures core { IfOk result (λ locked. locked.0 ≡ start fault copies) }
        ensures random { IfOk result (λ locked. locked.1 ≡ generator_of seed) }
        ensures copies { (result ≡ Err CoreFault.Copies) ↔ ((copies ≡ 0) ⊎ (5 < copies)) }
    {
        let core = Core::new(alloc, copies, fault)?;
        let random = Lcg64Xsh32::new(seed, STREAM);
        Ok(Locked { core, random })
    }

    fn submit(&mut self, id: &DocId, op: &Op) -> Result<Ticket, TargetFault>
        ensures submits { Submits self.old.0 id.now op.now result self.new.0 }
        ensures random { self.new.1 ≡ self.old.1 }
    {
        submit_step(&mut self.core, id, op)
    }

    fn poll(&mut self, ticket: Ticket) -> Result<Progress, TargetFault>
        ensures polls { Polls self.old.0 self.old.1 ticket.0 result self.new.0 self.new.1 }
        ensures refused { IfErr result (λ fault. fault ≡ TargetFault.NoMemory) }
    {
        poll_step(&mut self.core, &mut self.random, ticket)
    }
}

/// A replication group that threads share as a target. Each submission and each poll is one hold of its lock.
///
/// A poll makes the group take a step that is drawn at random from its seed, so the group proceeds as it is
/// polled.
#[derive(Drop)]
pub struct Group {
    locked: Mutex<Locked>,
}

impl Group {
    /// Returns a group with that many copies, 1 to 5, at the start. Its steps are drawn from the seed.
    /// Errors, in this order: `Copies` for another number of copies; `NoMemory`.
    ///
    /// What lies under the lock no public clause can name: that it is the core of these copies and this
    /// fault, and the generator of the seed, is promised by its private maker, and tested.
    pub fn new(alloc: Global, copies: u32, fault: Fault, seed: u64) -> Result<Group, CoreFault>
        // The error is `Copies` exactly outside 1 to 5.
        ensures { (result ≡ Err CoreFault.Copies) ↔ ((copies ≡ 0) ⊎ (5 < copies)) }
    {
        let locked = Locked::new(alloc, copies, fault, seed)?;
        Ok(Group {
            locked: Mutex::new(locked),
        })
    }
}

// Its errors, and what they leave under the lock, are those of `submit_step` and `poll_step`.
impl Target for Group {
    ghost use Rattle.std.specs.Prelude.{◌<◌};
    ghost use Rattle.repl_group.specs.Group.{most_tickets};
    ghost use Rattle.repl_group.specs.Polling.{IsKnown};

    // A ticket that is issued is below 524,288. Of which operation it is no clause says: a lock says of the
    // core under it no more than its type does.
    ghost issued = { λ ticket _ _. ticket.0 < most_tickets };

    // Through its lock nothing is known of a group that has given all its tickets.
    ghost all_given = { Unit {0} };

    // A report is never that an outcome is unknown. That it is one to which steps of the group lead no clause
    // says.
    ghost gave = { λ _ progress. IsKnown progress };

    fn submit<R: Wait>(&self, rt: &R, id: &DocId, op: &Op) -> Result<Ticket, TargetFault> {
        self.locked.lock(rt).submit(id, op)
    }

    fn poll<R: Wait>(&self, rt: &R, ticket: Ticket) -> Result<Progress, TargetFault> {
        self.locked.lock(rt).poll(ticket)
    }
}
