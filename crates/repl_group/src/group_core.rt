ghost use Rattle.std.specs.Prelude.{◌≡◌, ◌<◌, ◌⊎◌, ◌↔◌, Err, IfOk, OnErr, length, nat_lt, not, slice_get};
ghost use Rattle.repl_group.specs.Group.{IsCopyCount, MayTake, Takes, is_in_sync, most_tickets, result_of, start};
ghost use Rattle.repl_group.specs.Honest.{IsHonestUnlessFaulty};
ghost use Rattle.repl_group.specs.Requests.{in_flight_from};

use crate::fault::{CoreFault, Fault};
use crate::machine::Machine;
use crate::step::{Answer, Step};
use doc_register::Reply;
use std::alloc::Global;
use std::marker::Model;
use version_pair::NoMemory;

/// The greatest number of copies of a group.
pub const MOST_COPIES: u32 = 5;

/// The core of a replication group: a state machine that takes one step at a time.
///
/// Contracts see it as a `GroupState`: what it does wrong, its term and primary, its tickets and its copies.
/// The type guarantees that a group without a fault is honest: no pair is given to two tickets, and each copy
/// in sync holds each write that is answered `Indexed` or `Deleted`. (What the copies hold is kept in one
/// log, in which each copy has a position; the lists of the `GroupState` are just what is held at these
/// positions.)
#[derive(Debug, Drop)]
pub struct Core {
    machine: Machine,
}

impl Model for Core {
    ghost use Rattle.repl_group.specs.Group.{GroupState};

    ghost Value = { GroupState };

    ghost use Rattle.repl_group.specs.aids.Sound.{IsSoundUnlessFaulty};

    ghost view = { λ c. c.machine };

    ghost invariant = { λ c. IsSoundUnlessFaulty c.machine };
}

impl Core {
    /// Returns the core of a group with that many copies, 1 to 5, at the start: term 1, copy 0 the primary,
    /// all copies in sync, none cut off, nothing submitted. Errors, in this order: `Copies` for another
    /// number of copies; `NoMemory`.
    pub fn new(alloc: Global, copies: u32, fault: Fault) -> Result<Core, CoreFault>
        ensures ok { IfOk result (λ core. core ≡ start fault copies) }
        ensures copies { (result ≡ Err CoreFault.Copies) ↔ ((copies ≡ 0) ⊎ (5 < copies)) }
        // The group is honest unless it has a fault.
        ensures honest { IfOk result IsHonestUnlessFaulty }
    {
        if copies == 0 || copies > MOST_COPIES {
            return Err(CoreFault::Copies);
        }
        match Machine::new(alloc, copies, fault) {
            Ok(machine) => Ok(Core { machine }),
            Err(_) => Err(CoreFault::NoMemory),
        }
    }

    /// Takes one step, and returns its answer. It fails only if memory is refused; the step is then dropped.
    ///
    /// Every answer but `Ticket` and `Done` leaves the group as it was, and so does an error. A step takes
    /// the time of looking up its documents, tickets and copies, and at most a time proportional to the
    /// number of tickets in flight. `Copy` and `Ack` also take a time proportional to the number of writes
    /// that a copy took since the ticket was first performed; `Heal` and `Promote` one proportional to the
    /// number of documents, for each copy that takes them. No step takes longer because of the writes and the
    /// tickets that the group has had.
    pub fn step(&mut self, step: Step) -> Result<Answer, NoMemory>
        // The answer and the group after it are those of the table, which gives each step just one answer: so
        // each answer comes exactly if the table has it, for each fault.
        ensures ok { IfOk result (λ answer. Takes self.old step answer self.new) }
        // An error leaves the group as it was.
        ensures err { OnErr result (self.new ≡ self.old) }
        // It fails only at a step that the table lets the group take.
        ensures due { OnErr result (MayTake self.old step) }
        // The group stays honest unless it has a fault.
        ensures honest { IsHonestUnlessFaulty self.new }
    {
        self.machine.step(step)
    }

    /// Returns the reply to a ticket, if it is answered; `None` also if there is no such ticket.
    pub fn result(&self, ticket: u64) -> Option<Reply>
        ensures reply { result ≡ result_of self.now ticket }
        // The group is honest unless it has a fault.
        ensures honest { IsHonestUnlessFaulty self.now }
    {
        self.machine.result(ticket)
    }

    /// Returns the term.
    pub fn term(&self) -> u64
        ensures { result ≡ self.now.term }
    {
        self.machine.term()
    }

    /// Returns the number of the primary.
    pub fn primary(&self) -> u32
        ensures { result ≡ self.now.primary }
    {
        self.machine.primary()
    }

    /// Returns whether a copy is in sync; `false` if there is no such copy.
    pub fn in_sync(&self, copy: u32) -> bool
        ensures { result ≡ is_in_sync self.now copy }
    {
        self.machine.in_sync(copy)
    }

    // Returns whether all tickets have been given.
    pub(crate) fn is_full(&self) -> bool
        ensures full { result ≡ not (nat_lt (length self.now.requests) most_tickets) }
        ensures honest { IsHonestUnlessFaulty self.now }
    {
        self.machine.is_full()
    }

    /// Returns the number of copies, 1 to 5.
    pub fn copy_count(&self) -> u32
        ensures count { result ≡ length self.now.copies }
        ensures range { IsCopyCount result }
    {
        self.machine.copy_count()
    }

    // Returns the number of tickets in flight.
    pub(crate) fn in_flight_len(&self) -> usize
        ensures { result ≡ length (in_flight_from 0 self.now.requests) }
    {
        self.machine.in_flight_len()
    }

    // Returns the ticket at this index of those in flight, in rising order.
    pub(crate) fn in_flight_at(&self, place: usize) -> Option<u64>
        ensures { result ≡ slice_get (in_flight_from 0 self.now.requests) place }
    {
        self.machine.in_flight_at(place)
    }
}
