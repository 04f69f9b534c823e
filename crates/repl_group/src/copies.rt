ghost use Rattle.std.specs.Prelude.{◌≡◌, ◌<◌, ◌&&◌, ◌||◌, [], Some, false, length, not, slice_get, replicate, slice_set, IfOk, OnErr, OnOk, map, option_map, true};
ghost use Rattle.std.specs.List.{list_all};
ghost use Rattle.std.specs.Option.{option_map_or};
ghost use Rattle.repl_group.specs.Copies.{ShardCopy, document_in, holds as is_held, next_seq as next_of};
ghost use Rattle.repl_group.specs.Group.{copy_with, led_by, new_copy};
ghost use Rattle.repl_group.specs.aids.Keeping.{flags_of};

use crate::copy_flags::CopyFlags;
use crate::held_write::HeldWrite;
use crate::replica::Replica;
use crate::replicas::{find_replica, follow, new_replicas, renew};
use crate::write_log::WriteLog;
use doc_register::DocState;
use std::alloc::Global;
use std::marker::Model;
use version_pair::NoMemory;

/// The copies of a group, numbered from 0.
///
/// What they hold is in one log, in which each copy has its position. So a copy takes over what another one
/// holds by taking over its position, which takes no time for the writes. Contracts see the list of the
/// copies.
#[derive(Debug, Drop)]
pub struct Copies {
    log: WriteLog,
    list: Vec<Replica>,
}

impl Model for Copies {
    ghost use Rattle.std.specs.Prelude.{List, map};
    ghost use Rattle.repl_group.specs.Copies.{ShardCopy};

    ghost Value = { List ShardCopy };

    ghost use Rattle.repl_group.specs.aids.Keeping.{AreKept, copy_of};

    ghost view = { λ c. map (copy_of c.log) c.list.items };

    ghost invariant = { λ c. AreKept c.log c.list.items };
}

impl Copies {
    /// Returns this many copies that hold nothing, in sync and reached.
    pub fn new(alloc: Global, count: u32) -> Result<Copies, NoMemory>
        ensures { IfOk result (λ copies. copies ≡ replicate count new_copy) }
    {
        let list = new_replicas(alloc, count)?;
        Ok(Copies {
            log: WriteLog::new(alloc),
            list,
        })
    }

    /// Returns the number of copies.
    pub fn len(&self) -> usize
        ensures { result ≡ length self.now }
    {
        self.list.len()
    }

    /// Returns whether the copy of this number is cut off, and whether it is in sync; `None` if there is none.
    pub fn flags(&self, copy: u32) -> Option<CopyFlags>
        ensures { result ≡ option_map flags_of (slice_get self.now copy) }
    {
        let replica = find_replica(&self.list, copy)?;
        Some(CopyFlags {
            is_cut: replica.is_cut,
            is_in_sync: replica.is_in_sync,
        })
    }

    /// Returns whether a copy holds the write of the ticket.
    pub fn holds(&self, copy: u32, ticket: u64) -> bool
        ensures { result ≡ is_held (option_map_or (λ y. y.writes) (slice_get self.now copy) []) ticket }
    {
        match find_replica(&self.list, copy) {
            Some(replica) => self.log.holds(replica.held.place(), ticket),
            None => false,
        }
    }

    /// Returns the document of this number, as a copy has it.
    pub fn document(&self, copy: u32, doc: usize) -> DocState
        ensures { result ≡ document_in (option_map_or (λ y. y.writes) (slice_get self.now copy) []) doc }
    {
        match find_replica(&self.list, copy) {
            Some(replica) => replica.held.document(doc),
            None => DocState::Never,
        }
    }

    /// Returns the sequence number of the next write at a copy, at most 2^63; 2^63 itself is no longer a
    /// sequence number.
    pub fn next_seq(&self, copy: u32) -> u64
        ensures { result ≡ next_of (option_map_or (λ y. y.writes) (slice_get self.now copy) []) }
    {
        match find_replica(&self.list, copy) {
            Some(replica) => replica.held.next_seq(),
            None => 0,
        }
    }

    /// Returns whether each copy in sync holds the write of the ticket.
    pub fn is_on_all_in_sync(&self, ticket: u64) -> bool
        ensures { result ≡ list_all (λ y. not y.is_in_sync || is_held y.writes ticket) self.now }
    {
        for replica in &self.list {
            if replica.is_in_sync && !self.log.holds(replica.held.place(), ticket) {
                return false;
            }
        }
        true
    }

    /// Adds the write of a ticket to a copy, if it does not hold it yet. If memory is refused, nothing
    /// changes.
    pub fn add_write(&mut self, copy: u32, ticket: u64, write: HeldWrite) -> Result<(), NoMemory>
        requires { copy < length self.old }
        ensures ok { OnOk result ((y : ShardCopy) → slice_get self.old copy ≡ Some y
            → self.new ≡ slice_set self.old copy (copy_with y ticket write)) }
        ensures len { length self.new ≡ length self.old }
        ensures err { OnErr result (self.new ≡ self.old) }
    {
        let place = self.list[copy as usize].held.place();
        if self.log.holds(place, ticket) {
            return Ok(());
        }
        let next = self.log.push(place, ticket, write)?;
        self.list[copy as usize].held.add(next, write)?;
        Ok(())
    }

    /// Sets whether a copy is cut off.
    pub fn set_cut(&mut self, copy: u32, is_cut: bool)
        requires { copy < length self.old }
        ensures set { (y : ShardCopy) → slice_get self.old copy ≡ Some y
            → self.new ≡ slice_set self.old copy (record y { is_cut = is_cut }) }
        ensures len { length self.new ≡ length self.old }
    {
        self.list[copy as usize].is_cut = is_cut;
    }

    /// Sets whether a copy is in sync.
    pub fn set_in_sync(&mut self, copy: u32, is_in_sync: bool)
        requires { copy < length self.old }
        ensures set { (y : ShardCopy) → slice_get self.old copy ≡ Some y
            → self.new ≡ slice_set self.old copy (record y { is_in_sync = is_in_sync }) }
        ensures len { length self.new ≡ length self.old }
    {
        self.list[copy as usize].is_in_sync = is_in_sync;
    }

    /// Lets a copy hold what the primary holds, reached again and in sync. If memory is refused, nothing
    /// changes. The time is proportional to the number of documents.
    pub fn renew(&mut self, copy: u32, primary: u32) -> Result<(), NoMemory>
        requires copy { copy < length self.old }
        requires primary { primary < length self.old }
        ensures ok { OnOk result (self.new ≡ slice_set self.old copy (record {
          writes = option_map_or (λ y. y.writes) (slice_get self.old primary) [];
          is_cut = false;
          is_in_sync = true;
        })) }
        ensures len { length self.new ≡ length self.old }
        ensures err { OnErr result (self.new ≡ self.old) }
    {
        let held = self.list[primary as usize].held.copy()?;
        renew(&mut self.list, copy, held);
        Ok(())
    }

    /// Lets the copies that are in sync and not cut hold what the new primary holds, which is one of them;
    /// the cut copies are not in sync any more. If memory is refused, nothing changes. For each of these
    /// copies the time is proportional to the number of documents.
    pub fn follow(&mut self, primary: u32) -> Result<(), NoMemory>
        requires there { primary < length self.old }
        requires follows { (y : ShardCopy) → slice_get self.old primary ≡ Some y → (y.is_in_sync && not y.is_cut) ≡ true }
        ensures ok { OnOk result ((y : ShardCopy) → slice_get self.old primary ≡ Some y → self.new ≡ map (led_by y.writes) self.old) }
        ensures len { length self.new ≡ length self.old }
        ensures err { OnErr result (self.new ≡ self.old) }
    {
        follow(&mut self.list, primary)?;
        Ok(())
    }
}
