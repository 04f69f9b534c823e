ghost use Rattle.std.specs.Prelude.{◌≡◌, ℕ, ◌<◌, ◌++◌, ◌∷◌, ◌==◌, [], IfOk, OnErr, OnOk, Some, if◌then◌else◌, is_some, length};
ghost use Rattle.std.specs.Map.{lookup};
ghost use Rattle.repl_group.specs.Copies.{holds as is_held};
ghost use Rattle.repl_group.specs.aids.Logging.{held_at};

use crate::held_write::HeldWrite;
use indexmap::IndexMap;
use std::alloc::Global;
use std::marker::Model;
use version_pair::NoMemory;

/// A write of the log, under the ticket that asked for it, after what is held at an earlier position.
#[derive(Debug, Drop)]
pub struct Logged {
    pub ticket: u64,
    pub write: HeldWrite,
    pub before: usize,
}

/// The writes that copies took, each after what its copy held before, so that copies share what they hold in
/// common.
///
/// At position 0 nothing is held. Each write makes the next position, which holds the write, and all that was
/// held at the position after which it came. Contracts see what is held at each position, in the order in
/// which it came.
#[derive(Debug, Drop)]
pub struct WriteLog {
    entries: Vec<Logged>,
    // The number of the first entry of each ticket.
    first: IndexMap<u64, usize>,
}

impl Model for WriteLog {
    ghost use Rattle.std.specs.Prelude.{List, ℕ};
    ghost use Rattle.repl_group.specs.declared.held_write.HeldWrite.{HeldWrite};

    ghost Value = { List (List (ℕ × HeldWrite)) };

    ghost use Rattle.repl_group.specs.aids.Logging.{IsLog, held_sets};

    ghost view = { λ l. held_sets l.entries.items };

    ghost invariant = { λ l. IsLog l.entries.items l.first.entries };
}

// Sets the number of the first entry of a ticket, if none is set yet. If memory is refused, nothing changes.
fn note_first(first: &mut IndexMap<u64, usize>, ticket: u64, number: usize) -> Result<(), NoMemory>
    ensures ok { OnOk result ((t : ℕ) → lookup (◌==◌ t) first.new.entries
        ≡ (if is_some (lookup (◌==◌ ticket) first.old.entries) then lookup (◌==◌ t) first.old.entries
        else (if t == ticket then Some number else lookup (◌==◌ t) first.old.entries))) }
    ensures err { OnErr result (first.new.entries ≡ first.old.entries) }
{
    if !first.contains_key(&ticket) {
        first.insert(ticket, number)?;
    }
    Ok(())
}

impl WriteLog {
    /// Returns a log without writes. It allocates nothing.
    pub fn new(alloc: Global) -> WriteLog
        ensures { result ≡ [] ∷ [] }
    {
        WriteLog {
            entries: Vec::new(alloc),
            first: IndexMap::new(alloc),
        }
    }

    /// Returns whether the write of the ticket is held at the position. The time is proportional to the
    /// number of writes that came to the position after the first entry of the ticket.
    pub fn holds(&self, place: usize, ticket: u64) -> bool
        requires { place < length self.now }
        ensures { result ≡ is_held (held_at self.now place) ticket }
    {
        let Some(first) = self.first.get(&ticket).copied() else {
            return false;
        };
        let mut at = place;
        while at > first {
            let entry = &self.entries[at - 1];
            if entry.ticket == ticket {
                return true;
            }
            at = entry.before;
        }
        false
    }

    /// Adds the write of a ticket after a position, and returns its own position, the next one. If memory is
    /// refused, nothing changes.
    pub fn push(&mut self, place: usize, ticket: u64, write: HeldWrite) -> Result<usize, NoMemory>
        requires { place < length self.old }
        ensures place { IfOk result (λ next. next ≡ length self.old) }
        ensures sets { OnOk result (self.new ≡ self.old ++ (held_at self.old place ++ (ticket, write) ∷ []) ∷ []) }
        ensures err { OnErr result (self.new ≡ self.old) }
    {
        let number = self.entries.len();
        self.entries.reserve(1)?;
        note_first(&mut self.first, ticket, number)?;
        self.entries.push_reserved(Logged {
            ticket,
            write,
            before: place,
        });
        Ok(number + 1)
    }
}
