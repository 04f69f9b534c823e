ghost use Rattle.std.specs.Prelude.{◌≤◌, length};

use completing::{Count, Table, Timed, first_left};
use std::alloc::Global;
use version_pair::NoMemory;

/// Records, each with an index, and the first one that is left.
#[derive(Drop)]
pub struct Queue<D: Count> {
    entries: Vec<Timed<D>>,
    // The index of the entry before which none is left.
    first: usize,
    ghost within: { first ≤ length entries.items },
}

impl<D: Count> Queue<D> {
    /// Returns a queue without records.
    pub fn new(alloc: Global) -> Queue<D> {
        Queue {
            entries: Vec::new(alloc),
            first: 0,
        }
    }

    /// Adds a record. The queue must be sorted before the first record is asked for.
    pub fn push(&mut self, entry: Timed<D>) -> Result<(), NoMemory> {
        self.entries.push(entry)?;
        Ok(())
    }

    /// Sorts the records by index.
    pub fn sort(&mut self) {
        self.entries.sort_unstable();
    }

    /// Returns the first one that is left.
    pub fn first(&mut self, taken: &Table<D, bool>) -> Option<Timed<D>> {
        self.first = first_left(&self.entries, self.first, taken);
        self.entries.get(self.first).copied()
    }
}
