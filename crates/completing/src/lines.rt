ghost use Rattle.std.specs.Prelude.{◌+◌, ◌≤◌, All, length};

use crate::count::Count;
use crate::table::Table;
use crate::timed::Timed;
use std::alloc::Global;
use version_pair::NoMemory;

/// Returns the index of the first entry that is left, from an index on; the number of entries if none is.
pub fn first_left<D: Count>(entries: &[Timed<D>], from: usize, taken: &Table<D, bool>) -> usize
    ensures { result ≤ length entries.now }
{
    for i in from..entries.len() {
        if !taken.of(entries[i].rec) {
            return i;
        }
    }
    entries.len()
}

/// Lines of records, each in its order, with what is known to be left of them. A line that no record is in may be
/// missing.
#[derive(Drop)]
pub struct Lines<D: Count> {
    // The records with the indices of their calls, one line after another.
    entries: Vec<Timed<D>>,
    lines: Vec<Line>,
    ghost within: { All (λ line. line.start + line.len ≤ length entries.items) lines.items },
}

// The records of a line: where they begin, and how many there are.
#[derive(Clone, Copy)]
struct Line {
    start: usize,
    len: usize,
    // So many of its records are known not to be left.
    passed: usize,
}

impl<D: Count> Lines<D> {
    /// Returns no lines, with room for so many, and for so many records.
    pub fn with_room(alloc: Global, lines: usize, records: usize) -> Result<Lines<D>, NoMemory> {
        Ok(Lines {
            entries: Vec::with_capacity(alloc, records)?,
            lines: Vec::with_capacity(alloc, lines)?,
        })
    }

    /// Adds a record to the line with the index: the last one, or one after it.
    pub fn push(&mut self, line: usize, entry: Timed<D>) -> Result<(), NoMemory> {
        let start = self.entries.len();
        for _ in self.lines.len()..line {
            self.lines.push(Line {
                start,
                len: 0,
                passed: 0,
            })?;
        }
        self.entries.push(entry)?;
        if line < self.lines.len() {
            self.lines[line].len += 1;
        } else {
            self.lines.push(Line {
                start,
                len: 1,
                passed: 0,
            })?;
        }
        Ok(())
    }

    // The entries of the line with the index, and how many of them are passed; none if there is no such line.
    fn line(&self, line: usize) -> (&[Timed<D>], usize) {
        match self.lines.get(line) {
            Some(own) => (&self.entries[own.start..own.start + own.len], own.passed),
            None => (&[], 0),
        }
    }

    // Sets how many entries of the line are passed.
    fn set_passed(&mut self, line: usize, passed: usize) {
        if let Some(own) = self.lines.get_mut(line) {
            own.passed = passed;
        }
    }

    /// Returns the first record of the line that is left.
    pub fn first(&mut self, line: usize, placed: &Table<D, bool>) -> Option<Timed<D>> {
        let (own, passed) = self.line(line);
        let first = first_left(own, passed, placed);
        let left = own.get(first).copied();
        self.set_passed(line, first);
        left
    }

    /// Puts a record back that was taken. The line must be in the order of calls.
    pub fn put_back(&mut self, line: usize, left: Timed<D>) {
        let (own, passed) = self.line(line);
        let first = own.partition_point(|entry| *entry < left);
        self.set_passed(line, passed.min(first));
    }

    /// Returns the records of the line, with the indices of their calls.
    pub fn all(&self, line: usize) -> &[Timed<D>] {
        self.line(line).0
    }

    /// Returns the records of the line, without some of those that were placed.
    pub fn waiting(&self, line: usize) -> &[Timed<D>] {
        let (own, passed) = self.line(line);
        &own[passed.min(own.len())..]
    }
}
