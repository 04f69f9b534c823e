use crate::chain_write::is_conflict;
use crate::count::{Count, No};
use crate::lines::Lines;
use crate::records::Records;
use crate::table::Table;
use crate::timed::Timed;
use doc_register::Conflicts;
use events::Rec;
use std::alloc::Global;
use version_pair::NoMemory;

/// Whether those of the writes of a number whose reply is a conflict come among the others, or after them.
#[derive(Clone, Copy, PartialEq, Eq)]
pub enum ConflictOrder {
    ByCall,
    Last,
}

/// The writes that a get can have shown although no reply of theirs shows it, by number: the unanswered ones,
/// and under Maybe those whose reply is a conflict.
#[derive(Drop)]
pub struct WritesByNumber<D: Count> {
    // The numbers, rising, and the line of each.
    numbers: Vec<u64>,
    lines: Lines<D>,
}

// A write with its number.
#[derive_where(Clone, Copy, PartialEq, Eq, PartialOrd, Ord)]
struct NumberedWrite<D: Count> {
    number: u64,
    // Whether it comes after those of its number of which this isn't so.
    is_late: bool,
    write: Timed<D>,
}

/// Returns the number of a write that may be completed.
pub fn number_of(found: Rec, conflicts: Conflicts) -> Option<u64> {
    let may_be = found.heard.is_none() || is_conflict(found) && conflicts == Conflicts::Maybe;
    if may_be { found.op.value() } else { None }
}

// The writes by number, in the order that each number's are in.
fn writes_by_number<D: Count>(
    alloc: Global,
    records: Records<'_, D>,
    conflicts: Conflicts,
    order: ConflictOrder,
) -> Result<Vec<NumberedWrite<D>>, NoMemory> {
    let mut writes = Vec::new(alloc);
    for index in 0..records.len() {
        let rec = No::new(index);
        let found = records.of(rec);
        if let Some(number) = number_of(found, conflicts) {
            writes.push(NumberedWrite {
                number,
                is_late: order == ConflictOrder::Last && found.heard.is_some(),
                write: Timed {
                    at: found.call_at,
                    rec,
                },
            })?;
        }
    }
    writes.sort_unstable();
    Ok(writes)
}

impl<D: Count> WritesByNumber<D> {
    /// Returns the writes of a document by number.
    pub fn of(
        alloc: Global,
        records: Records<'_, D>,
        conflicts: Conflicts,
        order: ConflictOrder,
    ) -> Result<WritesByNumber<D>, NoMemory> {
        let entries = writes_by_number(alloc, records, conflicts, order)?;
        let mut writes = WritesByNumber {
            numbers: Vec::new(alloc),
            lines: Lines::with_room(alloc, 0, entries.len())?,
        };
        for entry in &entries {
            if writes.numbers.last() != Some(&entry.number) {
                writes.numbers.push(entry.number)?;
            }
            writes.lines.push(writes.numbers.len() - 1, entry.write)?;
        }
        Ok(writes)
    }

    // The line of the number, if a write has it.
    fn line(&self, k: u64) -> Option<usize> {
        self.numbers.binary_search(&k).ok()
    }

    /// Returns the write of the number, if it is the only one.
    pub fn only(&self, k: u64) -> Option<No<D>> {
        match self.lines.all(self.line(k)?) {
            [entry] => Some(entry.rec),
            _ => None,
        }
    }

    /// Puts a write back that was taken. Those of its number must be in the order of calls.
    pub fn put_back(&mut self, k: u64, left: Timed<D>) {
        if let Some(line) = self.line(k) {
            self.lines.put_back(line, left);
        }
    }

    /// Returns the first write of the number that is left, and passes over those before it.
    pub fn first(&mut self, k: u64, taken: &Table<D, bool>) -> Option<Timed<D>> {
        let line = self.line(k)?;
        self.lines.first(line, taken)
    }

    /// Returns the writes of the number that are called after an index, if one is given, without some of those
    /// that were placed. They must be in the order of calls.
    pub fn waiting(&self, k: u64, last: Option<usize>) -> &[Timed<D>] {
        let Some(line) = self.line(k) else {
            return &[];
        };
        let waiting = self.lines.waiting(line);
        &waiting[waiting.partition_point(|entry| Some(entry.at) <= last)..]
    }
}
