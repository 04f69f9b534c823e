use crate::falling_versions::{Reached, VersionedWrite, performed_by, reached_by_reply};
use doc_register::{Conflicts, Op};
use events::Rec;
use std::alloc::Global;
use version_pair::{NoMemory, Pair};

// The greatest number of writes with one version that are looked at.
const MOST_ALIKE: usize = 4;

// A write, the least position of the call of a delete with its version or a greater one, and the greatest version of a
// delete up to it.
#[derive(Clone, Copy)]
struct RankedWrite {
    write: VersionedWrite,
    delete_from: usize,
    last_delete: Option<Pair>,
}

/// The writes of a document whose replies say that they were performed.
#[derive(Drop)]
pub struct PerformedWrites {
    // By version.
    list: Vec<RankedWrite>,
    // In response order, each with the greatest version up to it.
    reached: Vec<Reached>,
    // The least position of the call of a delete that may have been performed, though no reply says so.
    silent_delete: usize,
}

/// Returns whether the write is a delete.
pub fn is_delete(write: &Rec) -> bool {
    matches!(write.op, Op::Delete { .. })
}

// Returns the writes that were performed, by version.
fn ranked_writes(alloc: Global, records: &[Rec]) -> Result<Vec<RankedWrite>, NoMemory> {
    let mut list = Vec::new(alloc);
    for record in records {
        if let Some(write) = performed_by(record) {
            let delete_from = if is_delete(record) {
                record.call_at
            } else {
                usize::MAX
            };
            list.push(RankedWrite {
                write,
                delete_from,
                last_delete: None,
            })?;
        }
    }
    list.sort_unstable_by_key(|it| it.write.pair);
    let mut least = usize::MAX;
    for i in (0..list.len()).rev() {
        least = least.min(list[i].delete_from);
        list[i].delete_from = least;
    }
    let mut last: Option<Pair> = None;
    for it in list.iter_mut() {
        if is_delete(&it.write.write) {
            last = Some(it.write.pair);
        }
        it.last_delete = last;
    }
    Ok(list)
}

// Returns the least position of the call of a delete that may have been performed, though no reply says so.
fn silent_delete(records: &[Rec], conflicts: Conflicts) -> usize {
    let mut least = usize::MAX;
    for record in records {
        if is_delete(record) && !record.is_complete(conflicts) {
            least = least.min(record.call_at);
        }
    }
    least
}

impl PerformedWrites {
    /// Returns those among a document's calls.
    pub fn of(
        alloc: Global,
        records: &[Rec],
        conflicts: Conflicts,
    ) -> Result<PerformedWrites, NoMemory> {
        Ok(PerformedWrites {
            list: ranked_writes(alloc, records)?,
            reached: reached_by_reply(alloc, records)?,
            silent_delete: silent_delete(records, conflicts),
        })
    }

    // Returns how many writes have versions below this one.
    fn count_below(&self, pair: Pair) -> usize {
        self.list.partition_point(|it| it.write.pair.is_below(pair))
    }

    /// Returns the number of these writes.
    pub fn count(&self) -> usize {
        self.list.len()
    }

    /// Returns the write of this number, by version.
    pub fn get(&self, number: usize) -> Option<VersionedWrite> {
        let it = self.list.get(number)?;
        Some(it.write)
    }

    /// Returns the position of the later reply of the write of this number and the one before it, by version, if both were
    /// given one version.
    pub fn again_at(&self, number: usize) -> Option<usize> {
        let before = self.get(number.checked_sub(1)?)?;
        let write = self.get(number)?;
        if before.pair == write.pair {
            Some(before.event.max(write.event))
        } else {
            None
        }
    }

    /// Returns the write with the greatest version among those that were answered before the event.
    pub fn acknowledged_before(&self, event: usize) -> Option<VersionedWrite> {
        let count = self.reached.partition_point(|it| it.event < event);
        let last = self.reached[..count].last()?;
        Some(last.greatest)
    }

    /// Returns whether two of them were given the version.
    pub fn is_twice(&self, pair: Pair) -> bool {
        match self.get(self.count_below(pair).saturating_add(1)) {
            Some(second) => second.pair == pair,
            None => false,
        }
    }

    /// Returns the greatest version below this one.
    pub fn last_below(&self, pair: Pair) -> Option<Pair> {
        let number = self.count_below(pair).checked_sub(1)?;
        let last = self.get(number)?;
        Some(last.pair)
    }

    /// Returns the greatest version of a delete that is not above this one.
    pub fn last_delete(&self, pair: Pair) -> Option<Pair> {
        let it = self.list.get(self.count_below(pair))?;
        it.last_delete
    }

    /// Returns the first write, by version, with a version between these two.
    pub fn first_between(&self, below: Pair, above: Pair) -> Option<VersionedWrite> {
        let number = self
            .list
            .partition_point(|it| !below.is_below(it.write.pair));
        let next = self.get(number)?;
        if next.pair.is_below(above) {
            Some(next)
        } else {
            None
        }
    }

    /// Returns a write with this version.
    pub fn made(&self, pair: Pair) -> Option<VersionedWrite> {
        self.get(self.count_below(pair))
            .filter(|write| write.pair == pair)
    }

    /// Returns the write with this version that may have written the number, or that is a delete if there is no
    /// number; the first one that is found.
    pub fn writer(&self, pair: Pair, k: Option<u64>) -> Option<VersionedWrite> {
        for it in self
            .list
            .iter()
            .skip(self.count_below(pair))
            .take(MOST_ALIKE)
        {
            if it.write.pair == pair && it.write.write.op.value() == k {
                return Some(it.write);
            }
        }
        None
    }

    // Whether no delete that was called before the event can have removed the document after the version.
    fn stands(&self, pair: Pair, event: usize) -> bool {
        let delete_from = match self.list.get(self.count_below(pair)) {
            Some(it) => it.delete_from,
            None => usize::MAX,
        };
        event <= delete_from && event <= self.silent_delete
    }

    /// Returns the write that made the document, which a reply at the event says is not there, though the write was
    /// acknowledged before the call was made and nothing can have deleted the document since.
    pub fn missed(&self, call_at: usize, event: usize) -> Option<VersionedWrite> {
        self.acknowledged_before(call_at).filter(|write| !is_delete(&write.write)
            && self.stands(write.pair, event))
    }
}
