use crate::lost::{Ask, Lost};
use completing::{Count, No, Records, Table, is_free_conflict};
use doc_register::Op;
use std::alloc::Global;
use version_pair::NoMemory;
use write_chain::sort_nearly_ordered;

/// A walk from the first write of the chain to the last, along which the conflicts without a condition that had no
/// place in the chain at first are taken.
#[derive(Drop)]
pub struct RefusedWalk<'a, D: Count> {
    /// All of them, in response order.
    pub all: &'a [RefusedWrite<D>],
    // Before these no delete, and no index, is left that can be where the walk is.
    next_delete: usize,
    next_index: usize,
}

/// A conflict without a condition.
#[derive_where(Clone, Copy, PartialEq, Eq, PartialOrd, Ord)]
pub struct RefusedWrite<D: Count> {
    pub reply_at: usize,
    pub rec: No<D>,
    call_at: usize,
    deletes: bool,
}

/// Returns the conflicts without a condition that have no place in the chain, in response order.
pub fn refused_writes<D: Count>(
    alloc: Global,
    records: Records<'_, D>,
    lost: &Lost<D>,
) -> Result<Vec<RefusedWrite<D>>, NoMemory> {
    let mut refused = Vec::new(alloc);
    for rec in lost.incomplete() {
        let found = records.of(*rec);
        if let Some(heard) = found.heard {
            if is_free_conflict(found) && !lost.taken().of(*rec) {
                refused.push(RefusedWrite {
                    reply_at: heard.0,
                    rec: *rec,
                    call_at: found.call_at,
                    deletes: matches!(found.op, Op::Delete { .. }),
                })?;
            }
        }
    }
    sort_nearly_ordered(&mut refused);
    Ok(refused)
}

impl<'a, D: Count> RefusedWalk<'a, D> {
    /// Returns a walk before its first step.
    pub fn new(all: &'a [RefusedWrite<D>]) -> RefusedWalk<'a, D> {
        RefusedWalk {
            all,
            next_delete: 0,
            next_index: 0,
        }
    }

    // The next one of the kind, from an index on, that is left and whose reply comes after the greatest call
    // before it.
    fn next(
        &self,
        taken: &Table<D, bool>,
        deletes: bool,
        from: usize,
        latest_call: usize,
    ) -> usize {
        for i in from..self.all.len() {
            let entry = self.all[i];
            let is_kind = entry.deletes == deletes && latest_call < entry.reply_at;
            if is_kind && !taken.of(entry.rec) {
                return i;
            }
        }
        self.all.len()
    }

    /// Returns the first one, in response order, that is of the kind and whose reply comes after the calls of
    /// all writes before it, if it is called in time.
    pub fn first(&mut self, taken: &Table<D, bool>, ask: Ask, latest_call: usize) -> Option<No<D>> {
        let next = if ask.delete {
            self.next_delete = self.next(taken, true, self.next_delete, latest_call);
            self.next_delete
        } else {
            self.next_index = self.next(taken, false, self.next_index, latest_call);
            self.next_index
        };
        match self.all.get(next) {
            Some(entry) if entry.call_at < ask.limit => Some(entry.rec),
            _ => None,
        }
    }
}
