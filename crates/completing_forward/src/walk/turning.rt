//! Conflicts that were placed as refused and are performed after all.

use super::{ForwardWalk, Placed};
use crate::known::KnownPair;
use crate::state::Document;
use crate::wait_kind::WaitKind;
use completing::{Count, No, leaves_it};
use version_pair::{NoMemory, Pair};

/// The number of placed records that are looked at, from the last one back.
pub const MOST_BACK: usize = 64;

impl<D: Count> ForwardWalk<'_, D> {
    // The record that was placed before the last `back` of the first `count` ones, if it was placed as a read or as
    // one that is refused, and still is.
    fn read_before(&self, count: usize, back: usize) -> Option<No<D>> {
        let place = count.checked_sub(back)?.checked_sub(1)?;
        match self.order.get(place)? {
            Placed::Read(rec) if self.read.of(*rec) => Some(*rec),
            _ => None,
        }
    }

    // The same, if it was called after the index.
    fn later_read_before(&self, count: usize, back: usize, index: usize) -> Option<No<D>> {
        let read = self.read_before(count, back)?;
        if self.records.of(read).call_at > index {
            Some(read)
        } else {
            None
        }
    }

    // The index of the reply of an answered record.
    fn reply_of(&self, rec: No<D>) -> usize {
        match self.records.of(rec).heard {
            Some(heard) => heard.0,
            None => usize::MAX,
        }
    }

    /// Returns whether the record is a conflict that stands as refused and can be a write here as well: all writes that
    /// are placed were called before its reply.
    pub fn can_stand(&self, rec: No<D>) -> bool {
        match self.records.of(rec).heard {
            Some(heard) => {
                self.read.of(rec) && !self.turned.of(rec) && self.state.latest < heard.0
            }
            None => false,
        }
    }

    // Whether the reads that were placed, and called after the reply of the record, may come after it if it ends the
    // pair that the document has.
    fn leaves_reads(&self, rec: No<D>) -> bool {
        let reply_at = self.reply_of(rec);
        for back in 0..MOST_BACK {
            if let Some(read) = self.later_read_before(self.order.len(), back, reply_at) {
                if matches!(self.kinds.of(read), Some(WaitKind::Found(_))) {
                    return false;
                }
            }
        }
        true
    }

    // Whether the conflict can be performed on the document here: a create if the document is absent, else a write
    // under the condition of the pair that it has.
    fn is_performed(&self, rec: No<D>) -> bool {
        match self.state.document {
            Document::Absent => self.kinds.of(rec) == Some(WaitKind::CreateConflict),
            Document::Known(_) | Document::Invented(_) => self.is_on_present(rec),
        }
    }

    // The record that was placed before the last `back` ones, if it was placed as refused and can be performed here.
    fn refused_before(&self, back: usize) -> Option<No<D>> {
        let rec = self.read_before(self.order.len(), back)?;
        if self.is_performed(rec) && self.can_stand(rec) && self.leaves_reads(rec) {
            Some(rec)
        } else {
            None
        }
    }

    /// Returns the record that was placed before the last `back` ones as an inserted write, if it was placed as
    /// refused. (On a document that is absent a create alone would be performed.)
    pub fn turned_over(&self, back: usize) -> Option<Placed<D>> {
        Some(Placed::InsertedTurned(self.refused_before(back)?, None))
    }

    /// Returns whether a create that stands as refused can be a write here, and has the number if one is given.
    pub fn has_refused_create(&self, number: Option<u64>) -> bool {
        for back in 0..MOST_BACK {
            if let Some(rec) = self.read_before(self.order.len(), back) {
                let is_create = self.kinds.of(rec) == Some(WaitKind::CreateConflict);
                if is_create && self.may_have(rec, number) && self.can_stand(rec) {
                    return true;
                }
            }
        }
        false
    }

    // Whether the record is a write of the document, of this number if one is given.
    fn may_have(&self, rec: No<D>, number: Option<u64>) -> bool {
        match self.records.of(rec).op.value() {
            Some(own) => number.is_none() || number == Some(own),
            None => false,
        }
    }

    /// Returns the record that was placed before the last `back` ones as an inserted write that takes the pair, if it
    /// was placed as refused, and the document is there after it.
    pub fn turned_to_write(&self, back: usize, pair: Pair) -> Option<Placed<D>> {
        let rec = self.refused_before(back)?;
        if leaves_it(self.records.of(rec).op) {
            Some(Placed::InsertedTurned(rec, Some(pair)))
        } else {
            None
        }
    }

    /// Returns the record that was placed before the last `back` ones as the write with the next known pair, if it
    /// was placed as refused, and can have that pair.
    pub fn turned_to_known(&self, back: usize, entry: KnownPair<D>) -> Option<Placed<D>> {
        let rec = self.refused_before(back)?;
        if self.may_have(rec, entry.number) {
            Some(Placed::KnownTurned(rec, entry.pair))
        } else {
            None
        }
    }

    // Takes back a record that was placed as a read, or as refused: it is left again.
    fn free_read(&mut self, read: No<D>) -> Result<(), NoMemory> {
        let call_at = self.records.of(read).call_at;
        let reply_at = self.reply_of(read);
        self.order.push(Placed::Freed(read))?;
        self.set(Placed::Freed(read), true);
        self.put_back(read);
        self.state.mark ^= self.mark(Placed::Read(read));
        let replies = self
            .replies
            .partition_point(|entry| entry.reply_at < reply_at);
        self.state.replies = self.state.replies.min(replies);
        let met = self
            .conflicts_by_call
            .partition_point(|entry| entry.at < call_at);
        self.state.conflicts_met = self.state.conflicts_met.min(met);
        Ok(())
    }

    // Takes back the reads that were placed before the record's write, and called after its reply: they come after the
    // write. `reads` is how many records were placed before it.
    pub(super) fn free_reads(&mut self, rec: No<D>, reads: usize) -> Result<(), NoMemory> {
        let reply_at = self.reply_of(rec);
        for back in 0..MOST_BACK {
            if let Some(read) = self.later_read_before(reads, back, reply_at) {
                self.free_read(read)?;
            }
        }
        Ok(())
    }
}
