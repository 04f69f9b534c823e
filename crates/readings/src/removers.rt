//! Deletes that may have removed a document before a get found nothing. Where to look first is a guess; that there
//! is one is checked.

ghost use Rattle.std.specs.Prelude.{◌≡◌, ◌↔◌, ◌⊎◌, IsTrue, None as Nothing};
ghost use Rattle.evidence.specs.Evidence.{MayTakeAbove};
ghost use Rattle.readings.specs.Reading.{conflicts_as};
ghost use Rattle.readings.specs.aids.Records.{HasRemover, IsRemover};
ghost use Rattle.history.specs.declared.text_rules.Writes.TheVariants.{Repeated};

use crate::reading::Reading;
use doc_register::{Conflicts, Op, Reply};
use events::Rec;
use history::Writes;
use std::alloc::Global;
use version_pair::{NoMemory, Pair};

// Whether what was heard of a delete allows that it took a pair above this one.
fn may_take_above(reading: Reading, call: &Rec, pair: Pair) -> bool
    ensures { IsTrue result ↔ MayTakeAbove (conflicts_as reading.conflicts) call.now.heard pair }
{
    match call.heard {
        None => true,
        Some((_, Reply::Deleted { pair: taken, .. })) => pair.is_below(taken),
        Some((_, Reply::Conflict)) => reading.conflicts_checked() == Conflicts::Maybe,
        Some((_, Reply::Indexed { .. } | Reply::Found { .. } | Reply::Missing)) => false,
    }
}

// Whether the call may have removed the document after its change with the pair, before the position.
fn is_remover(reading: Reading, call: &Rec, replied: usize, pair: Pair) -> bool
    ensures { IsTrue result ↔ IsRemover reading call.now replied pair }
{
    if call.call_at >= replied {
        return false;
    }
    match call.op {
        Op::Delete { cond } => {
            (reading.writes == Writes::Repeated && cond.is_none())
                || may_take_above(reading, call, pair)
        }
        Op::Get | Op::Index { .. } | Op::Create { .. } => false,
    }
}

// The deletes up to a call of one: the one of them that shows the greatest pair.
#[derive(Clone, Copy)]
struct DeletesUpTo {
    call_at: usize,
    highest: usize,
}

/// The deletes of a document.
#[derive(Drop)]
pub struct Removers {
    // The first delete that may have been performed at any time after its call.
    free: Option<usize>,
    // The others, in the order of their calls.
    answered: Vec<DeletesUpTo>,
}

// Whether the delete may have been performed with any pair.
fn is_free(reading: Reading, call: &Rec, cond: Option<Pair>) -> bool {
    if reading.writes == Writes::Repeated && cond.is_none() {
        return true;
    }
    match call.heard {
        None => true,
        Some((_, Reply::Conflict)) => reading.conflicts_checked() == Conflicts::Maybe,
        Some(
            (
                _,
                Reply::Indexed { .. }
                | Reply::Deleted { .. }
                | Reply::Found { .. }
                | Reply::Missing,
            ),
        ) => false,
    }
}

// The one of two deletes that shows the greater pair.
fn higher(records: &[Rec], one: usize, two: usize) -> usize {
    let shown = |rec: usize| records.get(rec).and_then(|call| call.pair_taken());
    if shown(one) < shown(two) { two } else { one }
}

impl Removers {
    /// Returns the deletes of a document.
    pub fn of(alloc: Global, reading: Reading, records: &[Rec]) -> Result<Removers, NoMemory> {
        let mut free = None;
        let mut answered: Vec<DeletesUpTo> = Vec::new(alloc);
        for rec in 0..records.len() {
            let call = &records[rec];
            let Op::Delete { cond } = call.op else {
                continue;
            };
            if is_free(reading, call, cond) {
                free = free.or(Some(rec));
                continue;
            }
            let highest = match answered.last() {
                Some(last) => higher(records, last.highest, rec),
                None => rec,
            };
            answered.push(DeletesUpTo {
                call_at: call.call_at,
                highest,
            })?;
        }
        Ok(Removers { free, answered })
    }

    // The delete called before the position that shows the greatest pair.
    fn highest_before(&self, position: usize) -> Option<usize> {
        let count = self
            .answered
            .partition_point(|delete| delete.call_at < position);
        let last = self.answered.get(count.checked_sub(1)?)?;
        Some(last.highest)
    }
}

// Whether the delete of this number of a record removed the document.
fn is_removed_by(
    reading: Reading,
    records: &[Rec],
    rec: Option<usize>,
    replied: usize,
    pair: Pair,
) -> bool
    ensures { IsTrue result → HasRemover reading records.now replied pair }
{
    let Some(rec) = rec else {
        return false;
    };
    match records.get(rec) {
        Some(call) => is_remover(reading, call, replied, pair),
        None => false,
    }
}

/// Returns whether a delete may have removed the document after its change with the pair, before the position.
pub fn has_remover(
    reading: Reading,
    records: &[Rec],
    removers: &Removers,
    replied: usize,
    pair: Pair,
) -> bool
    ensures { IsTrue result ↔ HasRemover reading records.now replied pair }
{
    if is_removed_by(reading, records, removers.free, replied, pair)
        || is_removed_by(
            reading,
            records,
            removers.highest_before(replied),
            replied,
            pair,
        )
    {
        return true;
    }
    for j in 0..records.len() {
        if is_remover(reading, &records[j], replied, pair) {
            return true;
        }
    }
    false
}
