use events::Rec;
use std::alloc::Global;
use version_pair::{NoMemory, Pair};

/// A write that was performed, the version that it was given, and the position of its reply.
#[derive(Clone, Copy)]
pub struct VersionedWrite {
    pub write: Rec,
    pub pair: Pair,
    pub event: usize,
}

/// A write that got a version below one that had been given before the write was made.
#[derive(Clone, Copy)]
pub struct VersionFall {
    pub before: VersionedWrite,
    pub after: VersionedWrite,
}

/// A reply to a write that was performed, and the write with the greatest version among those that were answered
/// up to it.
#[derive(Clone, Copy)]
pub struct Reached {
    pub event: usize,
    pub greatest: VersionedWrite,
}

/// Returns the record as a write that was performed; `None` if its reply doesn't say so.
pub fn performed_by(record: &Rec) -> Option<VersionedWrite> {
    let pair = record.pair_taken()?;
    let heard = record.heard?;
    Some(VersionedWrite {
        write: *record,
        pair,
        event: heard.0,
    })
}

// Returns the writes of the document that were performed, in response order, each as the greatest.
fn performed_by_reply(alloc: Global, records: &[Rec]) -> Result<Vec<Reached>, NoMemory> {
    let mut all = Vec::new(alloc);
    for record in records {
        if let Some(greatest) = performed_by(record) {
            let event = greatest.event;
            all.push(Reached { event, greatest })?;
        }
    }
    all.sort_unstable_by_key(|it| it.event);
    Ok(all)
}

/// Returns what was reached with each reply to a write that was performed, in response order.
pub fn reached_by_reply(alloc: Global, records: &[Rec]) -> Result<Vec<Reached>, NoMemory> {
    let mut all = performed_by_reply(alloc, records)?;
    let mut last: Option<VersionedWrite> = None;
    for it in all.iter_mut() {
        if let Some(before) = last {
            if it.greatest.pair.is_below(before.pair) {
                it.greatest = before;
            }
        }
        last = Some(it.greatest);
    }
    Ok(all)
}

/// Returns the first write of the document, by call, that got a version below one that had been given before
/// the write was made; `None` if there is none.
pub fn version_fall(alloc: Global, records: &[Rec]) -> Result<Option<VersionFall>, NoMemory> {
    let reached = reached_by_reply(alloc, records)?;
    for record in records {
        let answered = reached.partition_point(|it| it.event < record.call_at);
        let before = reached[..answered].last();
        if let (Some(after), Some(before)) = (performed_by(record), before) {
            if after.pair.is_below(before.greatest.pair) {
                let before = before.greatest;
                return Ok(Some(VersionFall { before, after }));
            }
        }
    }
    Ok(None)
}
