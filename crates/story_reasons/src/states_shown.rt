//! What the replies to a document's calls show of its states.

use crate::performed_writes::{PerformedWrites, is_delete};
use doc_register::Reply;
use events::Rec;
use std::alloc::Global;
use version_pair::{NoMemory, Pair};

/// A call whose reply shows an older state of its document than one that was acknowledged before the call was made.
#[derive(Clone, Copy)]
pub struct OlderState {
    pub record: Rec,
    /// The position of the reply.
    pub event: usize,
    /// The last version of that state; `None` if the document was never written.
    pub version: Option<Pair>,
}

/// A version that a reply shows or builds on, and the position of the call.
#[derive(Clone, Copy)]
pub struct SeenVersion {
    pub pair: Pair,
    pub call_at: usize,
}

// Returns the older state that a document is in if the reply says that it is not there; `None` if that is no older state.
fn older_absent(writes: &PerformedWrites, record: &Rec, event: usize) -> Option<Option<Pair>> {
    let missed = writes.missed(record.call_at, event)?;
    Some(writes.last_delete(missed.pair))
}

// Returns the older state on which the write was performed; `None` if it is no older one.
fn older_written(
    writes: &PerformedWrites,
    record: &Rec,
    event: usize,
    pair: Pair,
    absent: bool,
) -> Option<Option<Pair>> {
    let before = writes.acknowledged_before(record.call_at)?;
    match record.op.condition() {
        Some(asked) if asked.is_below(before.pair) => Some(Some(asked)),
        _ if !before.pair.is_below(pair) => Some(writes.last_below(pair)),
        None if absent => older_absent(writes, record, event),
        _ => None,
    }
}

// Returns the older state that the reply to the call shows; `None` if it shows none.
fn older_version(writes: &PerformedWrites, record: &Rec) -> Option<Option<Pair>> {
    let (event, reply) = record.heard?;
    match reply {
        Reply::Found { pair, .. } => {
            let before = writes.acknowledged_before(record.call_at)?;
            if pair.is_below(before.pair) {
                Some(Some(pair))
            } else {
                None
            }
        }
        Reply::Missing => older_absent(writes, record, event),
        Reply::Indexed { pair, created } => older_written(writes, record, event, pair, created),
        Reply::Deleted { pair, found } => older_written(writes, record, event, pair, !found),
        Reply::Conflict => None,
    }
}

/// Returns the calls whose replies show older states, in response order.
pub fn older_states(
    alloc: Global,
    writes: &PerformedWrites,
    records: &[Rec],
) -> Result<Vec<OlderState>, NoMemory> {
    let mut older = Vec::new(alloc);
    for record in records {
        if let (Some(version), Some(heard)) = (older_version(writes, record), record.heard) {
            older.push(OlderState {
                record: *record,
                event: heard.0,
                version,
            })?;
        }
    }
    older.sort_unstable_by_key(|it| it.event);
    Ok(older)
}

// Whether the version, with the number that a get found with it, is of a write that was answered before the call.
fn is_of_before(
    writes: &PerformedWrites,
    pair: Pair,
    k: Option<u64>,
    builder: Option<&Rec>,
) -> bool {
    match (writes.writer(pair, k), builder) {
        (Some(writer), Some(builder)) => writer.event < builder.call_at,
        (_, builder) => builder.is_none(),
    }
}

// Returns the version that the call shows or builds on, if it is of a write that was answered before the call that was
// performed on an older state. If there is no such call, a write without a condition builds on all before it.
fn seen_by(writes: &PerformedWrites, record: &Rec, builder: Option<&Rec>) -> Option<Pair> {
    let (_, reply) = record.heard?;
    match (reply, record.op.condition()) {
        (Reply::Conflict, _) => None,
        (Reply::Found { pair, k }, _) => {
            Some(pair).filter(|pair| is_of_before(writes, *pair, Some(k), builder))
        }
        (Reply::Missing, _) => {
            let before = writes.acknowledged_before(record.call_at)?;
            let is_seen = is_delete(&before.write)
                && is_of_before(writes, before.pair, None, builder);
            Some(before.pair).filter(|_| is_seen)
        }
        (_, Some(asked)) => {
            let known = writes.made(asked);
            let is_old = match (known, builder) {
                (Some(known), Some(builder)) => known.event < builder.call_at,
                (_, builder) => builder.is_none(),
            };
            Some(asked).filter(|asked| is_old && !writes.is_twice(*asked))
        }
        (_, None) => record.pair_taken().filter(|_| builder.is_none()),
    }
}

/// Returns the versions that replies show or build on, by version. `builder` is the first write that was performed on an
/// older state: versions that were made after it say nothing of those before.
pub fn seen_versions(
    alloc: Global,
    writes: &PerformedWrites,
    records: &[Rec],
    builder: Option<&Rec>,
) -> Result<Vec<SeenVersion>, NoMemory> {
    let mut seen = Vec::new(alloc);
    for record in records {
        if let Some(pair) = seen_by(writes, record, builder) {
            let call_at = record.call_at;
            seen.push(SeenVersion { pair, call_at })?;
        }
    }
    seen.sort_unstable_by_key(|it| it.pair);
    Ok(seen)
}
