use crate::course::greatest_of;
use crate::known_versions::KnownVersions;
use doc_register::{Op, Reply};
use events::Rec;
use evidence::{Row, Stage};
use version_pair::Pair;

/// The reason why nothing is left that a document may be after the reply to a call, for people. No contract covers it.
#[derive(Clone, Copy, Debug, PartialEq, Eq)]
pub enum Cause {
    /// A write without a condition was refused; no version refuses such a write.
    NeverRefused,
    /// A write was refused under this condition, and the document had exactly this version.
    StillThere(Pair),
    /// A create was refused, and the document did not exist.
    NotThere,
    /// A get missed the document, and the document existed.
    There,
    /// The reply shows this version, and the document had passed it when the call was made.
    Passed(Pair),
    /// The write took this version and reports that the document was absent before it, and the document
    /// existed.
    WasThere(Pair),
    /// The write took this version and reports that the document existed before it, and it was absent.
    WasAbsent(Pair),
    /// The write was performed, and its condition can't have been met.
    Unmet(Unmet),
    /// No call can have taken this version, which the document must have had by then.
    Unwritten(Pair),
}

/// The reason why the condition of a write that was performed can't have been met.
#[derive(Clone, Copy, Debug, PartialEq, Eq)]
pub enum Unmet {
    /// The write reports that the document was absent before it.
    Created,
    /// The version that it asks for is not below its own.
    NotBelow,
    /// This version is between the one that it asks for and its own.
    Replaced(Pair),
    /// The document was deleted with the version that it asks for.
    Deleted,
    /// A call without a reply had changed the document after the version that it asks for.
    Changed,
}

// Why the condition of a write that took the pair can't have been met.
fn unmet_by(versions: &KnownVersions, pair: Pair, absent: bool, asked: Pair) -> Unmet {
    if absent {
        return Unmet::Created;
    }
    if !asked.is_below(pair) {
        return Unmet::NotBelow;
    }
    match versions.last_below(pair) {
        Some(last) if asked.is_below(last) => Unmet::Replaced(last),
        _ if versions.is_gone(asked) => Unmet::Deleted,
        _ => Unmet::Changed,
    }
}

// Whether the row meets the condition.
fn is_met(versions: &KnownVersions, row: &Row, asked: Pair) -> bool {
    let is_at = match versions.stage(Some(asked)) {
        Stage::At(pair) => row.least == Some(pair),
        stage => versions.stage(row.least) == stage && row.least <= Some(asked),
    };
    row.exists && is_at
}

// Whether each of the rows right before the pair exists, or none of them does.
fn are_all(versions: &KnownVersions, rows: &[Row], pair: Pair, exists: bool) -> bool {
    for row in rows {
        if versions.next_above(row.least) == Some(pair) && row.exists != exists {
            return false;
        }
    }
    true
}

// Whether none of the rows right before the pair meets the condition.
fn is_unmet(versions: &KnownVersions, rows: &[Row], pair: Pair, asked: Pair) -> bool {
    for row in rows {
        if versions.next_above(row.least) == Some(pair) && is_met(versions, row, asked) {
            return false;
        }
    }
    true
}

// Why a write can't have been performed with the pair on one of these rows, if that is so.
fn written_cause(
    versions: &KnownVersions,
    rows: &[Row],
    op: Op,
    pair: Pair,
    absent: bool,
) -> Option<Cause> {
    match op.condition() {
        Some(asked) if absent || is_unmet(versions, rows, pair, asked) => Some(Cause::Unmet(
            unmet_by(versions, pair, absent, asked),
        )),
        None if absent && are_all(versions, rows, pair, true) => Some(Cause::WasThere(pair)),
        None if !absent && are_all(versions, rows, pair, false) => Some(Cause::WasAbsent(pair)),
        _ => None,
    }
}

// Why a write can't have been refused.
fn refused_cause(op: Op) -> Cause {
    match (op, op.condition()) {
        (Op::Create { .. }, _) => Cause::NotThere,
        (_, Some(asked)) => Cause::StillThere(asked),
        (_, None) => Cause::NeverRefused,
    }
}

/// The call that has no place, and why.
#[derive(Clone, Copy)]
pub struct Misfit {
    pub call: Rec,
    pub cause: Cause,
}

// Why the write, whose reply says that it took the pair, can't have taken it on one of the rows before the reply at the
// event, if that is so.
fn writer_misfit(
    versions: &KnownVersions,
    rows: &[Row],
    writer: &Rec,
    event: usize,
    pair: Pair,
) -> Option<Misfit> {
    let call = *writer;
    if call.call_at >= event {
        let cause = Cause::Passed(pair);
        return Some(Misfit { call, cause });
    }
    let absent = match call.heard {
        Some((_, Reply::Indexed { created, .. })) => created,
        Some((_, Reply::Deleted { found, .. })) => !found,
        Some(_) | None => return None,
    };
    let cause = written_cause(versions, rows, call.op, pair, absent)?;
    Some(Misfit { call, cause })
}

// The call whose reply says that it took the pair.
fn writer_of(records: &[Rec], pair: Pair) -> Option<Rec> {
    for record in records {
        if record.pair_taken() == Some(pair) {
            return Some(*record);
        }
    }
    None
}

/// What is known of a document at the reply after which nothing is left that it may be.
#[derive(Clone, Copy)]
pub struct End<'a> {
    pub versions: &'a KnownVersions,
    pub records: &'a [Rec],
    /// What it may be before the reply.
    pub rows: &'a [Row],
}

impl End<'_> {
    // What has no place if the document can't have come to the pair that the reply to the call, at the event, shows.
    fn unreached(&self, call: &Rec, event: usize, pair: Pair) -> Option<Misfit> {
        let missing = match greatest_of(self.rows) {
            Some(least) => self.versions.next_above(least),
            None => None,
        };
        let Some(missing) = missing else {
            let cause = Cause::Passed(pair);
            return Some(Misfit { call: *call, cause });
        };
        match writer_of(self.records, missing) {
            Some(writer) => writer_misfit(self.versions, self.rows, &writer, event, missing),
            None => Some(Misfit {
                call: *call,
                cause: Cause::Unwritten(missing),
            }),
        }
    }

    /// Returns the call that has no place and why, by the reply to this call; `None` if that isn't found.
    pub fn misfit(&self, call: &Rec) -> Option<Misfit> {
        let (event, reply) = call.heard?;
        let cause = match reply {
            Reply::Missing => Cause::There,
            Reply::Conflict => refused_cause(call.op),
            Reply::Found { pair, .. } | Reply::Indexed { pair, .. } | Reply::Deleted { pair, .. } =>
                return self.unreached(call, event, pair),
        };
        Some(Misfit { call: *call, cause })
    }
}
