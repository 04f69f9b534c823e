ghost use Rattle.std.specs.Prelude.{◌<◌, ◌^◌, IfSome};

use crate::known::KnownPairs;
use completing::{Count, Lines, No, Records, Table, Timed, WritesByNumber};
use doc_register::{Op, Reply};
use events::Rec;
use std::alloc::Global;
use version_pair::{NoMemory, Pair};

/// What a record waits for, or which lost write it is. Known pairs, and those that only conditions name, are
/// given by their indices in `KnownPairs`.
#[derive(Clone, Copy, PartialEq, Eq)]
pub enum WaitKind {
    /// A get that found nothing.
    Missing,
    /// A get that found the known pair.
    Found(usize),
    /// The conflict of a create.
    CreateConflict,
    /// A conflict under the condition of the known pair.
    ConflictOn(usize),
    /// A conflict under the condition of a pair that no write is known to have, by its index among those that
    /// conditions name.
    ConflictOnNamed(usize),
    /// A conflict without a condition.
    FreeConflict,
    /// An unanswered delete without a condition.
    LostDelete,
    /// An unanswered index without a condition.
    LostIndex,
    /// An unanswered create.
    LostCreate,
    /// An unanswered delete under the condition of the known pair.
    LostDeleteOn(usize),
    /// An unanswered index under the condition of the known pair.
    LostIndexOn(usize),
    /// An unanswered delete under the condition of a pair that no write is known to have.
    LostDeleteOnNamed(usize),
    /// An unanswered index under the condition of a pair that no write is known to have.
    LostIndexOnNamed(usize),
}

// More pairs than this don't fit into memory.
const MOST_PAIRS: usize = 1 << 60;

// The index of the first line of a known pair; `None` for one that there can't be.
fn first_of_known(at: usize) -> Option<usize>
    ensures { IfSome result (λ first. first < 2 ^ 63) }
{
    if at < MOST_PAIRS {
        Some(at * 4 + 6)
    } else {
        None
    }
}

// The same of a pair that conditions name and no write is known to have, behind those of the known pairs.
fn first_of_named(known: usize, at: usize) -> Option<usize>
    ensures { IfSome result (λ first. first < 2 ^ 63) }
{
    if known < MOST_PAIRS && at < MOST_PAIRS {
        Some(known * 4 + 6 + at * 3)
    } else {
        None
    }
}

impl WaitKind {
    /// Returns the index of the kind's line, if there are that many known pairs. First come the 6 kinds that
    /// are not of a pair, then 4 of each known pair, and 3 of each pair that no write is known to have.
    pub fn line(self, known: usize) -> Option<usize> {
        match self {
            WaitKind::Missing => Some(0),
            WaitKind::CreateConflict => Some(1),
            WaitKind::FreeConflict => Some(2),
            WaitKind::LostDelete => Some(3),
            WaitKind::LostIndex => Some(4),
            WaitKind::LostCreate => Some(5),
            WaitKind::Found(at) => first_of_known(at),
            WaitKind::ConflictOn(at) => Some(first_of_known(at)? + 1),
            WaitKind::LostDeleteOn(at) => Some(first_of_known(at)? + 2),
            WaitKind::LostIndexOn(at) => Some(first_of_known(at)? + 3),
            WaitKind::ConflictOnNamed(at) => first_of_named(known, at),
            WaitKind::LostDeleteOnNamed(at) => Some(first_of_named(known, at)? + 1),
            WaitKind::LostIndexOnNamed(at) => Some(first_of_named(known, at)? + 2),
        }
    }

    /// Returns whether it is an unanswered write under the condition of a pair.
    pub fn is_lost_on_pair(self) -> bool {
        matches!(
            self,
            WaitKind::LostDeleteOn(_)
                | WaitKind::LostIndexOn(_)
                | WaitKind::LostDeleteOnNamed(_)
                | WaitKind::LostIndexOnNamed(_)
        )
    }

    /// Returns whether it is a conflict on a pair.
    pub fn is_conflict_on_pair(self) -> bool {
        matches!(self, WaitKind::ConflictOn(_) | WaitKind::ConflictOnNamed(_))
    }
}

// The kind of an unanswered record. Its pair is searched for near an index of the known ones. (A pair of a condition
// or of a get is known, or else is among the named ones.)
fn lost_kind<D: Count>(op: Op, known: &KnownPairs<D>, near: &mut usize) -> Option<WaitKind> {
    match op {
        Op::Get => None,
        Op::Create { .. } => Some(WaitKind::LostCreate),
        Op::Index { cond: None, .. } => Some(WaitKind::LostIndex),
        Op::Delete { cond: None } => Some(WaitKind::LostDelete),
        Op::Index {
            cond: Some(pair),
            ..
        } => Some(match known.place_near(pair, near) {
            Some(at) => WaitKind::LostIndexOn(at),
            None => WaitKind::LostIndexOnNamed(known.named_place(pair)?),
        }),
        Op::Delete { cond: Some(pair) } => Some(match known.place_near(pair, near) {
            Some(at) => WaitKind::LostDeleteOn(at),
            None => WaitKind::LostDeleteOnNamed(known.named_place(pair)?),
        }),
    }
}

// The kind of a conflict under the condition of a pair.
fn kind_on<D: Count>(pair: Pair, known: &KnownPairs<D>, near: &mut usize) -> Option<WaitKind> {
    match known.place_near(pair, near) {
        Some(at) => Some(WaitKind::ConflictOn(at)),
        None => Some(WaitKind::ConflictOnNamed(known.named_place(pair)?)),
    }
}

// The kind of a conflict.
fn conflict_kind<D: Count>(op: Op, known: &KnownPairs<D>, near: &mut usize) -> Option<WaitKind> {
    match op {
        Op::Get => None,
        Op::Create { .. } => Some(WaitKind::CreateConflict),
        Op::Index { .. } | Op::Delete { .. } => match op.condition() {
            Some(pair) => kind_on(pair, known, near),
            None => Some(WaitKind::FreeConflict),
        },
    }
}

// The kind of a record. A performed answered write has none: its pair determines its place.
fn kind_of<D: Count>(found: Rec, known: &KnownPairs<D>, near: &mut usize) -> Option<WaitKind> {
    match found.heard {
        None => lost_kind(found.op, known, near),
        Some((_, Reply::Missing)) => Some(WaitKind::Missing),
        Some((_, Reply::Found { pair, .. })) => Some(WaitKind::Found(known.place_near(
            pair, near,
        )?)),
        Some((_, Reply::Conflict)) => conflict_kind(found.op, known, near),
        Some((_, Reply::Indexed { .. } | Reply::Deleted { .. })) => None,
    }
}

// A record, with the line that it is in.
#[derive_where(Clone, Copy, PartialEq, Eq, PartialOrd, Ord)]
struct LineEntry<D: Count> {
    line: usize,
    rec: No<D>,
}

/// Returns a line of records for each kind, each in the order of calls. A record without a kind is in none.
pub fn lines_of_kinds<D: Count>(
    alloc: Global,
    records: Records<'_, D>,
    known: &KnownPairs<D>,
    kinds: &Table<D, Option<WaitKind>>,
) -> Result<Lines<D>, NoMemory> {
    let mut entries = Vec::with_capacity(alloc, records.len())?;
    for index in 0..records.len() {
        let rec = No::new(index);
        let line = kinds
            .of(rec)
            .and_then(|kind| kind.line(known.entries.len()));
        if let Some(line) = line {
            entries.push(LineEntry { line, rec })?;
        }
    }
    entries.sort_unstable();
    // (If there were too many to be counted, the memory for them would be refused.)
    let last = WaitKind::ConflictOnNamed(known.named.len());
    let count = last.line(known.entries.len()).unwrap_or(usize::MAX);
    let mut lines = Lines::with_room(alloc, count, entries.len())?;
    for entry in &entries {
        let at = records.of(entry.rec).call_at;
        let rec = entry.rec;
        lines.push(entry.line, Timed { at, rec })?;
    }
    Ok(lines)
}

/// Returns the kinds of the records. If a pair is known by its number alone, and only one write can have it,
/// the write is kept for it and has no kind.
pub fn kinds_of<D: Count>(
    alloc: Global,
    records: Records<'_, D>,
    known: &KnownPairs<D>,
    numbers: &WritesByNumber<D>,
) -> Result<Table<D, Option<WaitKind>>, NoMemory> {
    let mut kinds = Table::new(alloc, records.len(), None)?;
    let mut near = 0;
    for index in 0..records.len() {
        let rec = No::new(index);
        kinds.set(rec, kind_of(records.of(rec), known, &mut near));
    }
    for entry in &known.entries {
        if let Some(rec) = entry.only_writer(numbers) {
            kinds.set(rec, None);
        }
    }
    Ok(kinds)
}
