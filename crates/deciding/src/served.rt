//! Whether an answered call may have had its reply by now, on a branch, and whether it may be performed later.

ghost use Rattle.std.specs.Prelude.{◌≡◌, List};
ghost use Rattle.events.specs.declared.record.Rec.{Rec as Record};
ghost use Rattle.deciding.specs.Steps.{is_conflict, is_hidden, is_owed, is_unconditional};
ghost use Rattle.deciding.specs.Tables.{has_pair, is_past, is_reachable, is_refused, is_refused_under, is_served, is_served_with, may_come_later};
ghost use Rattle.deciding.specs.aids.KnownPairs.{AreKnown};
ghost use Rattle.deciding.specs.aids.Rows.{IsPositioned, branch_of};

use crate::known::Known;
use crate::numbers::is_in;
use crate::row::Row;
use doc_register::{Conflicts, Op, Reply};
use events::Rec;
use version_pair::Pair;

/// Returns whether the reply is a conflict.
pub fn is_conflict(heard: Option<(usize, Reply)>) -> bool
    ensures { result ≡ is_conflict heard }
{
    match heard {
        Some((_, Reply::Conflict)) => true,
        Some((_, Reply::Indexed { .. }))
        | Some((_, Reply::Deleted { .. }))
        | Some((_, Reply::Found { .. }))
        | Some((_, Reply::Missing))
        | None => false,
    }
}

/// Returns whether the reply is a conflict that may hide that the write was performed.
pub fn is_hidden(conflicts: Conflicts, heard: Option<(usize, Reply)>) -> bool
    ensures { result ≡ is_hidden conflicts heard }
{
    match conflicts {
        Conflicts::Plain => false,
        Conflicts::Maybe => is_conflict(heard),
    }
}

// Whether the operation is an index or a delete without a condition, which is always performed.
fn is_unconditional(op: Op) -> bool
    ensures { result ≡ is_unconditional op }
{
    match op {
        Op::Index { cond: None, .. } | Op::Delete { cond: None } => true,
        Op::Get
        | Op::Create { .. }
        | Op::Index { cond: Some(_), .. }
        | Op::Delete { cond: Some(_) } => false,
    }
}

/// Returns whether the call is a conflict of an index or a delete without a condition, which has to be performed if it
/// can be at all.
pub fn is_owed(call: Rec) -> bool
    ensures { result ≡ is_owed call }
{
    is_conflict(call.heard) && is_unconditional(call.op)
}

/// Returns whether a get finds a pair that the document at the position is past.
pub fn is_past(known: &Known, position: usize, heard: Option<(usize, Reply)>) -> bool
    ensures { (records : List Record) → AreKnown records known.now.pairs.items → result ≡ is_past records position heard }
{
    match heard {
        Some((_, Reply::Found { pair, .. })) => known.version_of(pair) < position,
        Some((_, Reply::Indexed { .. }))
        | Some((_, Reply::Deleted { .. }))
        | Some((_, Reply::Missing))
        | Some((_, Reply::Conflict))
        | None => false,
    }
}

// Whether the document has the pair of the condition.
fn has_pair(known: &Known, condition: Pair, row: &Row) -> bool
    ensures { (records : List Record) → AreKnown records known.now.pairs.items → IsPositioned records row.now
        → result ≡ has_pair records condition (branch_of row.now) }
{
    known.contains(condition) && row.exists && row.position == known.version_of(condition)
}

// Whether a write under the condition that was called at the event may have been refused by now.
fn is_refused_under(known: &Known, condition: Pair, called: usize, row: &Row) -> bool
    ensures { (records : List Record) → AreKnown records known.now.pairs.items → IsPositioned records row.now
        → result ≡ is_refused_under records condition called (branch_of row.now) }
{
    !has_pair(known, condition, row) || called < row.arrived_at
}

// Whether the call of this number may have been answered with a conflict by now.
fn is_refused(known: &Known, number: usize, call: Rec, row: &Row) -> bool
    ensures { (records : List Record) → AreKnown records known.now.pairs.items → IsPositioned records row.now
        → result ≡ is_refused records number call.call_at call.op (branch_of row.now) }
{
    match call.op {
        Op::Get => true,
        Op::Index { cond: None, .. } | Op::Delete { cond: None } => !is_in(number, &row.owed),
        Op::Index {
            cond: Some(condition),
            ..
        }
        | Op::Delete {
            cond: Some(condition),
        } => is_refused_under(known, condition, call.call_at, row),
        Op::Create { .. } => row.exists || call.call_at < row.flipped_at,
    }
}

/// Returns whether the call of this number may have had its reply by now.
pub fn is_served(known: &Known, number: usize, call: Rec, row: &Row) -> bool
    ensures { (records : List Record) → AreKnown records known.now.pairs.items → IsPositioned records row.now
        → result ≡ is_served records number call (branch_of row.now) }
{
    match call.heard {
        None => true,
        Some((_, Reply::Indexed { pair, .. }))
        | Some((_, Reply::Deleted { pair, .. }))
        | Some((_, Reply::Found { pair, .. })) => known.version_of(pair) <= row.position,
        Some((_, Reply::Missing)) => !row.exists || call.call_at < row.flipped_at,
        Some((_, Reply::Conflict)) => is_refused(known, number, call, row),
    }
}

// Whether the document is not past the pair of the condition, if there is one.
fn is_reachable(known: &Known, condition: Option<Pair>, row: &Row) -> bool
    ensures { (records : List Record) → AreKnown records known.now.pairs.items → IsPositioned records row.now
        → result ≡ is_reachable records condition (branch_of row.now) }
{
    match condition {
        None => true,
        Some(_) => row.position <= known.position(condition),
    }
}

/// Returns whether the call of this number may be performed later than the row.
pub fn may_come_later(
    known: &Known,
    conflicts: Conflicts,
    number: usize,
    call: Rec,
    row: &Row,
) -> bool
    ensures { (records : List Record) → AreKnown records known.now.pairs.items → IsPositioned records row.now
        → result ≡ may_come_later conflicts records number call (branch_of row.now) }
{
    is_hidden(conflicts, call.heard)
        && !is_in(number, &row.spent)
        && is_reachable(known, call.op.condition(), row)
}
