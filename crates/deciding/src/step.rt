//! Steps of a row: a write is performed.

ghost use Rattle.std.specs.Prelude.{◌≡◌, ◌≤◌, ◌<◌, IfOk, IsTrue, List, Some as Just, ℕ, cond, suc, true};
ghost use Rattle.doc_register.specs.declared.reply.Reply.{Reply as Answer};
ghost use Rattle.events.specs.declared.record.Rec.{Rec as Record};
ghost use Rattle.deciding.specs.Branches.{Covers};
ghost use Rattle.deciding.specs.Facts.{Facts};
ghost use Rattle.deciding.specs.Steps.{AgreesWith, IsSilent, MayHaveTaken, MayPerform, is_conflict, is_lost_delete, is_lost_make, moved_at, performed, without};
ghost use Rattle.deciding.specs.aids.KnownPairs.{AreKnown};
ghost use Rattle.deciding.specs.aids.Moments.{HasMade};
ghost use Rattle.deciding.specs.aids.Performing.{GivesFound, GivesKnown, IsConditionMet, IsMetBy, Takes};
ghost use Rattle.deciding.specs.aids.Rows.{IsPositioned, branch_of};
ghost use Rattle.deciding.specs.aids.VersionsOf.{AreOf};

use crate::attempts::Attempts;
use crate::known::Known;
use crate::made::{is_lost_delete, is_lost_make};
use crate::moment::Moment;
use crate::numbers::{is_in, with_some, without};
use crate::row::{Row, is_at_most};
use crate::served::{is_conflict, is_hidden, is_owed};
use crate::version::FoundNumbers;
use crate::versions::Versions;
use doc_register::{Conflicts, Op, Reply};
use events::Rec;
use std::alloc::Global;
use version_pair::{NoMemory, Pair};

// Whether the call has no reply, or one that may hide that it was performed.
fn is_silent(conflicts: Conflicts, heard: Option<(usize, Reply)>) -> bool
    ensures { IsSilent conflicts heard → IsTrue result }
{
    match heard {
        None => true,
        Some(_) => is_hidden(conflicts, heard),
    }
}

// Whether the call gives each number that was found with the pair.
fn gives_found(versions: &Versions, call: Rec, pair: Pair) -> bool
    ensures { (records : List Record) → AreOf records versions.now → GivesFound records call.op pair → IsTrue result }
{
    match versions.numbers(pair) {
        FoundNumbers::Unseen => true,
        FoundNumbers::One(k) => call.op.value() == Some(k),
        FoundNumbers::Several => false,
    }
}

// Whether the call gives a number, or the pair is unknown.
fn gives_known(known: &Known, op: Op, pair: Pair) -> bool
    ensures { (records : List Record) → AreKnown records known.now.pairs.items → GivesKnown records op pair → IsTrue result }
{
    match op.value() {
        Some(_) => true,
        None => !known.contains(pair),
    }
}

// Whether the call, whose reply shows no pair, may have taken this one.
fn may_have_taken(versions: &Versions, conflicts: Conflicts, call: Rec, pair: Pair) -> bool
    ensures { (records : List Record) → AreOf records versions.now → MayHaveTaken conflicts records call pair → IsTrue result }
{
    is_silent(conflicts, call.heard)
        && !versions.is_reported(pair)
        && gives_known(&versions.known, call.op, pair)
}

// Whether the reply to the call shows the pair, or may hide it.
fn takes(versions: &Versions, conflicts: Conflicts, call: Rec, pair: Pair) -> bool
    ensures { (records : List Record) → AreOf records versions.now
        → Takes conflicts records call pair → IsTrue result }
{
    match call.pair_taken() {
        Some(taken) => taken == pair,
        None => may_have_taken(versions, conflicts, call, pair),
    }
}

// Whether the reply of a performed write shows the document as the row has it.
fn agrees(exists: bool, heard: Option<(usize, Reply)>) -> bool
    ensures { AgreesWith exists heard → IsTrue result }
{
    match heard {
        Some((_, Reply::Indexed { created, .. })) => created != exists,
        Some((_, Reply::Deleted { found, .. })) => found == exists,
        Some((_, Reply::Found { .. }))
        | Some((_, Reply::Missing))
        | Some((_, Reply::Conflict))
        | None => true,
    }
}

// Whether the call was made before the event, and was not answered before it.
fn is_open(event: usize, call: Rec) -> bool
    ensures { call.call_at < event → ((y : ℕ) (reply : Answer) → call.heard ≡ Just (y, reply) → event ≤ y) → IsTrue result }
{
    match call.heard {
        Some(heard) => call.call_at < event && event <= heard.0,
        None => call.call_at < event,
    }
}

// Whether the document has the pair of the condition.
fn is_met(known: &Known, row: &Row, condition: Pair) -> bool
    ensures { (records : List Record) → AreKnown records known.now.pairs.items → IsPositioned records row.now
        → IsConditionMet records (branch_of row.now) condition → IsTrue result }
{
    row.exists
        && row.position == known.position(Some(condition))
        && is_at_most(row.least, Some(condition))
}

// Whether the row meets the condition of the write, or is missing if it is a create.
fn meets(known: &Known, row: &Row, op: Op) -> bool
    ensures { (records : List Record) → AreKnown records known.now.pairs.items → IsPositioned records row.now
        → IsMetBy records (branch_of row.now) op → IsTrue result }
{
    match op {
        Op::Get => false,
        Op::Create { .. } => !row.exists,
        Op::Index { cond: None, .. } | Op::Delete { cond: None } => true,
        Op::Index {
            cond: Some(condition),
            ..
        }
        | Op::Delete {
            cond: Some(condition),
        } => is_met(known, row, condition),
    }
}

/// A write that may be performed with a pair.
#[derive(Clone, Copy)]
pub struct Attempt {
    /// The number of its record.
    pub number: usize,
    pub call: Rec,
    pub pair: Pair,
}

// Whether the row is what the write needs, and what its reply shows.
fn suits(known: &Known, row: &Row, call: Rec) -> bool
    ensures { (records : List Record) → AreKnown records known.now.pairs.items → IsPositioned records row.now
        → IsMetBy records (branch_of row.now) call.op → AgreesWith row.now.exists call.heard → IsTrue result }
{
    meets(known, row, call.op) && agrees(row.exists, call.heard)
}

// Whether fewer writes without a reply and without a condition were performed than made, if the call is one.
fn is_left(row: &Row, moment: &Moment<'_>, call: Rec) -> bool
    ensures { (is_lost_delete call ≡ true → row.now.deletes < moment.now.made.deletes) → (is_lost_make call ≡ true → row.now.makes < moment.now.made.makes)
        → IsTrue result }
{
    if is_lost_delete(call) {
        return row.deletes < moment.made.deletes;
    }
    !is_lost_make(call) || row.makes < moment.made.makes
}

/// Returns whether the write may be performed on the row before the event of the moment.
pub fn may_perform(
    versions: &Versions,
    conflicts: Conflicts,
    moment: &Moment<'_>,
    row: &Row,
    attempt: Attempt,
) -> bool
    ensures { (facts : Facts) (records : List Record) → facts.conflicts ≡ conflicts → AreOf records versions.now → IsPositioned records row.now
        → HasMade records moment.now.event moment.now.made → MayPerform facts records moment.now.event (branch_of row.now) attempt.number attempt.call attempt.pair → IsTrue result }
{
    if !is_left(row, moment, attempt.call) {
        return false;
    }
    if is_conflict(attempt.call.heard) && is_in(attempt.number, &row.spent) {
        return false;
    }
    if !is_open(moment.event, attempt.call) {
        return false;
    }
    if !takes(versions, conflicts, attempt.call, attempt.pair) {
        return false;
    }
    if !gives_found(versions, attempt.call, attempt.pair) {
        return false;
    }
    suits(&versions.known, row, attempt.call)
}

// The event, if the two differ; otherwise the earlier one.
fn moved_at(is_same: bool, earlier: usize, event: usize) -> usize
    ensures { result ≡ moved_at is_same earlier event }
{
    if is_same { earlier } else { event }
}

// What has to be performed yet after a write that was performed.
fn owed_after(alloc: Global, row: &Row, attempt: Attempt) -> Result<Vec<usize>, NoMemory>
    ensures { IfOk result (λ owed. owed.items ≡ cond (is_conflict attempt.call.heard) (without attempt.number row.now.owed.items) row.now.owed.items) }
{
    if is_conflict(attempt.call.heard) {
        without(alloc, attempt.number, &row.owed)
    } else {
        with_some(alloc, false, attempt.number, &row.owed)
    }
}

// The count with one more, if that is so and such writes are counted.
fn added(count: usize, is: bool, attempts: Attempts) -> usize
    ensures { result ≤ cond is (suc count) count }
{
    if is && attempts == Attempts::Once {
        count.saturating_add(1)
    } else {
        count
    }
}

/// Returns the row after the write was performed before the event.
pub fn performed(
    alloc: Global,
    known: &Known,
    event: usize,
    row: &Row,
    attempt: Attempt,
    attempts: Attempts,
) -> Result<Row, NoMemory>
    ensures { IfOk result (λ new. (records : List Record) → AreKnown records known.now.pairs.items → IsPositioned records row.now
        → IsPositioned records new × Covers records (branch_of new) (performed records event (branch_of row.now) attempt.number attempt.call attempt.pair)) }
{
    let least = Some(attempt.pair);
    let position = known.position(least);
    let exists = attempt.call.op.value().is_some();
    let owed = owed_after(alloc, row, attempt)?;
    let spent = with_some(alloc, is_owed(attempt.call), attempt.number, &row.spent)?;
    Ok(Row {
        least,
        position,
        exists,
        flipped_at: moved_at(row.exists == exists, row.flipped_at, event),
        arrived_at: moved_at(row.position == position, row.arrived_at, event),
        owed,
        spent,
        deletes: added(row.deletes, is_lost_delete(attempt.call), attempts),
        makes: added(row.makes, is_lost_make(attempt.call), attempts),
    })
}
