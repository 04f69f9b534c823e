ghost use Rattle.std.specs.Prelude.{◌≡◌, ◌<◌, ◌≤◌, ◌↔◌, ◌⊎◌, IfOk, IsOk, IsSome, IsTrue, List, Some, ℕ, length};
ghost use Rattle.version_pair.specs.PairOrder.{IsBelow};
ghost use Rattle.events.specs.Events.{IsHistory, PassesAt, is_call_of};
ghost use Rattle.doc_register.specs.Register.{value_of};
ghost use Rattle.evidence.specs.Evidence.{HasNoWriter, Holds, IsMissedWrite, IsOfCalls, IsPairTwice, IsRemover, IsStaleGet, IsStaleSwap, IsWriter, MayTake, MayTakeAbove};
ghost use Rattle.evidence.specs.aids.CallsWithPairs.{AsksTooLittle};

use crate::answered_call::{
    FoundGet, MissingGet, PerformedWrite, are_of_one_document, found_get, missing_get,
    performed_write,
};
use crate::refuted::Refuted;
use crate::ruled_out_calls::is_ruled_out;
use doc_register::{Conflicts, Op, Reply};
use events::{Event, History};
use std::alloc::Global;
use version_pair::{NoMemory, Pair};

// Whether two writes are of one shard and have the same pair.
fn take_one_pair(first: PerformedWrite, second: PerformedWrite) -> bool
    ensures { IsTrue result ↔ ((first.shard ≡ second.shard) × (first.pair ≡ second.pair)) }
{
    first.shard == second.shard && first.pair == second.pair
}

// Whether two different writes of one shard were performed with the same pair.
fn is_pair_twice(history: &History, one: u64, two: u64) -> bool
    requires { IsHistory history.now }
    ensures { IsTrue result ↔ IsPairTwice history.now one two }
{
    let Some(first) = performed_write(history, one) else {
        return false;
    };
    let Some(second) = performed_write(history, two) else {
        return false;
    };
    if one == two {
        return false;
    }
    take_one_pair(first, second)
}

// Whether what was heard of a write allows that it took the pair.
fn may_take(conflicts: Conflicts, heard: Option<(usize, Reply)>, pair: Pair) -> bool
    ensures { IsTrue result ↔ MayTake conflicts heard pair }
{
    match heard {
        None => true,
        Some((_, Reply::Indexed { pair: taken, .. })) => taken == pair,
        Some((_, Reply::Conflict)) => conflicts == Conflicts::Maybe,
        Some((_, Reply::Deleted { .. } | Reply::Found { .. } | Reply::Missing)) => false,
    }
}

// Whether a write of which this was heard may have given its document the number with the pair that the get
// found.
fn may_give(op: Op, heard: Option<(usize, Reply)>, get: FoundGet, conflicts: Conflicts) -> bool
    ensures { IsTrue result ↔ ((value_of op ≡ Some get.k) × MayTake conflicts heard get.pair) }
{
    op.value() == Some(get.k) && may_take(conflicts, heard, get.pair)
}

// Whether the call at the position may have given the get's document the number with the pair that the get
// found.
fn is_writer(history: &History, get: FoundGet, place: usize, conflicts: Conflicts) -> bool
    requires get { get.called < length history.now }
    requires place { place < length history.now }
    requires before { place < get.replied }
    ensures { (d : List ℕ) → PassesAt (is_call_of d) history.now get.called
        → (IsTrue result ↔ IsWriter conflicts history.now d get.replied get.pair get.k place) }
{
    match history.event(place) {
        Event::Call { no, op, .. } => {
            may_give(*op, history.heard(*no), get, conflicts)
                && are_of_one_document(history, get.called, place)
        }
        Event::Reply { .. } | Event::Lost { .. } => false,
    }
}

// Whether no call before the get's reply may have given its document the number with the pair that it found.
fn is_without_writer(history: &History, get: FoundGet, conflicts: Conflicts) -> bool
    requires get { get.called < length history.now }
    requires replied { get.replied ≤ length history.now }
    ensures { (d : List ℕ) → PassesAt (is_call_of d) history.now get.called
        → (IsTrue result ↔ ((j : ℕ) → ¬ IsWriter conflicts history.now d get.replied get.pair get.k j)) }
{
    for place in 0..get.replied {
        if is_writer(history, get, place, conflicts) {
            return false;
        }
    }
    true
}

// Whether a get found a pair with a number that no call may have given its document.
fn has_no_writer(history: &History, get: u64, conflicts: Conflicts) -> bool
    requires { IsHistory history.now }
    ensures { IsTrue result ↔ HasNoWriter conflicts history.now get }
{
    match found_get(history, get) {
        Some(found) => is_without_writer(history, found, conflicts),
        None => false,
    }
}

/// Returns whether a write precedes a get that found a pair below the write's.
pub fn is_overtaken(get: FoundGet, write: PerformedWrite) -> bool
    ensures { IsTrue result ↔ ((write.replied < get.called) × IsBelow get.pair write.pair) }
{
    write.replied < get.called && get.pair.is_below(write.pair)
}

// Whether a get found a pair below that of a write of its document that precedes it.
fn is_stale_get(history: &History, get: u64, write: u64) -> bool
    requires { IsHistory history.now }
    ensures { IsTrue result ↔ IsStaleGet history.now get write }
{
    let Some(found) = found_get(history, get) else {
        return false;
    };
    let Some(newer) = performed_write(history, write) else {
        return false;
    };
    is_overtaken(found, newer) && are_of_one_document(history, found.called, newer.called)
}

// Whether what was heard of a delete allows that it took a pair above this one.
fn may_take_above(conflicts: Conflicts, heard: Option<(usize, Reply)>, pair: Pair) -> bool
    ensures { IsTrue result ↔ MayTakeAbove conflicts heard pair }
{
    match heard {
        None => true,
        Some((_, Reply::Deleted { pair: taken, .. })) => pair.is_below(taken),
        Some((_, Reply::Conflict)) => conflicts == Conflicts::Maybe,
        Some((_, Reply::Indexed { .. } | Reply::Found { .. } | Reply::Missing)) => false,
    }
}

// Whether the call at the position is a delete of the get's document that may have removed it after its change
// with the pair.
fn is_remover(
    history: &History,
    get: MissingGet,
    pair: Pair,
    place: usize,
    conflicts: Conflicts,
) -> bool
    requires get { get.called < length history.now }
    requires place { place < length history.now }
    requires before { place < get.replied }
    ensures { (d : List ℕ) → PassesAt (is_call_of d) history.now get.called
        → (IsTrue result ↔ IsRemover conflicts history.now d get.replied pair place) }
{
    match history.event(place) {
        Event::Call { no, op, .. } => match op {
            Op::Delete { .. } => {
                may_take_above(conflicts, history.heard(*no), pair)
                    && are_of_one_document(history, get.called, place)
            }
            Op::Get | Op::Index { .. } | Op::Create { .. } => false,
        },
        Event::Reply { .. } | Event::Lost { .. } => false,
    }
}

// Whether no call before the get's reply may have removed the document after its change with the pair.
fn is_without_remover(history: &History, get: MissingGet, pair: Pair, conflicts: Conflicts) -> bool
    requires get { get.called < length history.now }
    requires replied { get.replied ≤ length history.now }
    ensures { (d : List ℕ) → PassesAt (is_call_of d) history.now get.called
        → (IsTrue result ↔ ((j : ℕ) → ¬ IsRemover conflicts history.now d get.replied pair j)) }
{
    for place in 0..get.replied {
        if is_remover(history, get, pair, place, conflicts) {
            return false;
        }
    }
    true
}

// Whether the write is an index or a create that was answered before the get was called.
fn is_passed_over(get: MissingGet, write: PerformedWrite) -> bool
    ensures { IsTrue result ↔ ((write.replied < get.called) × IsSome (value_of write.op)) }
{
    write.replied < get.called && write.op.value().is_some()
}

// Whether an index or a create precedes a get of its document that found nothing, and no delete may have
// removed the document after that.
fn is_missed_write(history: &History, get: u64, write: u64, conflicts: Conflicts) -> bool
    requires { IsHistory history.now }
    ensures { IsTrue result ↔ IsMissedWrite conflicts history.now get write }
{
    let Some(missing) = missing_get(history, get) else {
        return false;
    };
    let Some(passed) = performed_write(history, write) else {
        return false;
    };
    if !is_passed_over(missing, passed) {
        return false;
    }
    are_of_one_document(history, missing.called, passed.called)
        && is_without_remover(history, missing, passed.pair, conflicts)
}

// Whether the first write comes before the second: it precedes it, or has the lesser pair.
fn stands_first(first: PerformedWrite, second: PerformedWrite) -> bool
    ensures { IsTrue result ↔ ((first.replied < second.called) ⊎ IsBelow first.pair second.pair) }
{
    first.replied < second.called || first.pair.is_below(second.pair)
}

/// Returns whether the second write has a condition below the first one's pair although the first comes
/// before it.
pub fn asks_too_little(first: PerformedWrite, second: PerformedWrite) -> bool
    ensures { IsTrue result ↔ AsksTooLittle first second }
{
    match second.op.condition() {
        Some(asked) => asked.is_below(first.pair) && stands_first(first, second),
        None => false,
    }
}

// Whether two different writes of one document were performed, the second with a condition below the first
// one's pair although the first comes before it.
fn is_stale_swap(history: &History, one: u64, two: u64) -> bool
    requires { IsHistory history.now }
    ensures { IsTrue result ↔ IsStaleSwap history.now one two }
{
    let Some(first) = performed_write(history, one) else {
        return false;
    };
    let Some(second) = performed_write(history, two) else {
        return false;
    };
    if one == two {
        return false;
    }
    asks_too_little(first, second) && are_of_one_document(history, first.called, second.called)
}

/// Returns whether the evidence holds in the history, in this reading of conflicts. A call number that the
/// history doesn't have is no evidence.
///
/// Evidence of one or two calls takes at most one walk over the events, and no memory. Evidence that a
/// document is provably not linearizable (`RuledOut`) takes a walk over its calls; only for this memory can be
/// refused, which is the only error. That walk keeps to a budget, so of a document that is ruled out the result may be
/// false.
pub fn refutes(
    alloc: Global,
    history: &History,
    evidence: &Refuted,
    conflicts: Conflicts,
) -> Result<bool, NoMemory>
    // If the result is true, the evidence holds in the history.
    ensures holds { IfOk result (λ holds. IsTrue holds → Holds conflicts history.now evidence.now) }
    // Of evidence of one or two calls it is true exactly if the evidence holds.
    ensures exact { IsOfCalls evidence.now → IfOk result (λ holds. IsTrue holds ↔ Holds conflicts history.now evidence.now) }
    // Of evidence of one or two calls there is no error.
    ensures succeeds { IsOfCalls evidence.now → IsOk result }
{
    // Calling `len` makes it known from here on that this is a history.
    let _ = history.len();
    match *evidence {
        Refuted::PairTwice(one, two) => Ok(is_pair_twice(history, one, two)),
        Refuted::NoWriter(get) => Ok(has_no_writer(history, get, conflicts)),
        Refuted::StaleGet(get, write) => Ok(is_stale_get(history, get, write)),
        Refuted::MissedWrite(get, write) => Ok(is_missed_write(history, get, write, conflicts)),
        Refuted::StaleSwap(one, two) => Ok(is_stale_swap(history, one, two)),
        Refuted::RuledOut(call) => is_ruled_out(alloc, history, call, conflicts),
    }
}
