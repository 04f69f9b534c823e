ghost use Rattle.std.specs.Prelude.{◌<◌, ◌↔◌, IsTrue, List, None, ℕ, length};
ghost use Rattle.doc_register.specs.Run.{pair_taken};
ghost use Rattle.events.specs.Events.{IsHistory, PassesAt, is_call_of};
ghost use Rattle.evidence.specs.aids.CallsWithPairs.{IsFoundAs, IsMissingAs, IsPerformedAs};

use doc_register::{Op, Reply};
use events::{Event, History};
use version_pair::Pair;

/// A get that found its document. Positions are indices of events, from 0.
#[derive(Clone, Copy, PartialEq, Eq)]
pub struct FoundGet {
    /// The position of the call.
    pub called: usize,
    /// The position of the reply.
    pub replied: usize,
    pub pair: Pair,
    pub k: u64,
}

/// A get that found nothing. Positions are indices of events, from 0.
#[derive(Clone, Copy, PartialEq, Eq)]
pub struct MissingGet {
    /// The position of the call.
    pub called: usize,
    /// The position of the reply.
    pub replied: usize,
}

/// A write whose reply shows the pair with which it was performed. Positions are indices of events, from 0.
#[derive(Clone, Copy, PartialEq, Eq)]
pub struct PerformedWrite {
    /// The position of the call.
    pub called: usize,
    /// The position of the reply.
    pub replied: usize,
    pub shard: u32,
    pub op: Op,
    pub pair: Pair,
}

/// Returns the get with this number, if it found its document.
pub fn found_get(history: &History, no: u64) -> Option<FoundGet>
    requires { IsHistory history.now }
    ensures { IsFoundAs history.now no result }
{
    let Some(called) = history.call(no) else {
        return None;
    };
    match history.heard(no) {
        Some((replied, Reply::Found { pair, k })) => Some(FoundGet {
            called,
            replied,
            pair,
            k,
        }),
        _ => None,
    }
}

/// Returns the get with this number, if it found nothing.
pub fn missing_get(history: &History, no: u64) -> Option<MissingGet>
    requires { IsHistory history.now }
    ensures { IsMissingAs history.now no result }
{
    let Some(called) = history.call(no) else {
        return None;
    };
    match history.heard(no) {
        Some((replied, Reply::Missing)) => Some(MissingGet { called, replied }),
        _ => None,
    }
}

/// Returns the write with this number, if its reply shows that it was performed.
pub fn performed_write(history: &History, no: u64) -> Option<PerformedWrite>
    requires { IsHistory history.now }
    ensures { IsPerformedAs history.now no result }
{
    let Some(called) = history.call(no) else {
        return None;
    };
    let Event::Call { shard, op, .. } = history.event(called) else {
        return None;
    };
    match history.heard(no) {
        Some(answer) => match answer.1.pair_taken() {
            Some(pair) => Some(PerformedWrite {
                called,
                replied: answer.0,
                shard: *shard,
                op: *op,
                pair,
            }),
            None => None,
        },
        None => None,
    }
}

/// Returns whether the calls at two positions are on one document.
pub fn are_of_one_document(history: &History, place: usize, other: usize) -> bool
    requires one { place < length history.now }
    requires two { other < length history.now }
    ensures { (d : List ℕ) → PassesAt (is_call_of d) history.now place
        → (IsTrue result ↔ PassesAt (is_call_of d) history.now other) }
{
    match (history.event(place), history.event(other)) {
        (Event::Call { id, .. }, Event::Call { id: called, .. }) => id == called,
        _ => false,
    }
}
