ghost use Rattle.std.specs.Prelude.{◌≡◌, vec_len};

use doc_register::{Op, Reply};
use events::{Event, History, Rec};
use evidence::Refuted;
use version_pair::{DocId, Pair};

/// A call with its document.
#[derive(Clone, Copy)]
pub struct Call<'h> {
    pub id: &'h DocId,
    pub shard: u32,
    pub record: Rec,
}

/// Returns the call with this number, if there is one.
pub fn call_of(history: &History, no: u64) -> Option<Call<'_>> {
    let place = history.call(no)?;
    let record = history.record(no)?;
    match history.event(place) {
        Event::Call { id, shard, .. } => Some(Call {
            id,
            shard: *shard,
            record,
        }),
        Event::Reply { .. } | Event::Lost { .. } => None,
    }
}

/// Returns the one of these calls that has this number, if it is there.
pub fn record_of(records: &[Rec], no: u64) -> Option<Rec> {
    for record in records {
        if record.no == no {
            return Some(*record);
        }
    }
    None
}

/// Returns the version that the reply to the call shows, if it shows one.
pub fn version_shown(record: &Rec) -> Option<Pair> {
    match record.heard {
        Some(heard) => heard.1.pair(),
        None => None,
    }
}

/// Returns whether the reply to the call stands before the event.
pub fn is_answered_before(record: &Rec, event: usize) -> bool {
    match record.heard {
        Some(heard) => heard.0 < event,
        None => false,
    }
}

/// Returns the position of the reply to the call; that of the call if there is no reply.
pub fn end_of(record: &Rec) -> usize {
    match record.heard {
        Some(heard) => heard.0,
        None => record.call_at,
    }
}

impl Call<'_> {
    /// Returns whether it is a write without a reply, so that its outcome is unknown (indeterminate).
    pub fn may_have_happened(&self) -> bool {
        self.record.heard.is_none() && !matches!(self.record.op, Op::Get)
    }

    /// Returns whether it was answered with a conflict.
    pub fn is_refused(&self) -> bool {
        matches!(self.record.heard, Some((_, Reply::Conflict)))
    }
}

/// Returns the calls in the order in which they were made.
pub fn in_order<'h>(calls: Vec<Call<'h>>) -> Vec<Call<'h>>
    // There are as many.
    ensures { vec_len result ≡ vec_len calls.entry }
{
    let mut calls = calls;
    calls.sort_unstable_by_key(|call| call.record.call_at);
    calls
}

/// The numbers of the calls that evidence names.
#[derive(Clone, Copy)]
pub struct EvidenceCalls {
    pub first: u64,
    pub second: Option<u64>,
}

impl EvidenceCalls {
    /// Returns those of this evidence.
    pub fn of(evidence: Refuted) -> EvidenceCalls {
        let (first, second) = match evidence {
            Refuted::PairTwice(one, two)
            | Refuted::StaleGet(one, two)
            | Refuted::MissedWrite(one, two)
            | Refuted::StaleSwap(one, two) => (one, Some(two)),
            Refuted::NoWriter(call) | Refuted::RuledOut(call) => (call, None),
        };
        EvidenceCalls { first, second }
    }

    /// Returns whether the call is one of them.
    pub fn contain(&self, no: u64) -> bool {
        self.first == no || self.second == Some(no)
    }
}
