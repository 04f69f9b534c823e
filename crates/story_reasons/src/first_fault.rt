use crate::anomaly::Anomaly;
use crate::performed_writes::PerformedWrites;
use doc_register::Reply;
use events::Rec;
use evidence::Refuted;
use version_pair::Pair;

/// A reply of a document that contradicts another one, or itself.
#[derive(Clone, Copy)]
pub struct Fault {
    pub anomaly: Anomaly,
    /// The number of the call that shows the anomaly, and of the other call, if there is one.
    pub call: u64,
    pub other: Option<u64>,
    /// The position at which the two calls are answered.
    pub event: usize,
    /// The position at which the two calls are made.
    pub made_at: usize,
}

impl Fault {
    // Returns the fault that the reply to one call shows.
    fn of(anomaly: Anomaly, record: &Rec, event: usize) -> Fault {
        Fault {
            anomaly,
            call: record.no,
            other: None,
            event,
            made_at: record.call_at,
        }
    }

    // Returns it with another call.
    fn beside(self, record: &Rec, event: usize) -> Fault {
        Fault {
            other: Some(record.no),
            event: self.event.max(event),
            made_at: self.made_at.max(record.call_at),
            ..self
        }
    }

    /// Returns the fault as evidence, if it is of a kind of evidence.
    pub fn evidence(&self) -> Option<Refuted> {
        let other = self.other?;
        match self.anomaly {
            Anomaly::StaleRead => Some(Refuted::StaleGet(self.call, other)),
            Anomaly::LostUpdate => Some(Refuted::StaleSwap(other, self.call)),
            Anomaly::VersionTwice => Some(Refuted::PairTwice(other, self.call)),
            _ => None,
        }
    }
}

// Returns the fault of a get that found the version.
fn fault_of_found(
    writes: &PerformedWrites,
    record: &Rec,
    event: usize,
    pair: Pair,
) -> Option<Fault> {
    let before = writes.acknowledged_before(record.call_at)?;
    if pair.is_below(before.pair) {
        let fault = Fault::of(Anomaly::StaleRead, record, event);
        Some(fault.beside(&before.write, before.event))
    } else {
        None
    }
}

// Returns the fault of a write that was performed under the condition.
fn fault_of_swap(
    writes: &PerformedWrites,
    record: &Rec,
    event: usize,
    pair: Pair,
    asked: Pair,
) -> Option<Fault> {
    if !asked.is_below(pair) {
        return Some(Fault::of(Anomaly::UnmetCondition, record, event));
    }
    if let Some(before) = writes.acknowledged_before(record.call_at)
        && asked.is_below(before.pair)
    {
        let swap = Fault::of(Anomaly::LostUpdate, record, event);
        return Some(swap.beside(&before.write, before.event));
    }
    let between = writes.first_between(asked, pair)?;
    let swap = Fault::of(Anomaly::LostUpdate, record, event);
    Some(swap.beside(&between.write, between.event))
}

// Returns the fault of a write that was performed, by the versions of the writes before it.
fn fault_of_written(
    writes: &PerformedWrites,
    record: &Rec,
    event: usize,
    pair: Pair,
    absent: bool,
) -> Option<Fault> {
    if let Some(before) = writes.acknowledged_before(record.call_at)
        && pair.is_below(before.pair)
    {
        return Some(Fault::of(Anomaly::LostWrite, record, event));
    }
    match record.op.condition() {
        Some(asked) => fault_of_swap(writes, record, event, pair, asked),
        None if absent && writes.missed(record.call_at, event).is_some() => Some(Fault::of(
            Anomaly::LostWrite,
            record,
            event,
        )),
        None => None,
    }
}

// Returns the fault of the reply to the call, if it has one.
fn fault_of(writes: &PerformedWrites, record: &Rec) -> Option<Fault> {
    let (event, reply) = record.heard?;
    match reply {
        Reply::Found { pair, .. } => fault_of_found(writes, record, event, pair),
        Reply::Missing => {
            let _ = writes.missed(record.call_at, event)?;
            Some(Fault::of(Anomaly::WriteNotSeen, record, event))
        }
        Reply::Indexed { pair, created } => fault_of_written(writes, record, event, pair, created),
        Reply::Deleted { pair, found } => fault_of_written(writes, record, event, pair, !found),
        Reply::Conflict => None,
    }
}

// Returns the fault of two writes that were given one version: those of this number and before it, by version.
fn fault_of_twice(writes: &PerformedWrites, number: usize) -> Option<Fault> {
    let one = writes.get(number.checked_sub(1)?)?;
    let other = writes.get(number)?;
    if one.pair != other.pair {
        return None;
    }
    let (first, last) = if one.event < other.event {
        (one, other)
    } else {
        (other, one)
    };
    let fault = Fault::of(Anomaly::VersionTwice, &last.write, last.event);
    Some(fault.beside(&first.write, first.event))
}

/// Returns the one of two faults that is complete first; of two at one reply the first.
pub fn earlier(one: Option<Fault>, other: Option<Fault>) -> Option<Fault> {
    match (one, other) {
        (Some(first), Some(second)) if second.event < first.event => other,
        (None, _) => other,
        _ => one,
    }
}

/// Returns the first fault of a document, by the reply with which it is complete: one that follows from one call or two,
/// whatever became of the calls without a reply. A version that is given twice is none of these.
pub fn first_fault(writes: &PerformedWrites, records: &[Rec]) -> Option<Fault> {
    let mut first: Option<Fault> = None;
    for record in records {
        first = earlier(first, fault_of(writes, record));
    }
    first
}

/// Returns the first fault of two writes of a document that were given one version, by the reply with which it is complete.
pub fn first_twice(writes: &PerformedWrites) -> Option<Fault> {
    let mut first: Option<Fault> = None;
    for number in 0..writes.count() {
        first = earlier(first, fault_of_twice(writes, number));
    }
    first
}
