use crate::anomaly::{Anomaly, Ground, ground_of};
use crate::calls::{call_of, end_of, record_of, version_shown};
use crate::cause::{Cause, Unmet};
use crate::falling_versions::{VersionedWrite, performed_by};
use crate::findings::Findings;
use crate::first_fault::Fault;
use crate::lost_writes::Loss;
use crate::performed_writes::is_delete;
use crate::reason::Reason;
use crate::subject::Unexplained;
use crate::subjects::Subject;
use doc_register::{Op, Reply};
use events::Rec;
use evidence::{Certainty, Refuted};
use version_pair::Pair;

/// The anomaly that an explanation names, and the call whose reply shows it.
#[derive(Clone, Copy)]
pub struct Diagnosis {
    pub anomaly: Anomaly,
    /// The number of the call.
    pub call: u64,
    /// The position of its reply.
    pub event: usize,
    /// The evidence that it follows from, if that is other than the evidence or the reason that is found first.
    pub evidence: Option<Refuted>,
}

// Returns the write with the greatest version among those that were acknowledged before the call that has no place was
// made.
fn last_acknowledged(reason: &Reason, records: &[Rec]) -> Option<VersionedWrite> {
    let mut last: Option<VersionedWrite> = None;
    for record in records {
        let Some(write) = performed_by(record) else {
            continue;
        };
        let is_greater = match last {
            Some(last) => last.pair.is_below(write.pair),
            None => true,
        };
        if write.event < reason.stop.call_at && is_greater {
            last = Some(write);
        }
    }
    last
}

// Whether an acknowledged write made the state that the reply to the call that has no place contradicts.
fn is_acknowledged(reason: &Reason, records: &[Rec]) -> bool {
    let Some(last) = last_acknowledged(reason, records) else {
        return false;
    };
    match (reason.cause, version_shown(&reason.stop)) {
        (Cause::Passed(pair), _) => pair.is_below(last.pair),
        (Cause::There, _) => !is_delete(&last.write),
        (Cause::WasThere(_), Some(own)) => !is_delete(&last.write) && last.pair.is_below(own),
        (Cause::WasAbsent(_), Some(own)) => is_delete(&last.write) && last.pair.is_below(own),
        _ => false,
    }
}

// Returns the anomaly of a reply that shows an older state than the document had reached.
fn anomaly_of_passed(reason: &Reason, records: &[Rec]) -> Anomaly {
    match (is_acknowledged(reason, records), reason.stop.op) {
        (false, _) => Anomaly::TakenBack,
        (true, Op::Get) => Anomaly::StaleRead,
        (true, _) => Anomaly::LostWrite,
    }
}

// Returns the anomaly of a write that was performed under a condition that can't have been met.
fn anomaly_of_unmet(unmet: Unmet) -> Anomaly {
    match unmet {
        Unmet::Replaced(_) | Unmet::Changed => Anomaly::LostUpdate,
        Unmet::Created | Unmet::NotBelow | Unmet::Deleted => Anomaly::UnmetCondition,
    }
}

// Returns the first of two anomalies if the write of the version that the document had reached was
// acknowledged, else the second.
fn if_acknowledged(reason: &Reason, records: &[Rec], first: Anomaly, second: Anomaly) -> Anomaly {
    if is_acknowledged(reason, records) {
        first
    } else {
        second
    }
}

// Returns the anomaly of a write whose reply says that the document was there where it was absent.
fn anomaly_of_absent(reason: &Reason, records: &[Rec]) -> Anomaly {
    let other = if reason.links.is_empty() {
        Anomaly::UnwrittenVersion
    } else {
        Anomaly::TakenBack
    };
    if_acknowledged(reason, records, Anomaly::LostWrite, other)
}

// Whether the document was there by no more than a create that was open at the same time, or the write is one.
fn is_of_create(reason: &Reason) -> bool {
    let Some(shower) = &reason.shower else {
        return false;
    };
    let is_shown = !reason.links.is_empty() || end_of(shower) < reason.stop.call_at;
    match (reason.stop.op, shower.op) {
        _ if is_shown => false,
        (Op::Create { .. }, _) | (Op::Delete { .. }, Op::Create { .. }) => true,
        _ => false,
    }
}

// Returns the anomaly of a write whose reply says that the document was absent where it was there.
fn anomaly_of_there(reason: &Reason, records: &[Rec]) -> Anomaly {
    let other = if is_of_create(reason) {
        Anomaly::UnmetCondition
    } else {
        Anomaly::TakenBack
    };
    if_acknowledged(reason, records, Anomaly::LostWrite, other)
}

// Returns the anomaly of a call by which the document must have had a version that nobody wrote.
fn anomaly_of_unwritten(stop: &Rec, version: Pair) -> Anomaly {
    if stop.op == Op::Get && version_shown(stop) == Some(version) {
        Anomaly::UnwrittenValue
    } else {
        Anomaly::UnwrittenVersion
    }
}

/// Returns the anomaly that a reason shows; the records are those of its document.
pub fn anomaly_of(reason: &Reason, records: &[Rec]) -> Anomaly {
    match reason.cause {
        Cause::NeverRefused | Cause::StillThere(_) | Cause::NotThere => Anomaly::UnfoundedConflict,
        Cause::There => {
            if_acknowledged(reason, records, Anomaly::WriteNotSeen, Anomaly::TakenBack)
        }
        Cause::Passed(_) => anomaly_of_passed(reason, records),
        Cause::WasThere(_) => anomaly_of_there(reason, records),
        Cause::WasAbsent(_) => anomaly_of_absent(reason, records),
        Cause::Unmet(unmet) => anomaly_of_unmet(unmet),
        Cause::Unwritten(pair) => anomaly_of_unwritten(&reason.stop, pair),
    }
}

// Returns the anomaly of two calls or one that contradict the history by themselves, and the call that shows it; `None`
// if the evidence is a document that is ruled out.
fn evident(evidence: Refuted) -> Option<(Anomaly, u64)> {
    match evidence {
        Refuted::PairTwice(_, second) => Some((Anomaly::VersionTwice, second)),
        Refuted::NoWriter(get) => Some((Anomaly::UnwrittenValue, get)),
        Refuted::StaleGet(get, _) => Some((Anomaly::StaleRead, get)),
        Refuted::MissedWrite(get, _) => Some((Anomaly::WriteNotSeen, get)),
        Refuted::StaleSwap(_, second) => Some((Anomaly::LostUpdate, second)),
        Refuted::RuledOut(_) => None,
    }
}

// Returns the anomaly of the reason for the document that the answer names, or else of the first one, and the call that
// has no place.
fn reasoned(evidence: Option<Refuted>, subjects: &[Subject<'_>]) -> Option<(Anomaly, u64)> {
    for subject in subjects {
        if let Some(reason) = &subject.reason {
            let is_named = match evidence {
                Some(Refuted::RuledOut(named)) => record_of(&subject.records, named).is_some(),
                _ => true,
            };
            if is_named {
                return Some((anomaly_of(reason, &subject.records), reason.stop.no));
            }
        }
    }
    None
}

// Whether the get found the number of a write without a reply, and a later reply shows an older version, or one that another
// write was given: then that write was shown and taken back.
fn is_taken_back(get: &Rec, records: &[Rec]) -> bool {
    let Some((event, Reply::Found { pair, k })) = get.heard else {
        return false;
    };
    let mut is_written = false;
    let mut is_undone = false;
    for record in records {
        let is_of_number = record.op.value() == Some(k);
        is_written = is_written || is_of_number && record.heard.is_none() && record.call_at < event;
        let is_given = record.pair_taken() == Some(pair) && !is_of_number;
        let is_older = match version_shown(record) {
            Some(shown) => event < record.call_at && shown.is_below(pair),
            None => false,
        };
        is_undone = is_undone || is_given || is_older;
    }
    is_written && is_undone
}

// Returns the anomaly of the call: if it is a value that nobody wrote, whether that was only taken back.
fn by_number(found: (Anomaly, u64), subjects: &[Subject<'_>]) -> (Anomaly, u64) {
    if found.0 != Anomaly::UnwrittenValue {
        return found;
    }
    for subject in subjects {
        if let Some(get) = record_of(subject.all(), found.1)
            && is_taken_back(&get, subject.all())
        {
            return (Anomaly::TakenBack, found.1);
        }
    }
    found
}

// Returns the anomaly that is found first: that of the evidence, or else that of the reason.
fn found_first(unexplained: &Unexplained<'_>, subjects: &[Subject<'_>]) -> Diagnosis {
    let found = match unexplained.evidence {
        Some(evidence) => evident(evidence).or(reasoned(unexplained.evidence, subjects)),
        None => reasoned(None, subjects),
    };
    let unnamed = (Anomaly::Unnamed, unexplained.call);
    let (anomaly, call) = by_number(found.unwrap_or(unnamed), subjects);
    let event = match call_of(unexplained.history, call) {
        Some(shown) => end_of(&shown.record),
        None => unexplained.event,
    };
    Diagnosis {
        anomaly,
        call,
        event,
        evidence: None,
    }
}

// Returns the diagnosis by a loss: the call that is found first shows it, unless its reply is of a version that nobody wrote
// or the call is of another document.
fn of_loss(found: Diagnosis, loss: &Loss, is_of_document: bool) -> Diagnosis {
    let is_shown = is_of_document
        && !matches!(
            found.anomaly,
            Anomaly::UnwrittenValue | Anomaly::UnwrittenVersion | Anomaly::Unnamed
        );
    Diagnosis {
        anomaly: Anomaly::LostWrite,
        call: if is_shown { found.call } else { loss.shower.no },
        event: if is_shown {
            found.event
        } else {
            loss.lost.since
        },
        evidence: None,
    }
}

// Returns the anomaly that a headline names and the call that shows it. The first anomaly is of the document of these
// findings, or else `is_of_document` is false. The broken reply is at the event.
fn named(found: Diagnosis, findings: &Findings, event: usize, is_of_document: bool) -> Diagnosis {
    let gone = findings.gone_before(event);
    let fault = findings.fault_soon(event).filter(|_| is_of_document);
    let anomaly = match &fault {
        Some(fault) => Some(fault.anomaly),
        None => None,
    };
    match (
        ground_of(found.anomaly, gone.is_some(), anomaly),
        gone,
        fault,
    ) {
        (Ground::Loss, Some(loss), _) => of_loss(found, &loss, is_of_document),
        (Ground::Fault, _, Some(fault)) => of_fault(&fault),
        _ => found,
    }
}

// Returns the diagnosis by a fault.
fn of_fault(fault: &Fault) -> Diagnosis {
    Diagnosis {
        anomaly: fault.anomaly,
        call: fault.call,
        event: fault.event,
        evidence: fault.evidence(),
    }
}

// Returns the anomaly of the reason, and the position of the reply with which it is known.
fn of_reason(reason: &Reason, records: &[Rec]) -> (Diagnosis, usize) {
    let found = Diagnosis {
        anomaly: anomaly_of(reason, records),
        call: reason.stop.no,
        event: end_of(&reason.stop),
        evidence: None,
    };
    (found, found.event.max(end_of(&reason.last_answered)))
}

/// Returns the anomaly that a document shows, by the same rule as the headline: the first one, if it follows from one call
/// or two. What the replies say once a version is given again is no anomaly of its own. `reason` is why the document is
/// ruled out, if it is; `None` is returned if nothing is found.
pub fn document_diagnosis(
    reason: Option<&Reason>,
    records: &[Rec],
    findings: &Findings,
) -> Option<Diagnosis> {
    let reasoned = match reason {
        Some(reason) => Some(of_reason(reason, records)),
        None => None,
    };
    let (first, event) = match (&findings.first(), reasoned) {
        (Some(fault), Some((found, end))) if end < fault.event && findings.again.is_none() => (
            found, end,
        ),
        (Some(fault), _) => (of_fault(fault), fault.event),
        (None, found) => found?,
    };
    Some(named(first, findings, event, true))
}

/// Returns the anomaly that an explanation names; `None` if it is undecided whether there is an order. It is
/// that of the evidence, or else that of the reason, unless later replies tell more.
pub fn diagnosis_of(unexplained: &Unexplained<'_>, subjects: &[Subject<'_>]) -> Option<Diagnosis> {
    if matches!(unexplained.certainty, Certainty::Undecided) {
        return None;
    }
    let found = found_first(unexplained, subjects);
    let event = found.event.max(unexplained.event);
    for subject in subjects {
        let is_of_document = record_of(subject.all(), found.call).is_some();
        let diagnosis = named(found, &subject.findings, event, is_of_document);
        if diagnosis.anomaly != found.anomaly || diagnosis.call != found.call {
            return Some(diagnosis);
        }
    }
    Some(found)
}
