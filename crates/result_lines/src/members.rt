//! The members of an object that are those of its line.

ghost use Rattle.std.specs.Prelude.{◌≡◌, IfOk};
ghost use Rattle.serde_json.specs.View.{view};
ghost use Rattle.api_lines.specs.Objects.{members_of};
ghost use Rattle.result_lines.specs.Objects.{at_fault as members_at_fault, both_calls, broken_members as members_of_broken, calls_of as calls_by, counts_of as counts_by, fault_members as members_of_fault, gets_member as members_of_gets, line_members as members_of_line, offence_members as members_of_offence, places_members as members_of_places};

use crate::causes::cause_name;
use crate::checked::before_name;
use crate::refuted::kind_name;
use crate::reported::Reported;
use crate::text_counts::TextCounts;
use api_lines::{LineObject, TextFault};
use compose::{Offence, Refuted, VerifyFault};
use places::Broken;
use serde_json::{Value, json};
use std::alloc::{AllocError, Global};
use version_pair::NoMemory;

// Returns the counts as an object.
fn counts_value(alloc: Global, counts: TextCounts) -> Result<Value, NoMemory>
    ensures { IfOk result (λ value. view value ≡ counts_by counts) }
{
    let TextCounts {
        docs,
        calls,
        left_out,
        gets,
    } = counts;
    let object = LineObject::new(alloc)
        .number("calls", calls as u64)?
        .number("docs", docs as u64)?
        .number("left_out", left_out as u64)?;
    let object = with_gets(object, gets)?;
    Ok(object.into_value())
}

// Returns the object with the number of gets that are judged one by one, if they are.
fn with_gets(object: LineObject, gets: Option<usize>) -> Result<LineObject, NoMemory>
    ensures { IfOk result (λ made. members_of made ≡ members_of_gets gets (members_of object)) }
{
    match gets {
        Some(gets) => object.number("gets", gets as u64),
        None => Ok(object),
    }
}

// Returns the numbers of two calls as a list.
fn two_calls(alloc: Global, one: u64, two: u64) -> Result<Value, NoMemory>
    ensures { IfOk result (λ value. view value ≡ both_calls one two) }
{
    json!(in alloc; [one, two])
}

// Returns the numbers of the calls that evidence names as a list.
fn calls_value(alloc: Global, evidence: Refuted) -> Result<Value, NoMemory>
    ensures { IfOk result (λ value. view value ≡ calls_by evidence) }
{
    match evidence {
        Refuted::PairTwice(one, two) => two_calls(alloc, one, two),
        Refuted::NoWriter(call) | Refuted::RuledOut(call) => json!(in alloc; [call]),
        Refuted::StaleGet(get, write) | Refuted::MissedWrite(get, write) => {
            two_calls(alloc, get, write)
        }
        Refuted::StaleSwap(one, two) => two_calls(alloc, one, two),
    }
}

// Returns the object with the reply at which the search first fails.
fn with_offence(object: LineObject, offence: Offence) -> Result<LineObject, NoMemory>
    ensures { IfOk result (λ made. members_of made ≡ members_of_offence offence (members_of object)) }
{
    let Offence {
        event,
        call,
        before_shown,
    } = offence;
    object
        .text("before", before_name(before_shown))?
        .number("call", call)?
        .number("event", event as u64)
}

// Returns the object with the line that is refused, and why.
fn with_fault(object: LineObject, fault: TextFault) -> Result<LineObject, NoMemory>
    ensures { IfOk result (λ made. members_of made ≡ members_of_fault fault (members_of object)) }
{
    object
        .text("answer", "refused")?
        .text("cause", cause_name(fault.cause))?
        .number("line", fault.line)
}

// Returns the object with a cause, and a number by which the place of the fault is known.
fn at_fault(
    object: LineObject,
    cause: &str,
    key: &str,
    number: usize,
) -> Result<LineObject, NoMemory>
    ensures { IfOk result (λ made. members_of made ≡ members_at_fault cause.now key.now number (members_of object)) }
{
    object.text("cause", cause)?.number(key, number as u64)
}

// Returns the object with a fault of an entry's places.
fn with_places(object: LineObject, broken: Broken) -> Result<LineObject, NoMemory>
    ensures { IfOk result (λ made. members_of made ≡ members_of_places broken (members_of object)) }
{
    match broken {
        Broken::Stranger(place) => at_fault(object, "stranger", "place", place),
        Broken::Twice(place) => at_fault(object, "twice", "place", place),
        Broken::Late(place) => at_fault(object, "late", "place", place),
        Broken::PairMissing(place) => at_fault(object, "pair-missing", "place", place),
        Broken::PairGiven(place) => at_fault(object, "pair-given", "place", place),
        Broken::Illegal(place) => at_fault(object, "illegal", "place", place),
        Broken::Absent(rec) => at_fault(object, "absent", "rec", rec),
        Broken::NoMemory => Err(AllocError),
    }
}

// Returns the object with a fault of a witness.
fn with_broken(object: LineObject, fault: VerifyFault) -> Result<LineObject, NoMemory>
    ensures { IfOk result (λ made. members_of made ≡ members_of_broken fault (members_of object)) }
{
    match fault {
        VerifyFault::DocMissing(doc) => at_fault(object, "doc-missing", "doc", doc),
        VerifyFault::DocTwice(entry) => at_fault(object, "doc-twice", "entry", entry),
        VerifyFault::DocStranger(entry) => at_fault(object, "doc-stranger", "entry", entry),
        VerifyFault::Broken(entry, broken) => {
            with_places(object.number("entry", entry as u64)?, broken)
        }
        VerifyFault::PairTwice(shard, pair) => object
            .text("cause", "pair-twice")?
            .number("seq", pair.seq())?
            .number("shard", shard as u64)?
            .number("term", pair.term()),
        VerifyFault::NoMemory => Err(AllocError),
    }
}

/// Returns the object with the members of the line that reports this. A fault of a witness that is `NoMemory`
/// has none.
pub fn with_reported(
    alloc: Global,
    object: LineObject,
    reported: &Reported,
) -> Result<LineObject, NoMemory>
    ensures { IfOk result (λ made. members_of made ≡ members_of_line reported.now (members_of object)) }
{
    match *reported {
        Reported::Yes(counts) => object
            .text("answer", "yes")?
            .with("counts", counts_value(alloc, counts)?),
        Reported::No(offence) => with_offence(object.text("answer", "no")?, offence),
        Reported::Refuted(evidence, offence) => {
            let object = object
                .text("answer", "refuted")?
                .with("calls", calls_value(alloc, evidence)?)?
                .text("kind", kind_name(evidence))?;
            with_offence(object, offence)
        }
        Reported::Refused(fault) => with_fault(object, fault),
        Reported::Verified(counts) => object
            .text("answer", "verified")?
            .with("counts", counts_value(alloc, counts)?),
        Reported::RefusedHistory(fault) => with_fault(object.text("text", "history")?, fault),
        Reported::RefusedWitness(fault) => with_fault(object.text("text", "witness")?, fault),
        Reported::Broken(fault) => with_broken(object.text("answer", "broken")?, fault),
        Reported::BrokenGet(evidence) => object
            .text("answer", "broken")?
            .with("calls", calls_value(alloc, evidence)?)?
            .text("cause", kind_name(evidence)),
    }
}
