//! The gets of a history that any copy may answer, judged one by one.

ghost use Rattle.std.specs.Prelude.{◌≡◌, ◌⊎◌, ℕ, List, IfOk, MatchOption, map};
ghost use Rattle.events.specs.declared.event.Event.{Event as AnyEvent};
ghost use Rattle.events.specs.Events.{IsHistory, records_of};
ghost use Rattle.readings.specs.Gets.{AreGetsExplained, IsUnexplainedGet};
ghost use Rattle.history.specs.Laws.{AreLost};
ghost use Rattle.readings.specs.Reading.{heeded, heeded_events};
ghost use Rattle.readings.specs.aids.Records.{Offends};
ghost use Rattle.readings.specs.aids.Unexplained.{heeded_record};

use crate::document::{Offence, OffendingGet, first_offending};
use crate::reading::Reading;
use doc_register::Op;
use events::{History, Rec};
use evidence::Refuted;
use history::{Failed, Voids};
use std::alloc::Global;
use version_pair::NoMemory;

/// A get that nothing explains, whatever copy answered it.
#[derive(Clone, Copy, Debug, PartialEq, Eq)]
pub struct UnexplainedGet {
    /// What shows it: `NoWriter`, `StaleGet` or `MissedWrite`.
    pub evidence: Refuted,
    /// The position of its reply in the text.
    pub reply_at: usize,
}

// The record of a call, as a get if the call is read as void.
fn heeded_record(reading: Reading, voids: &Voids, call: &Rec) -> Rec
    ensures { result ≡ heeded_record (heeded reading.failed voids.now) call.now }
{
    if reading.is_void(voids, call.no) {
        Rec {
            op: Op::Get,
            ..*call
        }
    } else {
        *call
    }
}

// The records, with void calls read as gets.
fn heeded_records(
    alloc: Global,
    records: Vec<Rec>,
    voids: &Voids,
    reading: Reading,
) -> Result<Vec<Rec>, NoMemory>
    ensures { IfOk result (λ read. read.items ≡ map (heeded_record (heeded reading.failed voids.now)) records.items) }
{
    match reading.failed {
        Failed::Lost => Ok(records),
        Failed::Trusted => {
            let read = records
                .iter()
                .map(|call| heeded_record(reading, voids, call));
            read.collect(alloc)
        }
    }
}

// The position of the reply to the call.
fn reply_position(call: &Rec) -> usize {
    match call.heard {
        Some(heard) => heard.0,
        None => 0,
    }
}

// The get as evidence, by the numbers of its calls.
fn unexplained(records: &[Rec], reading: Reading, get: OffendingGet) -> UnexplainedGet
    requires { Offends reading records.now get.rec get.offence }
    ensures { (events : List AnyEvent) (d : List ℕ) → IsHistory events → records_of events d ≡ records.now
        → IsUnexplainedGet reading events result.evidence }
{
    let call = &records[get.rec];
    let reply_at = reply_position(call);
    let evidence = match get.offence {
        Offence::NoWriter => Refuted::NoWriter(call.no),
        Offence::StaleGet(write) => Refuted::StaleGet(call.no, records[write].no),
        Offence::MissedWrite(write) => Refuted::MissedWrite(call.no, records[write].no),
    };
    UnexplainedGet { evidence, reply_at }
}

// The one of two gets that was answered first.
fn earlier(first: Option<UnexplainedGet>, get: UnexplainedGet) -> UnexplainedGet
    ensures { (result ≡ get) ⊎ (first ≡ Some result) }
{
    match first {
        Some(other) if other.reply_at < get.reply_at => other,
        _ => get,
    }
}

/// Returns the first get of the text, in response order, that nothing explains, whatever copy answered it; or
/// `None` if each get is explained. Evidence names calls of the text. It takes a few walks over the calls, and
/// sorts those of each document.
///
/// That a get is returned exactly if one isn't explained is proved; that it is the first, and its position, is
/// tested.
pub fn unexplained_get(
    alloc: Global,
    text: &History,
    voids: &Voids,
    reading: Reading,
) -> Result<Option<UnexplainedGet>, NoMemory>
    // The void calls are lost in the text.
    requires { AreLost text.now voids.now }
    // There is none exactly if each get is explained, and one that is found isn't.
    ensures { IfOk result (λ found. MatchOption found (AreGetsExplained reading (heeded_events reading voids.now text.now))
        (λ get. IsUnexplainedGet reading (heeded_events reading voids.now text.now) get.evidence)) }
{
    // Calling `len` makes it known from here on that this is a history.
    let _ = text.len();
    let mut first = None;
    for doc in 0..text.docs() {
        let records = heeded_records(alloc, text.records(doc)?, voids, reading)?;
        if let Some(get) = first_offending(alloc, reading, &records)? {
            first = Some(earlier(first, unexplained(&records, reading, get)));
        }
    }
    Ok(first)
}
