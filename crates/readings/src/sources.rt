//! Writes that may have given a document what a get found. Where to look first is a guess; that there is one is
//! checked.

ghost use Rattle.std.specs.Prelude.{◌≡◌, ◌≢◌, ◌↔◌, ◌⊎◌, IfSome, IsTrue};
ghost use Rattle.doc_register.specs.Register.{value_of};
ghost use Rattle.evidence.specs.Evidence.{MayTake};
ghost use Rattle.readings.specs.Reading.{conflicts_as};
ghost use Rattle.readings.specs.aids.Records.{HasSource, IsSource};
ghost use Rattle.history.specs.declared.text_rules.Writes.TheVariants.{Repeated};

use crate::reading::Reading;
use doc_register::{Conflicts, Reply};
use events::Rec;
use history::Writes;
use std::alloc::Global;
use version_pair::{NoMemory, Pair};

/// What a get found.
#[derive(Clone, Copy)]
pub struct FoundVersion {
    /// The position of its reply.
    pub replied: usize,
    pub pair: Pair,
    pub k: u64,
}

// Whether the call may have been performed with the pair.
fn may_take(reading: Reading, call: &Rec, pair: Pair) -> bool
    ensures { IsTrue result ↔ (MayTake (conflicts_as reading.conflicts) call.now.heard pair ⊎ (reading.writes ≡ Repeated)) }
{
    if reading.writes == Writes::Repeated {
        return true;
    }
    match call.heard {
        None => true,
        Some((_, Reply::Indexed { pair: taken, .. })) => taken == pair,
        Some((_, Reply::Conflict)) => reading.conflicts_checked() == Conflicts::Maybe,
        Some((_, Reply::Deleted { .. } | Reply::Found { .. } | Reply::Missing)) => false,
    }
}

// Whether the call may have given the document what the get found.
fn is_source(reading: Reading, call: &Rec, found: FoundVersion) -> bool
    ensures { IsTrue result ↔ IsSource reading call.now found.replied found.pair found.k }
{
    call.call_at < found.replied
        && call.op.value() == Some(found.k)
        && may_take(reading, call, found.pair)
}

/// A write that may have given its document a number: by the number, then by the only pair that it may have
/// taken, if there is one.
#[derive(Clone, Copy, PartialEq, Eq, PartialOrd, Ord)]
pub struct Source {
    k: u64,
    pair: Option<Pair>,
    rec: usize,
}

// The write of a record, if it may have given its document a number.
fn source_of(reading: Reading, rec: usize, call: &Rec) -> Option<Source> {
    let k = call.op.value()?;
    let any_pair = Source { k, pair: None, rec };
    if reading.writes == Writes::Repeated {
        return Some(any_pair);
    }
    match call.heard {
        None => Some(any_pair),
        Some((_, Reply::Conflict)) if reading.conflicts_checked() == Conflicts::Maybe => Some(
            any_pair,
        ),
        Some((_, Reply::Indexed { pair, .. })) => Some(Source {
            k,
            pair: Some(pair),
            rec,
        }),
        Some((_, Reply::Deleted { .. } | Reply::Found { .. } | Reply::Missing | Reply::Conflict)) =>
            None,
    }
}

/// Returns the writes that may have given the document its numbers, in their order.
pub fn sources_of(
    alloc: Global,
    reading: Reading,
    records: &[Rec],
) -> Result<Vec<Source>, NoMemory> {
    let mut sources = Vec::new(alloc);
    for rec in 0..records.len() {
        if let Some(source) = source_of(reading, rec, &records[rec]) {
            sources.push(source)?;
        }
    }
    sources.sort_unstable();
    Ok(sources)
}

// Whether the first write of this number and pair gave the document what the get found.
fn is_given_by_first(
    reading: Reading,
    records: &[Rec],
    sources: &[Source],
    pair: Option<Pair>,
    found: FoundVersion,
) -> bool
    ensures { IsTrue result → HasSource reading records.now found.replied found.pair found.k }
{
    let wanted = Source {
        k: found.k,
        pair,
        rec: 0,
    };
    let place = sources.partition_point(|source| *source < wanted);
    let Some(source) = sources.get(place) else {
        return false;
    };
    match records.get(source.rec) {
        Some(call) => is_source(reading, call, found),
        None => false,
    }
}

/// Returns whether a call of the document may have given it what the get found.
pub fn has_source(
    reading: Reading,
    records: &[Rec],
    sources: &[Source],
    found: FoundVersion,
) -> bool
    ensures { IsTrue result ↔ HasSource reading records.now found.replied found.pair found.k }
{
    if is_given_by_first(reading, records, sources, None, found)
        || is_given_by_first(reading, records, sources, Some(found.pair), found)
    {
        return true;
    }
    for j in 0..records.len() {
        if is_source(reading, &records[j], found) {
            return true;
        }
    }
    false
}
