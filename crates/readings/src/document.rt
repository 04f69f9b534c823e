//! The gets of one document, judged one by one.

ghost use Rattle.std.specs.Prelude.{◌≡◌, ◌<◌, IfOk, MatchOption, Some as Just, slice_get, length};
ghost use Rattle.write_chain.specs.AnsweredCalls.{AreAnsweredCalls};
ghost use Rattle.readings.specs.aids.Peaks.{ArePeaks};
ghost use Rattle.readings.specs.aids.Records.{AreExplained, IsFoundJudged, IsJudged, IsMissingJudged, Offends};

use crate::peaks::Changes;
use crate::reading::Reading;
use crate::removers::{Removers, has_remover};
use crate::sources::{FoundVersion, Source, has_source, sources_of};
use doc_register::Reply;
use events::Rec;
use std::alloc::Global;
use version_pair::NoMemory;
use write_chain::{AnsweredRec, answers_of};

/// Why nothing explains a get, by the numbers of its document's records.
#[derive(Clone, Copy, PartialEq, Eq)]
pub enum Offence {
    /// No write can have given the document what it found.
    NoWriter,
    /// This write was answered before the get was called, and the get found a pair below the write's.
    StaleGet(usize),
    /// This index or create was answered before the get was called, which found nothing, and no delete may have
    /// removed the document after that.
    MissedWrite(usize),
}

/// A get that nothing explains, by the number of its record.
#[derive(Clone, Copy)]
pub struct OffendingGet {
    pub rec: usize,
    pub offence: Offence,
}

// The calls of a document, and what is looked up for each get.
#[derive(Drop)]
struct Calls<'a> {
    reading: Reading,
    records: &'a [Rec],
    answers: Vec<AnsweredRec>,
    all: Vec<Option<usize>>,
    makes: Vec<Option<usize>>,
    sources: Vec<Source>,
    removers: Removers,
}

impl<'a> Calls<'a> {
    ghost use Rattle.readings.specs.aids.Calls.{AreReady};

    fn of(alloc: Global, reading: Reading, records: &'a [Rec]) -> Result<Calls<'a>, NoMemory>
        ensures reading { IfOk result (λ calls. calls.reading ≡ reading) }
        ensures records { IfOk result (λ calls. calls.records.now ≡ records.now) }
        ensures ready { IfOk result AreReady }
    {
        let answers = answers_of(alloc, records)?;
        Ok(Calls {
            reading,
            records,
            all: Changes::All.peaks(alloc, records, &answers)?,
            makes: Changes::Makes.peaks(alloc, records, &answers)?,
            answers,
            sources: sources_of(alloc, reading, records)?,
            removers: Removers::of(alloc, reading, records)?,
        })
    }

    // Why nothing explains a get that found a version.
    fn judge_found(&self, called: usize, found: FoundVersion) -> Option<Offence>
        requires { AreReady self.now }
        ensures { IsFoundJudged self.now.reading self.now.records.now called found.replied found.pair found.k result }
    {
        if !has_source(self.reading, self.records, &self.sources, found) {
            return Some(Offence::NoWriter);
        }
        let Some(write) = Changes::All.peak_before(self.records, &self.answers, &self.all, called)
        else {
            return None;
        };
        match Changes::All.pair_at(self.records, write) {
            Some(pair) if found.pair.is_below(pair) => Some(Offence::StaleGet(write)),
            _ => None,
        }
    }

    // Why nothing explains a get that found nothing.
    fn judge_missing(&self, called: usize, replied: usize) -> Option<Offence>
        requires { AreReady self.now }
        ensures { IsMissingJudged self.now.reading self.now.records.now called replied result }
    {
        let Some(write) = Changes::Makes.peak_before(
            self.records,
            &self.answers,
            &self.makes,
            called,
        ) else {
            return None;
        };
        let Some(pair) = Changes::Makes.pair_at(self.records, write) else {
            return None;
        };
        if has_remover(self.reading, self.records, &self.removers, replied, pair) {
            None
        } else {
            Some(Offence::MissedWrite(write))
        }
    }

    // Why nothing explains the call, if it is a get that was answered.
    fn judge(&self, call: &Rec) -> Option<Offence>
        requires { AreReady self.now }
        ensures { IsJudged self.now.reading self.now.records.now call.now.call_at call.now.heard result }
    {
        match call.heard {
            Some((replied, Reply::Found { pair, k })) => {
                self.judge_found(call.call_at, FoundVersion { replied, pair, k })
            }
            Some((replied, Reply::Missing)) => self.judge_missing(call.call_at, replied),
            Some((_, Reply::Indexed { .. } | Reply::Deleted { .. } | Reply::Conflict)) | None =>
                None,
        }
    }
}

/// Returns the first get of a document, in response order, that nothing explains, whatever copy answered it; or
/// `None` if each is explained.
pub fn first_offending(
    alloc: Global,
    reading: Reading,
    records: &[Rec],
) -> Result<Option<OffendingGet>, NoMemory>
    ensures { IfOk result (λ found. MatchOption found (AreExplained reading records.now)
        (λ get. Offends reading records.now get.rec get.offence)) }
{
    let calls = Calls::of(alloc, reading, records)?;
    for k in 0..calls.answers.len() {
        let rec = calls.answers[k].rec;
        let Some(call) = records.get(rec) else {
            continue;
        };
        if let Some(offence) = calls.judge(call) {
            return Ok(Some(OffendingGet { rec, offence }));
        }
    }
    Ok(None)
}
