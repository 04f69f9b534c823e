//! The greatest pair that was acknowledged for a document before a position.

ghost use Rattle.std.specs.Prelude.{◌≡◌, ◌++◌, ◌∷◌, [], List, IfOk};
ghost use Rattle.write_chain.specs.AnsweredCalls.{AreAnsweredCalls};
ghost use Rattle.write_chain.specs.declared.answers.AnsweredRec.{AnsweredRec as AnsweredCall};
ghost use Rattle.readings.specs.aids.Peaks.{ArePeaks, IsPeakBefore, IsPeakOf, counted_pair, pair_at};

use events::Rec;
use std::alloc::Global;
use version_pair::{NoMemory, Pair};
use write_chain::AnsweredRec;

/// Which performed writes count.
#[derive(Clone, Copy, PartialEq, Eq)]
pub enum Changes {
    /// All of them.
    All,
    /// Those that make the document exist: an index or a create.
    Makes,
}

impl Changes {
    // The pair with which the call was performed, if it is a write that counts.
    fn pair_of(self, call: &Rec) -> Option<Pair>
        ensures { result ≡ counted_pair self call.now }
    {
        match self {
            Changes::All => call.pair_taken(),
            Changes::Makes => match call.op.value() {
                Some(_) => call.pair_taken(),
                None => None,
            },
        }
    }

    /// Returns the pair with which the call of a record was performed, if it is a write that counts.
    pub fn pair_at(self, records: &[Rec], rec: usize) -> Option<Pair>
        ensures { result ≡ pair_at self records.now rec }
    {
        match records.get(rec) {
            Some(call) => self.pair_of(call),
            None => None,
        }
    }

    // The one of the records that has the greater pair, if one of them has a pair that counts.
    fn higher(self, records: &[Rec], peak: Option<usize>, rec: usize) -> Option<usize>
        ensures { (answers : List AnsweredCall) (a : AnsweredCall) → a.rec ≡ rec → IsPeakOf self records.now answers peak
            → IsPeakOf self records.now (answers ++ a ∷ []) result }
    {
        let Some(pair) = self.pair_at(records, rec) else {
            return peak;
        };
        let Some(highest) = peak else {
            return Some(rec);
        };
        match self.pair_at(records, highest) {
            Some(high) if high.is_below(pair) => Some(rec),
            Some(_) => peak,
            None => Some(rec),
        }
    }

    /// Returns, for each number of answered calls from 0 on, the record among the first that many that has the
    /// greatest pair.
    pub fn peaks(
        self,
        alloc: Global,
        records: &[Rec],
        answers: &[AnsweredRec],
    ) -> Result<Vec<Option<usize>>, NoMemory>
        ensures { IfOk result (λ peaks. ArePeaks self records.now answers.now peaks.items) }
    {
        let mut peaks = Vec::new(alloc);
        let mut peak = None;
        peaks.push(peak)?;
        for k in 0..answers.len() {
            peak = self.higher(records, peak, answers[k].rec);
            peaks.push(peak)?;
        }
        Ok(peaks)
    }

    /// Returns the record that has the greatest pair among the writes that count and were answered before the
    /// position.
    pub fn peak_before(
        self,
        records: &[Rec],
        answers: &[AnsweredRec],
        peaks: &[Option<usize>],
        position: usize,
    ) -> Option<usize>
        requires answers { AreAnsweredCalls records.now answers.now }
        requires peaks { ArePeaks self records.now answers.now peaks.now }
        ensures { IsPeakBefore self records.now position result }
    {
        let count = answers.partition_point(|answer| answer.reply_at < position);
        peaks[count]
    }
}
