ghost use Rattle.std.specs.Prelude.{◌≤◌, IfOk, vec_len};

use events::{History, Rec};
use std::alloc::Global;
use story_blocks::{EventLines, Mark};
use story_reasons::{
    Anomaly, Call, Diagnosis, EvidenceCalls, Reason, Subject, Unexplained, call_of, end_of,
    in_order, version_shown,
};
use version_pair::{NoMemory, Pair};

// How much a call matters: it is one of the calls that are named, it made a version that they name, or it was
// open at the same time as one of them.
#[derive(Clone, Copy, PartialEq, Eq)]
enum Rank {
    Named,
    Writer,
    Beside,
    Other,
}

/// What the calls that matter most name: their numbers, and the versions in their replies and conditions.
#[derive(Drop)]
pub struct Named {
    broken: u64,
    // The calls of the evidence and of the reasons.
    reasons: Vec<u64>,
    versions: Vec<Pair>,
    /// The last event that matters: the broken reply, or a later event of these calls.
    pub last: usize,
}

impl Named {
    /// Returns what the calls of an offence, of evidence, of the reasons and of the headline name.
    pub fn of(
        alloc: Global,
        unexplained: &Unexplained<'_>,
        subjects: &[Subject<'_>],
        headline: Option<Diagnosis>,
    ) -> Result<Named, NoMemory> {
        let mut named = Named {
            broken: unexplained.call,
            reasons: Vec::new(alloc),
            versions: Vec::new(alloc),
            last: unexplained.event,
        };
        if let Some(call) = call_of(unexplained.history, unexplained.call) {
            named.note(&call.record)?;
        }
        if let Some(evidence) = unexplained.evidence {
            named.add_evidence(unexplained.history, EvidenceCalls::of(evidence))?;
        }
        for subject in subjects {
            if let Some(reason) = &subject.reason {
                named.add_reason(reason)?;
            }
        }
        if let Some(found) = headline {
            named.add_headline(unexplained.whole, subjects, found)?;
        }
        Ok(named)
    }

    // Adds the calls that the headline follows from beside those: its own evidence, or of a loss the first call that shows
    // an older state and the first write that was performed on one.
    fn add_headline(
        &mut self,
        whole: &History,
        subjects: &[Subject<'_>],
        found: Diagnosis,
    ) -> Result<(), NoMemory> {
        if let Some(evidence) = found.evidence {
            self.add_evidence(whole, EvidenceCalls::of(evidence))?;
        }
        if found.anomaly != Anomaly::LostWrite {
            return Ok(());
        }
        for subject in subjects {
            if let Some(loss) = &subject.findings.loss
                && let Some(builder) = &loss.builder
            {
                self.add(&loss.shower)?;
                self.add(builder)?;
            }
        }
        Ok(())
    }

    // Notes the versions that the call names, and its last event.
    fn note(&mut self, record: &Rec) -> Result<(), NoMemory> {
        self.last = self.last.max(end_of(record));
        if let Some(pair) = version_shown(record) {
            self.versions.push(pair)?;
        }
        if let Some(pair) = record.op.condition() {
            self.versions.push(pair)?;
        }
        Ok(())
    }

    // Adds a call of the evidence or of a reason.
    fn add(&mut self, record: &Rec) -> Result<(), NoMemory> {
        self.reasons.push(record.no)?;
        self.note(record)
    }

    // Adds the calls of the evidence.
    fn add_evidence(&mut self, history: &History, calls: EvidenceCalls) -> Result<(), NoMemory> {
        if let Some(first) = call_of(history, calls.first) {
            self.add(&first.record)?;
        }
        if let Some(no) = calls.second {
            if let Some(second) = call_of(history, no) {
                self.add(&second.record)?;
            }
        }
        Ok(())
    }

    // Adds the calls of a reason; none if the evidence already explains the call that has no place.
    fn add_reason(&mut self, reason: &Reason) -> Result<(), NoMemory> {
        if reason.is_reported {
            return Ok(());
        }
        self.add(&reason.stop)?;
        for link in reason.links.iter() {
            self.add(&link.record)?;
        }
        match &reason.shower {
            Some(shower) => self.add(shower),
            None => Ok(()),
        }
    }

    // Whether the call is one of them.
    fn is_named(&self, no: u64) -> bool {
        no == self.broken || self.reasons.contains(&no)
    }

    /// Returns how the call stands out.
    pub fn mark(&self, no: u64) -> Mark {
        if no == self.broken {
            Mark::Broken
        } else if self.reasons.contains(&no) {
            Mark::Evidence
        } else {
            Mark::Plain
        }
    }

    /// Returns whether the call is one of them, or made a version that they name.
    pub fn matters(&self, call: &Call<'_>) -> bool {
        if self.is_named(call.record.no) {
            return true;
        }
        match call.record.pair_taken() {
            Some(taken) => self.versions.contains(&taken),
            None => false,
        }
    }

    // Whether reasons are named that need neither a write without a reply nor a conflict, and the call is one.
    fn can_do_without(&self, call: &Call<'_>) -> bool {
        !self.reasons.is_empty() && (call.may_have_happened() || call.is_refused())
    }

    // Returns how much the call matters. `beside` are the calls that are named.
    fn rank(&self, lines: &EventLines, call: &Call<'_>, beside: &[Call<'_>]) -> Rank {
        if self.is_named(call.record.no) {
            Rank::Named
        } else if self.matters(call) {
            Rank::Writer
        } else if self.can_do_without(call) {
            Rank::Other
        } else if beside
            .iter()
            .any(|other| lines.overlap(&call.record, &other.record))
        {
            Rank::Beside
        } else {
            Rank::Other
        }
    }

    // Returns those of the calls that are named.
    fn marked<'h>(&self, alloc: Global, calls: &[Call<'h>]) -> Result<Vec<Call<'h>>, NoMemory> {
        let mut marked = Vec::new(alloc);
        for call in calls {
            if self.is_named(call.record.no) {
                marked.push(*call)?;
            }
        }
        Ok(marked)
    }

    /// Returns at most that many of the calls, in their order: those that are named, those that made the
    /// versions that these name, and the last ones of those that were open at the same time.
    pub fn first<'h>(
        &self,
        alloc: Global,
        lines: &EventLines,
        calls: &[Call<'h>],
        most: usize,
    ) -> Result<Vec<Call<'h>>, NoMemory>
        // There are no more.
        ensures { IfOk result (λ calls. vec_len calls ≤ most) }
    {
        let named = self.marked(alloc, calls)?;
        let mut first = Vec::new(alloc);
        for rank in [Rank::Named, Rank::Writer, Rank::Beside] {
            for call in calls.iter().rev() {
                if first.len() < most && self.rank(lines, call, &named) == rank {
                    first.push(*call)?;
                }
            }
        }
        Ok(in_order(first))
    }

    /// Returns at most that many of the calls, in their order: those that matter most, and the last ones of
    /// the others.
    pub fn chosen<'h>(
        &self,
        alloc: Global,
        calls: &[Call<'h>],
        most: usize,
    ) -> Result<Vec<Call<'h>>, NoMemory>
        // There are no more.
        ensures { IfOk result (λ calls. vec_len calls ≤ most) }
    {
        let mut chosen = Vec::new(alloc);
        for call in calls {
            if chosen.len() < most && self.matters(call) {
                chosen.push(*call)?;
            }
        }
        for call in calls.iter().rev() {
            if chosen.len() >= most {
                break;
            }
            if !self.matters(call) {
                chosen.push(*call)?;
            }
        }
        Ok(in_order(chosen))
    }
}

// Whether the call of this number is among the calls.
fn has_call(calls: &[Call<'_>], no: u64) -> bool {
    for call in calls {
        if call.record.no == no {
            return true;
        }
    }
    false
}

/// Returns at most that many of the calls, in their order: the last ones of those that are not among the
/// first.
pub fn rest_of<'h>(
    alloc: Global,
    calls: &[Call<'h>],
    first: &[Call<'h>],
    most: usize,
) -> Result<Vec<Call<'h>>, NoMemory>
    // There are no more.
    ensures { IfOk result (λ calls. vec_len calls ≤ most) }
{
    let mut rest = Vec::new(alloc);
    for call in calls.iter().rev() {
        if rest.len() >= most {
            break;
        }
        if !has_call(first, call.record.no) {
            rest.push(*call)?;
        }
    }
    Ok(in_order(rest))
}
