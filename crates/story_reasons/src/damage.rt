ghost use Rattle.std.specs.Prelude.{◌<◌, length};
ghost use Rattle.events.specs.Events.{documents_of};

use crate::accounts::Account;
use crate::anomaly::Anomaly;
use crate::calls::record_of;
use crate::diagnosis::{Diagnosis, document_diagnosis};
use crate::findings::{Findings, findings_of};
use crate::given_again::GivenAgain;
use crate::lost_writes::LostWrites;
use crate::reason::{Reason, RuledOutRecords, found_reason};
use crate::subjects::{Subject, Subjects};
use events::Rec;
use evidence::{Allowance, Rulings};
use readings::{Gets, Writes, attempts_of};
use std::alloc::Global;
use version_pair::{DocId, NoMemory};

/// How many documents show an anomaly.
#[derive(Clone, Copy)]
pub struct AnomalyCount {
    pub anomaly: Anomaly,
    pub documents: usize,
    /// The positions of the first and of the last reply that shows it.
    pub first: usize,
    pub last: usize,
}

/// How much of a history is broken: the documents that are refuted on their own, each ruled out by its own
/// answered calls, or by one or two of them.
#[derive(Drop)]
pub struct Damage {
    /// The number of these documents.
    pub documents: usize,
    /// The number of those that the explanation isn't about.
    pub others: usize,
    /// The anomalies that they show.
    pub counts: Vec<AnomalyCount>,
    /// Their acknowledged writes that are never seen again, if there are some.
    pub lost: Option<LostWrites>,
    /// Their writes that were given a version again, if there are some.
    pub again: Option<GivenAgain>,
    // What the headline names.
    headline: Option<Diagnosis>,
}

// A document, and why it is ruled out, if it is.
#[derive(Clone, Copy)]
struct Judged<'a> {
    reason: Option<&'a Reason>,
    // Its calls by the text.
    records: &'a [Rec],
    findings: &'a Findings,
    // Whether a fault of one call or two is enough.
    is_strict: bool,
    // What the headline names.
    headline: Option<Diagnosis>,
}

impl Damage {
    // Counts the anomaly of a document, which the reply at this position shows.
    fn count(&mut self, anomaly: Anomaly, event: usize) -> Result<(), NoMemory> {
        for count in self.counts.iter_mut() {
            if count.anomaly == anomaly {
                // A history has too few documents for the sum to reach the greatest number.
                count.documents = count.documents.saturating_add(1);
                count.first = count.first.min(event);
                count.last = count.last.max(event);
                return Ok(());
            }
        }
        self.counts.push(AnomalyCount {
            anomaly,
            documents: 1,
            first: event,
            last: event,
        })?;
        Ok(())
    }

    // Adds the writes of a document that are never seen again, and those that were given a version again.
    fn add_findings(&mut self, findings: &Findings) {
        if let Some(loss) = &findings.loss {
            self.lost = Some(match self.lost {
                Some(before) => before.with(loss.lost),
                None => loss.lost,
            });
        }
        if let Some(again) = findings.again {
            self.again = Some(match self.again {
                Some(before) => before.with(again),
                None => again,
            });
        }
    }

    // Adds a document if it is refuted on its own, and returns whether it is: it is ruled out, or shows a fault of one call
    // or two. If the headline is of one of its calls, that is its anomaly.
    fn add(&mut self, judged: &Judged<'_>) -> Result<bool, NoMemory> {
        let findings = judged.findings;
        if judged.reason.is_none() && (!judged.is_strict || findings.first().is_none()) {
            return Ok(false);
        }
        let own = judged
            .headline
            .filter(|found| record_of(judged.records, found.call).is_some());
        let shown = own.or(document_diagnosis(judged.reason, judged.records, findings));
        if let Some(found) = shown {
            self.documents = self.documents.saturating_add(1);
            self.count(found.anomaly, found.event)?;
            self.add_findings(findings);
        }
        Ok(shown.is_some())
    }

    // Adds the document of this number of the whole history if it is refuted on its own, and returns whether it is.
    fn add_document(
        &mut self,
        alloc: Global,
        account: &Account<'_>,
        rulings: &Rulings<'_>,
        allowance: &mut Allowance,
        doc: usize,
    ) -> Result<bool, NoMemory>
        requires ruled { doc < length (documents_of rulings.now.history.now) }
        requires judged { doc < length (documents_of account.now.judged.whole.now) }
        requires document { doc < length (documents_of account.now.in_text.whole.now) }
    {
        let judged = &account.judged;
        let reason = match rulings.contradiction(alloc, doc, allowance)? {
            Some(contradiction) => {
                let records = judged.whole.records(doc)?;
                let document = RuledOutRecords {
                    records: &records,
                    conflicts: judged.conflicts,
                    writes: account.reading.writes,
                    evidence: judged.evidence,
                };
                found_reason(alloc, document, &contradiction)?
            }
            None => None,
        };
        let reason = match reason {
            Some(reason) => Some(reason.in_text(&account.whole_back())),
            None => None,
        };
        let records = account.in_text.whole.records(doc)?;
        let findings = findings_of(alloc, &records, judged.conflicts)?;
        self.add_judged(account, reason.as_ref(), &records, &findings)
    }

    // Adds the document with these calls if it is refuted on its own, and returns whether it is.
    fn add_judged(
        &mut self,
        account: &Account<'_>,
        reason: Option<&Reason>,
        records: &[Rec],
        findings: &Findings,
    ) -> Result<bool, NoMemory> {
        let judged = Judged {
            reason,
            records,
            findings,
            is_strict: account.reading.gets == Gets::Last && account.reading.writes == Writes::Once,
            headline: self.headline,
        };
        self.add(&judged)
    }

    // Adds the document of this number, which the explanation is about, if it is refuted on its own.
    fn add_subject(
        &mut self,
        alloc: Global,
        account: &Account<'_>,
        rulings: &Rulings<'_>,
        allowance: &mut Allowance,
        doc: usize,
        subject: &Subject<'_>,
    ) -> Result<(), NoMemory>
        requires ruled { doc < length (documents_of rulings.now.history.now) }
        requires judged { doc < length (documents_of account.now.judged.whole.now) }
        requires document { doc < length (documents_of account.now.in_text.whole.now) }
    {
        match subject.whole_reason() {
            Some(reason) => {
                self.add_judged(account, Some(reason), &subject.records, &subject.findings)?;
            }
            None => {
                self.add_document(alloc, account, rulings, allowance, doc)?;
            }
        }
        Ok(())
    }
}

// Returns the one of the subjects that is this document.
fn subject_of<'s, 'h>(subjects: &'s [Subject<'h>], id: &DocId) -> Option<&'s Subject<'h>> {
    for subject in subjects {
        if subject.id.as_str() == id.as_str() {
            return Some(subject);
        }
    }
    None
}

/// Returns how much of the whole history is broken. It takes at most one walk over each document, and several over the
/// last calls of those that are ruled out. The document of the headline has its anomaly.
pub fn damage_of(
    alloc: Global,
    subjects: &Subjects<'_>,
    headline: Option<Diagnosis>,
) -> Result<Damage, NoMemory> {
    let account = &subjects.account;
    let whole = account.in_text.whole;
    // What is judged has the documents of the text.
    let documents = whole.docs().min(account.judged.whole.docs());
    let mut damage = Damage {
        documents: 0,
        others: 0,
        counts: Vec::new(alloc),
        lost: None,
        again: None,
        headline,
    };
    let judged = &account.judged;
    let attempts = attempts_of(account.reading.writes);
    let rulings = Rulings::of(alloc, judged.whole, judged.conflicts, attempts)?;
    let mut allowance = rulings.allowance();
    for doc in 0..documents {
        match subject_of(&subjects.list, whole.doc(doc)) {
            Some(subject) => damage.add_subject(
                alloc,
                account,
                &rulings,
                &mut allowance,
                doc,
                subject,
            )?,
            None => {
                let is_added = damage.add_document(alloc, account, &rulings, &mut allowance, doc)?;
                // A history has too few documents for the sum to reach the greatest number.
                damage.others = damage.others.saturating_add(usize::from(is_added));
            }
        }
    }
    Ok(damage)
}
