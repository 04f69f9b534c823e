use crate::accounts::Account;
use crate::calls::{Call, EvidenceCalls, call_of, end_of};
use crate::findings::{Findings, findings_of};
use crate::reason::{Reason, reason_of};
use crate::subject::Unexplained;
use events::{History, Rec};
use evidence::Refuted;
use std::alloc::Global;
use version_pair::{DocId, NoMemory};

/// A document that an explanation is about.
#[derive(Drop)]
pub struct Subject<'h> {
    pub id: &'h DocId,
    pub shard: u32,
    /// Its calls in the part of the text that the reasons are about.
    pub records: Vec<Rec>,
    // Its calls in the whole text, if that is longer.
    whole_records: Option<Vec<Rec>>,
    /// Why no order explains it, if it is ruled out.
    pub reason: Option<Reason>,
    /// What is found of its calls in the whole text without regard to what became of those without a reply.
    pub findings: Findings,
}

impl<'h> Subject<'h> {
    /// Returns one of its calls, with the document.
    pub fn call(&self, record: &Rec) -> Call<'h> {
        Call {
            id: self.id,
            shard: self.shard,
            record: *record,
        }
    }

    /// Returns its calls in the whole text.
    pub fn all(&self) -> &[Rec] {
        match &self.whole_records {
            Some(records) => records.as_slice(),
            None => self.records.as_slice(),
        }
    }

    /// Returns why no order explains its calls in the whole history, if that is known already.
    pub fn whole_reason(&self) -> Option<&Reason> {
        match self.whole_records {
            Some(_) => None,
            None => self.reason.as_ref(),
        }
    }
}

/// The documents that an explanation is about.
#[derive(Drop)]
pub struct Subjects<'h> {
    /// What the explanation is of, by the text.
    pub unexplained: Unexplained<'h>,
    /// The same, and what was judged.
    pub account: Account<'h>,
    /// The documents of the offence and of the evidence, the offence's first.
    pub list: Vec<Subject<'h>>,
}

// Adds the number of the call's document, unless it is there.
fn add_document(history: &History, no: u64, docs: &mut Vec<usize>) -> Result<(), NoMemory> {
    let Some(call) = call_of(history, no) else {
        return Ok(());
    };
    if let Some(doc) = history.doc_of(call.id) {
        if !docs.contains(&doc) {
            docs.push(doc)?;
        }
    }
    Ok(())
}

// Returns the numbers of the documents of the offence and of the evidence, each once, the offence's first.
fn documents_of(alloc: Global, unexplained: &Unexplained<'_>) -> Result<Vec<usize>, NoMemory> {
    let history = unexplained.history;
    let mut docs = Vec::new(alloc);
    add_document(history, unexplained.call, &mut docs)?;
    if let Some(evidence) = unexplained.evidence {
        let calls = EvidenceCalls::of(evidence);
        add_document(history, calls.first, &mut docs)?;
        if let Some(second) = calls.second {
            add_document(history, second, &mut docs)?;
        }
    }
    Ok(docs)
}

// Returns the calls of the document in the whole history, if that is longer than the one that the reasons are about.
fn whole_records(unexplained: &Unexplained<'_>, id: &DocId) -> Result<Option<Vec<Rec>>, NoMemory> {
    let whole = unexplained.whole;
    match whole.doc_of(id) {
        Some(doc) if doc < whole.docs() && unexplained.history.len() < whole.len() => {
            Ok(Some(whole.records(doc)?))
        }
        _ => Ok(None),
    }
}

// Whether the reply to the call stands up to the broken one.
fn is_early(unexplained: &Unexplained<'_>, no: u64) -> bool {
    match call_of(unexplained.history, no) {
        Some(call) => end_of(&call.record) <= unexplained.event,
        None => false,
    }
}

// Whether there is no evidence of one call or two.
fn is_ruled_out(unexplained: &Unexplained<'_>) -> bool {
    matches!(unexplained.evidence, None | Some(Refuted::RuledOut(_)))
}

// Whether one call or two are evidence that is complete with the broken reply. Then no reason needs a later line.
fn is_evident_early(unexplained: &Unexplained<'_>) -> bool {
    match unexplained.evidence {
        None | Some(Refuted::RuledOut(_)) => false,
        Some(evidence) => {
            let calls = EvidenceCalls::of(evidence);
            is_early(unexplained, calls.first)
                && is_early(unexplained, calls.second.unwrap_or(calls.first))
        }
    }
}

// Returns why no order explains the document of this number, by the calls of the text, if it is ruled out.
fn reason_in_text(
    alloc: Global,
    account: &Account<'_>,
    doc: usize,
) -> Result<Option<Reason>, NoMemory> {
    let judged = &account.judged;
    let history = judged.history;
    if doc >= history.docs() {
        return Ok(None);
    }
    let records = history.records(doc)?;
    let writes = account.reading.writes;
    match reason_of(alloc, judged, doc, &records, writes)? {
        Some(reason) => Ok(Some(reason.in_text(&account.back()))),
        None => Ok(None),
    }
}

impl<'h> Subjects<'h> {
    /// Returns those of what is explained.
    pub fn of(alloc: Global, account: &Account<'h>) -> Result<Subjects<'h>, NoMemory> {
        let unexplained = &account.in_text;
        let history = unexplained.history;
        let is_evident = is_evident_early(unexplained);
        let mut list = Vec::new(alloc);
        for doc in documents_of(alloc, unexplained)?.iter() {
            if *doc < history.docs() {
                let records = history.records(*doc)?;
                let reason = reason_in_text(alloc, account, *doc)?.filter(|reason| !is_evident
                    || !reason.names_after(unexplained.event));
                let id = history.doc(*doc);
                let whole_records = whole_records(unexplained, id)?;
                let all = match &whole_records {
                    Some(records) => records.as_slice(),
                    None => records.as_slice(),
                };
                let findings = findings_of(alloc, all, unexplained.conflicts)?;
                list.push(Subject {
                    id,
                    shard: history.shard(*doc),
                    records,
                    whole_records,
                    reason,
                    findings,
                })?;
            }
        }
        Ok(Subjects {
            unexplained: *unexplained,
            account: *account,
            list,
        })
    }

    /// Returns whether a reason that an explanation gives names a call or a reply after the broken one: a call of
    /// the evidence, or what a document that is ruled out rests on.
    pub fn cite_later(&self) -> bool {
        if is_evident_early(&self.unexplained) {
            return false;
        }
        if !is_ruled_out(&self.unexplained) {
            return true;
        }
        for subject in self.list.iter() {
            if let Some(reason) = &subject.reason {
                if reason.names_after(self.unexplained.event) {
                    return true;
                }
            }
        }
        false
    }
}
