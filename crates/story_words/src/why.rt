use crate::evidence_words::{add_evidence, evident_calls};
use crate::hidden_write::{add_hidden_write, add_other_reading};
use crate::late_line::add_late_line;
use crate::reason_parts::add_reason;
use crate::reported_calls::add_reported_calls;
use crate::unreported_words::add_unreported;
use events::Rec;
use evidence::{Certainty, Refuted};
use readings::{Gets, Reading};
use story_blocks::Draft;
use story_blocks::Word::{Id, Number};
use story_reasons::{
    Diagnosis, EvidenceCalls, OrderSearch, Reason, Subject, Subjects, Unexplained, call_of,
    record_of,
};
use version_pair::NoMemory;

// Says that the evidence is of another document than the reply at which the search failed, if it is.
fn add_other_document<'h>(
    draft: &mut Draft<'_>,
    unexplained: &Unexplained<'h>,
    subjects: &[Subject<'h>],
) {
    let (Some(subject), Some(evidence)) = (subjects.first(), unexplained.evidence) else {
        return;
    };
    let calls = EvidenceCalls::of(evidence);
    for record in subject.records.iter() {
        if calls.contain(record.no) {
            return;
        }
    }
    if let Some(other) = call_of(unexplained.history, calls.first) {
        draft.paragraph(
            "The search failed first at {}, with the reply to call {}. The calls that prove it are of another document, {} on shard {}; both documents are shown.",
            &[
                Id(subject.id),
                Number(unexplained.call),
                Id(other.id),
                Number(other.shard as u64),
            ],
        );
    }
}

// Adds why no order explains the document, if it is ruled out.
fn add_subject(draft: &mut Draft<'_>, reading: Reading, subject: &Subject<'_>, several: bool) {
    let Some(reason) = &subject.reason else {
        return;
    };
    if !reason.is_reported {
        if several {
            draft.paragraph("Of the document {}:", &[Id(subject.id)]);
        }
        add_reason(draft, reason, reading);
    } else if reason.wants_write() {
        add_unreported(draft, reason, reading);
    }
}

// Returns the get that the evidence says nobody can have written for, if it is one of these calls.
fn get_without_writer(evidence: Option<Refuted>, records: &[Rec]) -> Option<Rec> {
    match evidence {
        Some(Refuted::NoWriter(no)) => record_of(records, no),
        _ => None,
    }
}

// Returns the call that shows what nobody can have written, if that of the first line, the evidence or the reason is
// about one.
fn unwritten_call(unexplained: &Unexplained<'_>, subject: &Subject<'_>) -> Option<Rec> {
    let reported = get_without_writer(unexplained.reported, subject.all());
    let evident = get_without_writer(unexplained.evidence, &subject.records);
    match (reported, evident, &subject.reason) {
        (Some(get), _, _) | (None, Some(get), _) => Some(get),
        (None, None, Some(reason)) => reason.unwritten(),
        (None, None, None) => None,
    }
}

// Asks whether a conflict hid a write, if it seems so: of the call that shows what nobody can have written. Returns
// whether it does.
fn add_hidden(draft: &mut Draft<'_>, unexplained: &Unexplained<'_>, subject: &Subject<'_>) -> bool {
    match unwritten_call(unexplained, subject) {
        Some(get) => add_hidden_write(draft, &get, subject.all(), unexplained.conflicts),
        None => false,
    }
}

// Asks whether a line was written late, if it seems so by one of the calls whose replies show the versions that the
// reason mentions.
fn add_late_of(draft: &mut Draft<'_>, reason: &Reason, records: &[Rec]) {
    if let Some(shower) = &reason.shower {
        if add_late_line(draft, shower, records) {
            return;
        }
    }
    for link in reason.links.iter() {
        if add_late_line(draft, &link.record, records) {
            return;
        }
    }
}

// Asks whether a line was written late, if it seems so.
fn add_late(draft: &mut Draft<'_>, unexplained: &Unexplained<'_>, subject: &Subject<'_>) {
    if let Some(get) = get_without_writer(unexplained.evidence, &subject.records) {
        if add_late_line(draft, &get, subject.all()) {
            return;
        }
    }
    if let Some(reason) = &subject.reason {
        add_late_of(draft, reason, subject.all());
    }
}

// Adds the reasons of each document, and what may make them look wrong. The text is checked with conflicts read
// otherwise at most once, and only if all else is read strictly.
fn add_subjects<S: OrderSearch>(
    draft: &mut Draft<'_>,
    explained: &Subjects<'_>,
    search: &S,
) -> Result<(), NoMemory> {
    let unexplained = &explained.unexplained;
    let reading = explained.account.reading;
    let mut is_checked = reading != Reading::strict();
    for subject in explained.list.iter() {
        add_late(draft, unexplained, subject);
        if add_hidden(draft, unexplained, subject) && !is_checked {
            is_checked = true;
            add_other_reading(draft, unexplained.whole, search)?;
        }
        add_subject(draft, reading, subject, explained.list.len() > 1);
    }
    Ok(())
}

// Whether there is a reason for one of the documents.
fn have_reasons(subjects: &[Subject<'_>]) -> bool {
    for subject in subjects {
        if subject.reason.is_some() {
            return true;
        }
    }
    false
}

// Whether a document is ruled out.
fn is_ruled_out(certainty: Certainty) -> bool {
    matches!(certainty, Certainty::RuledOut | Certainty::ReportedRuledOut)
}

// Says that all was tried, if a document is ruled out and no calls are known from which that follows.
fn add_tried(draft: &mut Draft<'_>, explained: &Subjects<'_>) {
    let unexplained = &explained.unexplained;
    let named = match unexplained.evidence {
        Some(Refuted::RuledOut(no)) => call_of(unexplained.history, no),
        _ => None,
    };
    match (named, explained.list.first()) {
        (Some(call), _) => draft.paragraph(
            "All ways in which the calls without a reply may have changed {0} were tried. After the reply to call {1.no}, on line {1.replied}, none is left.",
            &[Id(call.id), draft.call(&call.record)],
        ),
        (None, Some(subject)) => draft.paragraph(
            "All ways in which the calls without a reply may have changed {0} were tried. None fits the replies.",
            &[Id(subject.id)],
        ),
        (None, None) => {}
    }
}

// Returns the evidence that the headline follows from, if it has its own.
fn evidence_of(found: Option<Diagnosis>) -> Option<Refuted> {
    match found {
        Some(found) => found.evidence,
        None => None,
    }
}

// Adds the evidence that the headline follows from, if that is complete only with a line after the broken reply.
fn add_headline_evidence(
    draft: &mut Draft<'_>,
    explained: &Subjects<'_>,
    found: Option<Diagnosis>,
) {
    let unexplained = &explained.unexplained;
    let (Some(found), Some(evident)) = (found, evident_calls(unexplained.whole, evidence_of(found)))
    else {
        return;
    };
    add_evidence(draft, &evident, explained.account.reading);
    if found.event > unexplained.event {
        draft.paragraph(
            "Without the lines after line {} that is not seen yet, but no order has the replies up to it either:",
            &[draft.line(unexplained.event)],
        );
    }
}

/// Adds why no order can have the replies, if it is known: by evidence, and for each document that is ruled
/// out; then which calls the first line names, if these are others.
pub fn add_why<S: OrderSearch>(
    draft: &mut Draft<'_>,
    explained: &Subjects<'_>,
    found: Option<Diagnosis>,
    search: &S,
) -> Result<(), NoMemory> {
    let unexplained = &explained.unexplained;
    let reading = explained.account.reading;
    let evident = evident_calls(unexplained.history, unexplained.evidence);
    let is_tried = evident.is_none() && !have_reasons(&explained.list);
    if is_tried && !is_ruled_out(unexplained.certainty) {
        return Ok(());
    }
    draft.heading(match reading.gets {
        Gets::Last => "Why no order can have these replies",
        Gets::Any => "Why nothing explains these replies",
    });
    add_headline_evidence(draft, explained, found);
    add_other_document(draft, unexplained, &explained.list);
    if is_tried {
        add_tried(draft, explained);
    }
    if let Some(evident) = &evident {
        add_evidence(draft, evident, reading);
    }
    add_subjects(draft, explained, search)?;
    add_reported_calls(draft, unexplained, evidence_of(found));
    Ok(())
}
