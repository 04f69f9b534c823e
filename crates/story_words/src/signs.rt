use doc_register::Op;
use events::Rec;
use evidence::Refuted;
use story_blocks::Draft;
use story_blocks::Word::Version;
use story_reasons::{
    Anomaly, Diagnosis, Subject, Unexplained, call_of, is_answered_before, record_of, shows,
    version_fall, version_shown,
};
use version_pair::{NoMemory, Pair};

// Returns the greatest version that a reply before the event shows.
fn reached_before(records: &[Rec], event: usize) -> Option<Pair> {
    let mut reached: Option<Pair> = None;
    for record in records {
        if is_answered_before(record, event) {
            reached = reached.max(version_shown(record));
        }
    }
    reached
}

// Returns the version that the document had reached before the get was made, if the reply to the get shows none or one
// below it, and another get could show it: it isn't that of a delete.
fn missed_by(get: &Rec, records: &[Rec]) -> Option<Pair> {
    let reached = reached_before(records, get.call_at)?;
    let is_short = match version_shown(get) {
        Some(shown) => shown.is_below(reached),
        None => true,
    };
    if !is_short || !matches!(get.op, Op::Get) {
        return None;
    }
    for record in records {
        if matches!(record.op, Op::Delete { .. }) && record.pair_taken() == Some(reached) {
            return None;
        }
    }
    Some(reached)
}

// Whether two writes were given the version.
fn is_given_twice(records: &[Rec], pair: Pair) -> bool {
    let mut count = 0usize;
    for record in records {
        if record.pair_taken() == Some(pair) {
            // A document has too few calls for the sum to reach the greatest number.
            count = count.saturating_add(1);
        }
    }
    count > 1
}

// Returns the first call that was made after the event and whose reply shows the version.
fn shown_after(records: &[Rec], event: usize, pair: Pair) -> Option<Rec> {
    for record in records {
        if record.call_at > event && shows(record, pair) {
            return Some(*record);
        }
    }
    None
}

// Adds whether a call that was made after the reply to a get shows the version again that the document had
// reached before the get was made; nothing if the reply isn't short of that version, or no get can show it.
fn add_again(draft: &mut Draft<'_>, records: &[Rec], broken: &Rec) {
    let (Some(pair), Some(heard)) = (missed_by(broken, records), broken.heard) else {
        return;
    };
    if is_given_twice(records, pair) {
        draft.paragraph(
            "The version {0} was given to two writes of the document, so a later reply with it doesn't say whether the first of them is still there.",
            &[Version(Some(pair))],
        );
        return;
    }
    match shown_after(records, heard.0, pair) {
        Some(later) => draft.paragraph(
            "The version {0} is shown again by call {1.no} (line {1.replied}), which was made after the reply to call {2.no}: so it was not lost for good, which suggests a reply from an older copy.",
            &[Version(Some(pair)), draft.call(&later), draft.call(broken)],
        ),
        None => draft.paragraph(
            "No call that was made after the reply to call {1.no} shows the version {0} again, so nothing here says whether it is still there.",
            &[Version(Some(pair)), draft.call(broken)],
        ),
    }
}

// Adds which write shows that acknowledged writes are gone, if one does; else whether what a get missed is shown again.
fn add_fate(draft: &mut Draft<'_>, subject: &Subject<'_>, broken: &Rec) {
    let builder = match &subject.findings.loss {
        Some(loss) => loss.builder.map(|builder| (builder, loss.lost)),
        None => None,
    };
    match &builder {
        Some((builder, lost)) => draft.paragraph(
            "Call {0.no} ({0.asked}) was performed on the older state (line {0.replied}), and no later reply shows or builds on what was acknowledged before it: {1} to {2}. So that is not only unread: it is gone.",
            &[
                draft.call(builder),
                Version(Some(lost.least)),
                Version(Some(lost.greatest)),
            ],
        ),
        None => add_again(draft, subject.all(), broken),
    }
}

// Whether a write that was called after the event was performed.
fn is_written_after(records: &[Rec], event: usize) -> bool {
    for record in records {
        if record.call_at > event && record.pair_taken().is_some() {
            return true;
        }
    }
    false
}

// Adds whether the versions of the document fall back; nothing if they don't and nothing was written after the
// reply.
fn add_fall(draft: &mut Draft<'_>, records: &[Rec], broken: &Rec) -> Result<(), NoMemory> {
    match (version_fall(draft.alloc, records)?, broken.heard) {
        (Some(fall), _) => draft.paragraph(
            "The document's versions fall back: call {0.no} was given {0.version}, and call {1.no}, made after that reply, {1.version} (line {1.replied}). This suggests an index that was re-created, or a copy that counted on from older data.",
            &[
                draft.call(&fall.before.write),
                draft.call(&fall.after.write),
            ],
        ),
        (None, Some(heard)) if is_written_after(records, heard.0) => draft.paragraph(
            "The versions that the document's writes were given never fall back, neither before nor after the reply that broke the order, which speaks against an index that was re-created.",
            &[],
        ),
        _ => (),
    }
    Ok(())
}

// Says whether the two writes with one version are of one document.
fn documents_words(unexplained: &Unexplained<'_>) -> Option<&'static str> {
    let Some(Refuted::PairTwice(one, two)) = unexplained.evidence else {
        return None;
    };
    let history = unexplained.history;
    match (call_of(history, one), call_of(history, two)) {
        (Some(first), Some(second)) if first.id.as_str() == second.id.as_str() => Some(
            "Both lines name one document: make sure that both are in one index, with one routing if the index uses it.",
        ),
        (Some(_), Some(_)) => {
            Some("The two writes are of different documents: make sure that both are of one shard.")
        }
        _ => None,
    }
}

// Adds what the calls of a document say, if the call that shows the anomaly is one of them.
fn add_subject(
    draft: &mut Draft<'_>,
    subject: &Subject<'_>,
    found: Diagnosis,
) -> Result<(), NoMemory> {
    let records = subject.all();
    let Some(broken) = record_of(records, found.call) else {
        return Ok(());
    };
    if found.anomaly.is_of_state() {
        add_fate(draft, subject, &broken);
        return add_fall(draft, records, &broken);
    }
    // An index that was re-created makes the same picture.
    match found.anomaly {
        Anomaly::LostUpdate => add_fall(draft, records, &broken),
        _ => Ok(()),
    }
}

/// Adds what in the history speaks for or against what is to be ruled out.
pub fn add_signs(
    draft: &mut Draft<'_>,
    unexplained: &Unexplained<'_>,
    subjects: &[Subject<'_>],
    found: Diagnosis,
) -> Result<(), NoMemory> {
    if let Some(words) = documents_words(unexplained) {
        draft.paragraph(words, &[]);
    }
    for subject in subjects {
        add_subject(draft, subject, found)?;
    }
    Ok(())
}
