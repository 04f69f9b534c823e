use events::{History, Rec};
use evidence::Refuted;
use readings::{Gets, Reading, Writes};
use story_blocks::Word::{Id, Number};
use story_blocks::{Draft, unreported_kind};
use story_reasons::{Call, EvidenceCalls, call_of};

// The words of these templates are those of `add_evidence`: 0 and 1 are the two calls that the evidence names, in its
// order, 2 and 3 their documents, 4 their shard, and 5 which writes have no reply that says whether they were performed.

const PAIR_TWICE: &str =
    "Call {0.no}, a write of {2}, was answered with the version {0.version} (line {0.replied}), and so was call {1.no}, a write of {3} (line {1.replied}). Both are on shard {4}, and a shard gives each pair of _primary_term and _seq_no to one write only. So no order can have both replies.";

const NO_WRITER: &str =
    "Call {0.no}, a get, was answered with k={0.k} at the version {0.version} (line {0.replied}). No write that was called before that reply can have given {2} the number {0.k} at {0.version}: no reply shows both, and no write with k={0.k} was {5}";

const NOR_AGAIN: &str = ", nor was one called that the store may have performed a second time";

const UNEXPLAINED: &str = ". So no order explains what the get found.";

const SHOWN_BY_NO_COPY: &str = ". So no copy can have had what the get found.";

const STALE_GET: &str =
    "Call {1.no} ({1.asked}) was answered with the version {1.version} (line {1.replied}) before call {0.no}, a get, was made (line {0.called}). So each order has the write before the get. But the get was answered with {0.version} (line {0.replied}), which is older than {1.version}, and a document never goes back to an older version. So no order can have both replies.";

const BEFORE_ALONE: &str =
    "Call {1.no} ({1.asked}) was answered with the version {1.version} (line {1.replied}) before call {0.no}, a get, was made (line {0.called}). Any copy may answer a get, but each copy in sync has what was acknowledged before the get was made. ";

const OLDER: &str =
    "This one was answered with {0.version} (line {0.replied}), which is older than {1.version}. So no copy in sync can have answered so.";

const ABSENT: &str =
    "This one found nothing (line {0.replied}), and no delete that was called before that reply can have removed {2} after {1.version}. So no copy in sync can have answered so.";

const STALE_SWAP: &str =
    "Call {1.no} was to be performed only if the document is still at the version {1.condition}, and it was performed (line {1.replied}). But call {0.no} had given the document the newer version {0.version} (line {0.replied}), and it comes first: ";

const OVERWRITTEN: &str =
    ". So the document was past {1.condition} by then, and no order can have both replies: the condition was not honoured, and what call {0.no} wrote was overwritten unseen.";

// Says why the first write comes before the second.
fn first_because(first: &Rec, second: &Rec) -> &'static str {
    match first.heard {
        Some(heard) if heard.0 < second.call_at => {
            "call {0.no} was answered before call {1.no} was made (line {1.called})"
        }
        _ =>
            "the version of call {0.no} is the older of the two, so it took effect before call {1.no}",
    }
}

// Returns why nobody can have written what a get found, as templates.
fn writer_templates(reading: Reading) -> [&'static str; 3] {
    let again = match reading.writes {
        Writes::Once => "",
        Writes::Repeated => NOR_AGAIN,
    };
    match reading.gets {
        Gets::Last => [NO_WRITER, again, UNEXPLAINED],
        Gets::Any => [NO_WRITER, again, SHOWN_BY_NO_COPY],
    }
}

// Returns why no order can have what the evidence names, as templates.
fn evidence_templates(
    evidence: Refuted,
    first: &Rec,
    second: &Rec,
    reading: Reading,
) -> [&'static str; 3] {
    match (evidence, reading.gets) {
        (Refuted::PairTwice(..), _) => [PAIR_TWICE, "", ""],
        (Refuted::NoWriter(_), _) => writer_templates(reading),
        (Refuted::StaleGet(..), Gets::Last) => [STALE_GET, "", ""],
        (Refuted::StaleGet(..), Gets::Any) => [BEFORE_ALONE, OLDER, ""],
        (Refuted::MissedWrite(..), _) => [BEFORE_ALONE, ABSENT, ""],
        (Refuted::StaleSwap(..), _) => [STALE_SWAP, first_because(first, second), OVERWRITTEN],
        // Its reasons are those of its document.
        (Refuted::RuledOut(_), _) => ["", "", ""],
    }
}

/// Evidence of one call or two, with these calls; if it is of one, that is both of them.
#[derive(Clone, Copy)]
pub struct EvidentCalls<'h> {
    evidence: Refuted,
    first: Call<'h>,
    second: Call<'h>,
}

/// Returns the evidence with its calls. Returns `None` if there is none, if the history doesn't have its calls, and for
/// `Refuted::RuledOut`.
pub fn evident_calls(history: &History, evidence: Option<Refuted>) -> Option<EvidentCalls<'_>> {
    let evidence = match evidence {
        None | Some(Refuted::RuledOut(_)) => return None,
        Some(evidence) => evidence,
    };
    let calls = EvidenceCalls::of(evidence);
    let second = calls.second.unwrap_or(calls.first);
    match (call_of(history, calls.first), call_of(history, second)) {
        (Some(first), Some(second)) => Some(EvidentCalls {
            evidence,
            first,
            second,
        }),
        _ => None,
    }
}

/// Adds why no order can have what the evidence names.
pub fn add_evidence(draft: &mut Draft<'_>, evident: &EvidentCalls<'_>, reading: Reading) {
    let first = &evident.first;
    let second = &evident.second;
    let templates = evidence_templates(evident.evidence, &first.record, &second.record, reading);
    draft.say(
        &templates,
        &[
            draft.call(&first.record),
            draft.call(&second.record),
            Id(first.id),
            Id(second.id),
            Number(first.shard as u64),
            unreported_kind(reading.conflicts_checked()),
        ],
    );
    draft.end_paragraph();
}
