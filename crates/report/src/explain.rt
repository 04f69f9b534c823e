//! Explanations: what an answer means, for people.

ghost use Rattle.std.specs.Prelude.{◌≡◌, ◌≢◌, IfOk, IfSome};
ghost use Rattle.evidence.specs.Evidence.{Holds};
ghost use Rattle.events.specs.Order.{IsLinearizable};
ghost use Rattle.compose.specs.Certainties.{Says};
ghost use Rattle.report.specs.aids.Earlier.{IsEarlier, grounds, grounds_by};
ghost use Rattle.report.specs.Findings.{HasItsEvidence};

use crate::check_options::CheckOptions;
use crate::earlier::{Earlier, earlier_reasons};
use crate::reported::{counts_of, get_offence};
use crate::searches::Searches;
use crate::text_finding::TextFinding;
use compose::{
    Attempts, Case, Certainty, Failing, Finding, Offence, Proof, Refuted, RulingOut, certainty_of,
    rule_out,
};
use doc_register::Conflicts;
use events::History;
use readings::{Reading, UnexplainedGet, WayBack, Writes, attempts_of};
use result_lines::Reported;
use std::alloc::Global;
use story::{
    Account, EventLines, Explained, Story, Subjects, Unexplained, View, explained_story,
    failing_story,
};
use version_pair::NoMemory;

// Returns what an explanation says of a history for which no order was found: of the earlier reasons, if there are some,
// and else of the whole history.
fn unexplained_of<'h>(
    case: &'h Case,
    failing: &Failing,
    certainty: Certainty,
    earlier: &'h Option<Earlier>,
) -> Unexplained<'h>
    requires says { Says case.now.conflicts case.now.events failing.now.evidence
        failing.now.offence.call certainty }
    requires proved { certainty ≢ Certainty.Undecided → ¬ IsLinearizable case.now.conflicts case.now.events }
    requires earlier { IfSome earlier.now (IsEarlier case.now failing.now.offence) }
    ensures whole { result.whole.now ≡ case.now.events }
    ensures event { result.event ≡ failing.now.offence.event }
    ensures call { result.call ≡ failing.now.offence.call }
    ensures grounds { grounds case.now failing.now.evidence certainty earlier.now
        ≡ grounds_by result.history.now result.evidence result.certainty }
    // It says that there is no order only if there is none.
    ensures proved { result.certainty ≢ Certainty.Undecided
        → ¬ IsLinearizable case.now.conflicts case.now.events }
    ensures says { Says result.conflicts result.history.now result.evidence failing.now.offence.call
        result.certainty }
{
    let Offence {
        event,
        call,
        before_shown,
    } = failing.offence;
    let whole = Unexplained {
        history: case.history(),
        whole: case.history(),
        conflicts: case.conflicts(),
        evidence: failing.evidence,
        reported: None,
        certainty,
        event,
        call,
        before_shown,
    };
    match earlier {
        Some(earlier) => Unexplained {
            history: earlier.case.history(),
            evidence: earlier.failing.evidence,
            reported: if earlier.failing.evidence == failing.evidence {
                None
            } else {
                failing.evidence
            },
            certainty: earlier.certainty,
            ..whole
        },
        None => whole,
    }
}

// Returns the prefix that ends with the broken reply, if it provably has no order by itself, and these documents of the
// whole history have reasons that cite a later line.
fn reasons_before(
    alloc: Global,
    case: &Case,
    failing: &Failing,
    certainty: Certainty,
    subjects: &Subjects<'_>,
    writes: Writes,
) -> Result<Option<Earlier>, NoMemory>
    ensures { IfOk result (λ found. IfSome found (IsEarlier case.now failing.now.offence)) }
{
    if subjects.cite_later() {
        earlier_reasons(alloc, case, failing, certainty, writes)
    } else {
        Ok(None)
    }
}

// What an explanation of a text is made with.
#[derive(Clone, Copy)]
struct StorySources<'l, 'v, 'd, 's> {
    lines: &'l EventLines,
    view: Option<&'v View<'d>>,
    searches: Searches<'s>,
    reading: Reading,
}

impl StorySources<'_, '_, '_, '_> {
    // Returns the explanation of these documents.
    fn story(&self, alloc: Global, subjects: &Subjects<'_>) -> Result<Story, NoMemory> {
        failing_story(alloc, subjects, self.lines, &self.searches, self.view)
    }
}

// Returns what an explanation says by the text: `part` is what the text has of the history that the reasons are about.
// A get that nothing explains is evidence if there is no other.
fn read_in_text<'h>(
    judged: &Unexplained<'_>,
    back: &WayBack<'h>,
    part: &'h History,
    get: Option<UnexplainedGet>,
) -> Unexplained<'h> {
    let call = back.number(judged.call);
    let in_text = Unexplained {
        history: part,
        whole: back.text,
        conflicts: judged.conflicts,
        evidence: evidence_in_text(judged.evidence, back),
        reported: evidence_in_text(judged.reported, back),
        certainty: judged.certainty,
        event: back.reply(judged.event, call),
        call,
        before_shown: judged.before_shown,
    };
    match (in_text.evidence, get) {
        (None, Some(get)) => Unexplained {
            evidence: Some(get.evidence),
            certainty: Certainty::Evident,
            ..in_text
        },
        _ => in_text,
    }
}

// Returns the evidence, if there is some, by the calls of the text.
fn evidence_in_text(evidence: Option<Refuted>, back: &WayBack<'_>) -> Option<Refuted> {
    match evidence {
        Some(evidence) => Some(back.evidence(evidence)),
        None => None,
    }
}

// Returns what an explanation is made from: what is said of the history that was judged, and the same by the text.
fn account_of<'h>(
    found: &'h TextFinding,
    judged: Unexplained<'h>,
    part: &'h History,
    reading: Reading,
) -> Account<'h> {
    let back = WayBack {
        text: found.history(),
        writes: reading.writes,
    };
    Account {
        in_text: read_in_text(&judged, &back, part, found.get),
        judged,
        reading,
    }
}

// Returns the explanation by the earlier reasons.
fn story_before(
    alloc: Global,
    found: &TextFinding,
    before: Unexplained<'_>,
    sources: &StorySources<'_, '_, '_, '_>,
) -> Result<Story, NoMemory> {
    let back = WayBack {
        text: found.history(),
        writes: sources.reading.writes,
    };
    let end = back.reply(before.event, back.number(before.call));
    // A history has far fewer events than the greatest number.
    let part = match &found.text {
        Some(read) => Some(read.history.prefix(end.saturating_add(1))?),
        None => None,
    };
    let history = match &part {
        Some(part) => part,
        None => before.history,
    };
    let account = account_of(found, before, history, sources.reading);
    sources.story(alloc, &Subjects::of(alloc, &account)?)
}

// Returns the explanation of a text for which no order was found.
fn story_of_case(
    alloc: Global,
    found: &TextFinding,
    case: &Case,
    failing: &Failing,
    sources: &StorySources<'_, '_, '_, '_>,
) -> Result<Story, NoMemory>
    requires { IfSome failing.now.evidence (Holds case.now.conflicts case.now.events) }
{
    let writes = sources.reading.writes;
    let certainty = certainty_of(alloc, case, failing, attempts_of(writes))?;
    let none = None;
    let whole = unexplained_of(case, failing, certainty, &none);
    let account = account_of(found, whole, found.history(), sources.reading);
    let subjects = Subjects::of(alloc, &account)?;
    if found.get.is_some() {
        return sources.story(alloc, &subjects);
    }
    let earlier = reasons_before(alloc, case, failing, certainty, &subjects, writes)?;
    if earlier.is_none() {
        return sources.story(alloc, &subjects);
    }
    let before = unexplained_of(case, failing, certainty, &earlier);
    story_before(alloc, found, before, sources)
}

// Returns the number in what is judged of the call that has this number in the text.
fn judged_number(text: &History, writes: Writes, no: u64) -> u64 {
    match (writes, text.call(no)) {
        (Writes::Once, _) => no,
        (Writes::Repeated, Some(place)) => (place as u64).saturating_mul(2),
        (Writes::Repeated, None) => 0,
    }
}

// Returns the explanation of a text in which nothing explains a get, though an order explains what was judged.
fn story_of_get(
    alloc: Global,
    found: &TextFinding,
    get: UnexplainedGet,
    conflicts: Conflicts,
    sources: &StorySources<'_, '_, '_, '_>,
) -> Result<Story, NoMemory> {
    let text = found.history();
    let history = found.judged();
    let offence = get_offence(text, get.evidence);
    let call = judged_number(text, sources.reading.writes, offence.call);
    let judged = Unexplained {
        history,
        whole: history,
        conflicts,
        evidence: None,
        reported: None,
        certainty: Certainty::Evident,
        event: history.ending(call).unwrap_or(0),
        call,
        before_shown: offence.before_shown,
    };
    let account = account_of(found, judged, text, sources.reading);
    sources.story(alloc, &Subjects::of(alloc, &account)?)
}

// Returns the explanation of a text that an order explains.
fn story_of_order(
    alloc: Global,
    found: &TextFinding,
    proof: &Proof,
    sources: &StorySources<'_, '_, '_, '_>,
) -> Result<Story, NoMemory> {
    let text = found.history();
    let counts = counts_of(proof, text, sources.reading);
    let explained = Explained {
        docs: counts.docs,
        calls: counts.calls,
        left_out: counts.left_out,
        gets: counts.gets,
        text,
        reading: sources.reading,
        witnesses: proof.witnesses(),
    };
    explained_story(alloc, &explained, sources.lines, sources.view)
}

// Returns the line of a check of the text by the strict reading that looks also for documents that are provably not
// linearizable.
fn line_ruled_out(
    alloc: Global,
    found: &TextFinding,
    ruling_out: RulingOut,
) -> Result<String, NoMemory> {
    let reported = found.answer(Reading::strict()).reported;
    let reported = match (&found.finding, reported, ruling_out) {
        (Finding::Unexplained(case, _), Reported::No(offence), RulingOut::Off) => {
            match rule_out(alloc, case, Attempts::Once)? {
                Some(evidence) => Reported::Refuted(evidence, offence),
                None => reported,
            }
        }
        _ => reported,
    };
    reported.line(alloc)
}

/// Returns the explanation of a text of which this was found.
pub fn story_of(
    alloc: Global,
    found: &TextFinding,
    lines: &EventLines,
    view: Option<&View<'_>>,
    options: CheckOptions,
) -> Result<Story, NoMemory>
    requires { HasItsEvidence found.now.finding }
{
    let reading = options.reading;
    let line = if reading == Reading::strict() {
        line_ruled_out(alloc, found, options.ruling_out)?
    } else {
        String::new(alloc)
    };
    let searches = Searches {
        ruling_out: options.ruling_out,
        strict_line: line.as_str(),
    };
    let sources = StorySources {
        lines,
        view,
        searches,
        reading,
    };
    match (&found.finding, found.get) {
        (Finding::Explained(_), Some(get)) => {
            story_of_get(alloc, found, get, reading.conflicts_checked(), &sources)
        }
        (Finding::Explained(proof), None) => story_of_order(alloc, found, proof, &sources),
        (Finding::Unexplained(case, failing), _) => {
            story_of_case(alloc, found, case, failing, &sources)
        }
    }
}
