ghost use Rattle.std.specs.Prelude.{IfOk, IfSome};
ghost use Rattle.evidence.specs.Evidence.{IsDocumentRuledOut};

use crate::calls::{EvidenceCalls, end_of, version_shown};
use crate::cause::{Cause, End, Misfit, Unmet};
use crate::course::Course;
use crate::in_text::{is_twin, record_in_text};
use crate::known_versions::KnownVersions;
use crate::subject::Unexplained;
use crate::unhelpful::{Need, Unhelpful, unhelpful_for};
use doc_register::{Conflicts, Op, Reply};
use events::Rec;
use evidence::{Contradiction, Refuted, Rulings, Stage, TableEvent};
use readings::{WayBack, Writes, attempts_of};
use std::alloc::Global;
use version_pair::{NoMemory, Pair};

// The greatest number of calls of a chain that are shown, and the greatest number of writes without a reply.
const MOST_LINKS: usize = 6;

const MOST_LOST: usize = 5;

// The greatest number of states that are shown.
const MOST_STATES: usize = 4;

/// An answered call of a chain. It brought the document from one stage to another one, at least.
#[derive(Clone, Copy)]
pub struct ReasonLink {
    pub record: Rec,
    pub from: Stage,
    pub to: Stage,
}

/// A write of which no reply says whether it was performed, and why it doesn't help.
#[derive(Clone, Copy)]
pub struct Unreported {
    pub write: Rec,
    pub why: Unhelpful,
}

/// What a document may be between two events.
#[derive(Clone, Copy)]
pub struct PossibleState {
    pub stage: Stage,
    pub exists: bool,
}

/// A reply after which no order explains the rest of a document's calls, whatever happened before.
#[derive(Drop)]
pub struct Beginning {
    /// The call that is answered.
    pub reply: Rec,
    /// The first few of the states that the document can have then.
    pub states: Vec<PossibleState>,
    /// The number of all of them.
    pub state_count: usize,
}

/// Why no order explains a document, whatever became of its calls without a reply.
#[derive(Drop)]
pub struct Reason {
    /// The call that has no place in any order.
    pub stop: Rec,
    /// Why it has none.
    pub cause: Cause,
    /// How far the document had come when that call was made.
    pub stage: Stage,
    /// What the document can have been where the calls begin that are enough; `None` if all calls are looked at.
    pub beginning: Option<Beginning>,
    /// The calls that brought it there, the first one first.
    pub links: Vec<ReasonLink>,
    /// Whether earlier ones of them are left out.
    pub is_cut: bool,
    /// The version that is mentioned beside these, and the first call that shows it.
    pub last: Option<Pair>,
    pub shower: Option<Rec>,
    /// The first few of the writes of which no reply says whether they were performed. What a reading adds is not
    /// among them.
    pub unreported: Vec<Unreported>,
    /// The number of all of them.
    pub unreported_count: usize,
    /// Whether the evidence already explains the call that has no place.
    pub is_reported: bool,
    /// The call that is answered last of those that are enough.
    pub last_answered: Rec,
}

impl Reason {
    /// Returns the call that shows the version that nobody can have written; `None` if that is not the cause.
    pub fn unwritten(&self) -> Option<Rec> {
        match self.cause {
            Cause::Unwritten(_) => self.shower,
            _ => None,
        }
    }

    /// Returns whether it names a call or a reply that stands after the event.
    pub fn names_after(&self, event: usize) -> bool {
        let mut last = end_of(&self.stop).max(end_of(&self.last_answered));
        if let Some(shower) = &self.shower {
            last = last.max(end_of(shower));
        }
        for link in self.links.iter() {
            last = last.max(end_of(&link.record));
        }
        for unreported in self.unreported.iter() {
            last = last.max(unreported.write.call_at);
        }
        last > event
    }

    /// Returns it with its calls as the text has them.
    pub fn in_text(self, back: &WayBack<'_>) -> Reason {
        let mut reason = self;
        reason.stop = record_in_text(back, &reason.stop);
        reason.last_answered = record_in_text(back, &reason.last_answered);
        if let Some(shower) = reason.shower {
            reason.shower = Some(record_in_text(back, &shower));
        }
        if let Some(beginning) = &mut reason.beginning {
            beginning.reply = record_in_text(back, &beginning.reply);
        }
        for link in reason.links.iter_mut() {
            link.record = record_in_text(back, &link.record);
        }
        for unreported in reason.unreported.iter_mut() {
            unreported.write = record_in_text(back, &unreported.write);
        }
        reason
    }

    /// Returns whether some indeterminate write could have given the call a place.
    pub fn wants_write(&self) -> bool {
        !matches!(
            self.cause,
            Cause::NeverRefused | Cause::Passed(_) | Cause::Unmet(_)
        )
    }
}

// What is known of a document that is ruled out.
#[derive(Drop)]
struct Known<'a> {
    records: &'a [Rec],
    conflicts: Conflicts,
    writes: Writes,
    versions: KnownVersions,
    course: Course,
    // The call after whose reply nothing is left that it may be.
    last_answered: Rec,
}

// Whether the cause is about what the document had reached when the call was made.
fn is_bound(known: &Known<'_>, misfit: Misfit) -> bool {
    match misfit.cause {
        Cause::StillThere(_)
        | Cause::NotThere
        | Cause::There
        | Cause::Passed(_)
        | Cause::Unmet(Unmet::Changed) => true,
        Cause::WasThere(pair) | Cause::WasAbsent(pair) => {
            let reached = known.course.reached_before(misfit.call.call_at);
            let last = known.versions.last_below(pair);
            known.versions.stage(reached) == Stage::Behind(last)
        }
        Cause::NeverRefused | Cause::Unmet(_) | Cause::Unwritten(_) => false,
    }
}

// Returns the version that the cause mentions beside what the document had reached.
fn version_spoken_of(versions: &KnownVersions, misfit: Misfit) -> Option<Pair> {
    match misfit.cause {
        Cause::WasThere(pair) | Cause::WasAbsent(pair) => versions.last_below(pair),
        Cause::Unmet(Unmet::Replaced(pair)) | Cause::Unwritten(pair) => Some(pair),
        Cause::Unmet(Unmet::Deleted) => misfit.call.op.condition(),
        _ => None,
    }
}

/// Returns whether the reply to a call shows that the document had the version: the call found it, took it, or
/// was performed on the condition that the document has it.
pub fn shows(record: &Rec, pair: Pair) -> bool {
    version_shown(record) == Some(pair)
        || record.pair_taken().is_some() && record.op.condition() == Some(pair)
}

// Returns the first call whose reply shows that the document had the version.
fn shower_of(records: &[Rec], pair: Pair) -> Option<Rec> {
    for record in records {
        if shows(record, pair) {
            return Some(*record);
        }
    }
    None
}

// The calls that lead to the call that has no place, the first one first.
#[derive(Drop)]
struct Chain {
    links: Vec<ReasonLink>,
    // Whether earlier ones are left out.
    is_cut: bool,
}

// Returns the chain that leads to the call that has no place, if the cause is about what the document had reached; else an
// empty one. It begins with a call whose reply shows the version, or with one that was made before the document was
// written.
fn chain_to(alloc: Global, known: &Known<'_>, misfit: Misfit) -> Result<Chain, NoMemory> {
    let Known {
        versions,
        course,
        ..
    } = known;
    let mut links = Vec::new(alloc);
    let mut next = if is_bound(known, misfit) {
        course.raised_before(misfit.call.call_at)
    } else {
        None
    };
    for _ in 0..MOST_LINKS {
        let Some(raise) = next else {
            break;
        };
        links.push(ReasonLink {
            record: raise.call,
            from: versions.stage(course.reached_before(raise.call.call_at)),
            to: versions.stage(raise.reached),
        })?;
        next = if version_shown(&raise.call).is_some() {
            None
        } else {
            course.raised_before(raise.call.call_at)
        };
    }
    links.reverse();
    Ok(Chain {
        links,
        is_cut: next.is_some(),
    })
}

// Whether the call is a write of which no reply says whether it was performed, neither one that a reading adds nor the
// call that has no place.
fn is_unreported(known: &Known<'_>, misfit: Misfit, call: &Rec) -> bool {
    let is_silent = match call.heard {
        None => call.op != Op::Get,
        Some((_, Reply::Conflict)) => known.conflicts == Conflicts::Maybe,
        Some(_) => false,
    };
    is_silent && !is_twin(known.writes, call.no) && call.no != misfit.call.no
}

// Adds the call if it is a write of which no reply says whether it was performed, and there is room.
fn add_unreported(
    unreported: &mut Vec<Unreported>,
    known: &Known<'_>,
    misfit: Misfit,
    need: &Need<'_>,
    call: &Rec,
) -> Result<(), NoMemory> {
    if unreported.len() < MOST_LOST && is_unreported(known, misfit, call) {
        let reached = known.course.reached_before(call.call_at);
        unreported.push(Unreported {
            write: *call,
            why: unhelpful_for(need, call, reached),
        })?;
    }
    Ok(())
}

// Returns the first few of the writes of which no reply says whether they were performed. Those that were made
// last before the reply to the call that has no place come first.
fn unreported_writes(
    alloc: Global,
    known: &Known<'_>,
    misfit: Misfit,
) -> Result<Vec<Unreported>, NoMemory> {
    let need = Need {
        versions: &known.versions,
        cause: misfit.cause,
        reply_at: end_of(&misfit.call),
        ends_at: end_of(&known.last_answered),
        floor: known.course.reached_before(misfit.call.call_at),
    };
    let early = known
        .records
        .partition_point(|record| record.call_at < need.reply_at);
    let mut unreported = Vec::new(alloc);
    for record in known.records[..early].iter().rev() {
        add_unreported(&mut unreported, known, misfit, &need, record)?;
    }
    for record in known.records[early..].iter() {
        add_unreported(&mut unreported, known, misfit, &need, record)?;
    }
    Ok(unreported)
}

// Whether the evidence is of another kind than `RuledOut` and names the call.
fn is_reported(evidence: Option<Refuted>, no: u64) -> bool {
    match evidence {
        None | Some(Refuted::RuledOut(_)) => false,
        Some(evidence) => EvidenceCalls::of(evidence).contain(no),
    }
}

// Returns the call that has no place, by the tables up to the reply after which nothing is left.
fn misfit_in(
    versions: &KnownVersions,
    records: &[Rec],
    contradiction: &Contradiction,
) -> Option<Misfit> {
    for table in contradiction.tables.iter() {
        if let (TableEvent::Made(number), true) = (table.event, table.rows.is_empty()) {
            let call = *records.get(number)?;
            let pair = version_shown(&call)?;
            let cause = Cause::Passed(pair);
            return Some(Misfit { call, cause });
        }
    }
    let last = contradiction.tables.last()?;
    let call = records.get(contradiction.number)?;
    let end = End {
        versions,
        records,
        rows: &last.waiting,
    };
    end.misfit(call)
}

// What the document can have been where the tables begin, if they begin after a reply.
fn beginning_of(
    alloc: Global,
    versions: &KnownVersions,
    records: &[Rec],
    contradiction: &Contradiction,
) -> Result<Option<Beginning>, NoMemory> {
    let Some(first) = contradiction.tables.first() else {
        return Ok(None);
    };
    let TableEvent::Start(Some(number)) = first.event else {
        return Ok(None);
    };
    let Some(reply) = records.get(number).copied() else {
        return Ok(None);
    };
    let mut states = Vec::new(alloc);
    for row in first.rows.iter().take(MOST_STATES) {
        states.push(PossibleState {
            stage: versions.stage(row.least),
            exists: row.exists,
        })?;
    }
    Ok(Some(Beginning {
        reply,
        states,
        state_count: first.rows.len(),
    }))
}

// Returns the reason for a document of which this is known, and of which this call has no place.
fn reason_at(
    alloc: Global,
    evidence: Option<Refuted>,
    known: &Known<'_>,
    misfit: Misfit,
    beginning: Option<Beginning>,
) -> Result<Reason, NoMemory> {
    let last = version_spoken_of(&known.versions, misfit);
    let shower = match last {
        Some(pair) => shower_of(known.records, pair),
        None => None,
    };
    let Chain { links, is_cut } = chain_to(alloc, known, misfit)?;
    let reached = known.course.reached_before(misfit.call.call_at);
    Ok(Reason {
        stop: misfit.call,
        cause: misfit.cause,
        stage: known.versions.stage(reached),
        beginning,
        links,
        is_cut,
        last,
        shower,
        unreported: unreported_writes(alloc, known, misfit)?,
        unreported_count: known
            .records
            .iter()
            .filter(|call| is_unreported(known, misfit, call))
            .count(),
        is_reported: is_reported(evidence, misfit.call.no),
        last_answered: known.last_answered,
    })
}

/// What a reason is made of.
#[derive(Clone, Copy)]
pub struct RuledOutRecords<'a> {
    /// The calls of a document of what was judged.
    pub records: &'a [Rec],
    pub conflicts: Conflicts,
    /// How often a write may have been performed.
    pub writes: Writes,
    /// The evidence that was found, if some was.
    pub evidence: Option<Refuted>,
}

/// Returns why no order explains the document, by the tables along its last events that show it: a guess for people.
/// `None` if none is found.
pub fn found_reason(
    alloc: Global,
    document: RuledOutRecords<'_>,
    contradiction: &Contradiction,
) -> Result<Option<Reason>, NoMemory> {
    let records = document.records;
    let Some(last_answered) = records.get(contradiction.number).copied() else {
        return Ok(None);
    };
    let known = Known {
        records,
        conflicts: document.conflicts,
        writes: document.writes,
        versions: KnownVersions::of(alloc, records)?,
        course: Course::of(alloc, records, contradiction)?,
        last_answered,
    };
    let Some(misfit) = misfit_in(&known.versions, records, contradiction) else {
        return Ok(None);
    };
    let beginning = beginning_of(alloc, &known.versions, records, contradiction)?;
    let reason = reason_at(alloc, document.evidence, &known, misfit, beginning)?;
    Ok(Some(reason))
}

/// Returns why no order explains the document of this number, with these records; `None` if it isn't ruled
/// out. Both are of what was judged. `writes` states how often a write may have been performed.
///
/// The reason is a guess for people. But if there is one, the document is ruled out (provably not
/// linearizable): that is checked again, as evidence is.
pub fn reason_of(
    alloc: Global,
    unexplained: &Unexplained<'_>,
    doc: usize,
    records: &[Rec],
    writes: Writes,
) -> Result<Option<Reason>, NoMemory>
    // If there is a reason, no order explains the document, whatever became of its calls without a reply.
    ensures { IfOk result (λ found. IfSome found (λ _. IsDocumentRuledOut unexplained.now.conflicts unexplained.now.history.now doc)) }
{
    let history = unexplained.history;
    let conflicts = unexplained.conflicts;
    if doc >= history.docs() {
        return Ok(None);
    }
    let document = RuledOutRecords {
        records,
        conflicts,
        writes,
        evidence: unexplained.evidence,
    };
    let rulings = Rulings::of(alloc, history, conflicts, attempts_of(writes))?;
    let mut allowance = rulings.allowance();
    match rulings.contradiction(alloc, doc, &mut allowance)? {
        Some(contradiction) => found_reason(alloc, document, &contradiction),
        None => Ok(None),
    }
}
