//! How much an answer says of a history for which no order was found.

ghost use Rattle.std.specs.Prelude.{◌≡◌, ◌≢◌, ◌<◌, ◌↔◌, ℕ, IfOk, IfSome, IsTrue, Some as Just, length};
ghost use Rattle.events.specs.Events.{IsHistory, documents_of};
ghost use Rattle.events.specs.Order.{IsLinearizable};
ghost use Rattle.evidence.specs.Evidence.{Holds};
ghost use Rattle.compose.specs.Certainties.{IsCallRuledOut, IsCallWithoutOrder, IsDocumentOf, IsWithoutOrder, Says, SaysOfCall};
ghost use Rattle.compose.specs.Laws.{IsComplete};

use crate::case::Case;
use crate::finding::Failing;
use doc_check::laws::complete_have_none;
use doc_check::{DocAnswer, answer, is_complete};
use doc_register::Conflicts;
use events::{Event, History};
use evidence::laws::evidence_refutes;
use evidence::{Attempts, Certainty, Refuted, is_document_ruled_out};
use std::alloc::Global;
use version_pair::NoMemory;

// Whether the history is complete: each write has a reply, under Maybe one other than a conflict.
fn is_complete_history(history: &History, conflicts: Conflicts) -> bool
    requires { IsHistory history.now }
    ensures { IsTrue result ↔ IsComplete conflicts history.now }
{
    let events = history.whole();
    for place in 0..events.len() {
        if let Some(call) = events.record_at(place) {
            if !call.is_complete(conflicts) {
                return false;
            }
        }
    }
    true
}

/// Returns whether the history of the case is complete: each write has a reply, under Maybe one other than a conflict.
/// Then no order of its calls explains it.
pub fn is_complete_case(case: &Case) -> bool
    // It is complete by the definition.
    ensures complete { IsTrue result ↔ IsComplete case.now.conflicts case.now.events }
    // If so it is not linearizable.
    ensures none { IsTrue result → ¬ IsLinearizable case.now.conflicts case.now.events }
{
    is_complete_history(case.history(), case.conflicts())
}

// Returns the number of the document of a call, if the history has that call.
fn document_of(history: &History, call: u64) -> Option<usize>
    requires { IsHistory history.now }
    ensures { (doc : ℕ) → result ≡ Just doc ↔ IsDocumentOf history.now call doc }
{
    match history.call(call) {
        Some(place) => match history.event(place) {
            Event::Call { id, .. } => history.doc_of(id),
            Event::Reply { .. } | Event::Lost { .. } => None,
        },
        None => None,
    }
}

// Whether each write of the document was answered, and no order of its calls explains their replies.
fn is_without_order(
    alloc: Global,
    history: &History,
    doc: usize,
    conflicts: Conflicts,
) -> Result<bool, NoMemory>
    requires { doc < length (documents_of history.now) }
    ensures { IfOk result (λ without. IsTrue without ↔ IsWithoutOrder conflicts history.now doc) }
{
    let records = history.records(doc)?;
    if !is_complete(&records, conflicts) {
        return Ok(false);
    }
    // What complete records without an order say is known from here on.
    complete_have_none();
    let id = history.doc(doc).copy()?;
    match answer(alloc, id, records, history.seen(), conflicts)? {
        DocAnswer::Found(_) => Ok(false),
        DocAnswer::NotFound(_) => Ok(true),
    }
}

// Whether the document of the call is found to be ruled out.
fn is_call_ruled_out(
    alloc: Global,
    history: &History,
    call: u64,
    conflicts: Conflicts,
    attempts: Attempts,
) -> Result<bool, NoMemory>
    requires { IsHistory history.now }
    ensures { IfOk result (λ ruled_out. IsTrue ruled_out → IsCallRuledOut conflicts history.now call) }
{
    match document_of(history, call) {
        Some(doc) => is_document_ruled_out(alloc, history, doc, conflicts, attempts),
        None => Ok(false),
    }
}

// Whether each write of the call's document was answered, and no order of its calls explains their replies.
fn is_call_without_order(
    alloc: Global,
    history: &History,
    call: u64,
    conflicts: Conflicts,
) -> Result<bool, NoMemory>
    requires { IsHistory history.now }
    ensures { IfOk result (λ without. IsTrue without ↔ IsCallWithoutOrder conflicts history.now call) }
{
    match document_of(history, call) {
        Some(doc) => is_without_order(alloc, history, doc, conflicts),
        None => Ok(false),
    }
}

// Returns how much the replies say by themselves, without evidence, at the call of the offence.
fn certainty_without_evidence(
    alloc: Global,
    history: &History,
    call: u64,
    conflicts: Conflicts,
    attempts: Attempts,
) -> Result<Certainty, NoMemory>
    requires { IsHistory history.now }
    ensures { IfOk result (SaysOfCall conflicts history.now call) }
{
    if is_call_ruled_out(alloc, history, call, conflicts, attempts)? {
        return Ok(Certainty::RuledOut);
    }
    if is_complete_history(history, conflicts) {
        return Ok(Certainty::Answered);
    }
    if is_call_without_order(alloc, history, call, conflicts)? {
        return Ok(Certainty::DocumentAnswered);
    }
    Ok(Certainty::Undecided)
}

/// Returns how much the answer says of the history of the case, by the evidence that was found, if any was,
/// and the offence. `attempts` states how often a lost write may have been performed.
#[tactic(auto, using(crate::proofs::CertaintyLemmas::said_is_proved))]
pub fn certainty_of(
    alloc: Global,
    case: &Case,
    failing: &Failing,
    attempts: Attempts,
) -> Result<Certainty, NoMemory>
    // The evidence, if there is any, holds in the history of the case.
    requires { IfSome failing.now.evidence (Holds case.now.conflicts case.now.events) }
    // The result is what the definition says with this evidence, or without any by the call of the offence.
    ensures says { IfOk result
        (Says case.now.conflicts case.now.events failing.now.evidence failing.now.offence.call) }
    // All but `Undecided` say that no order explains the history.
    ensures proved { IfOk result (λ certainty. certainty ≢ Certainty.Undecided
        → ¬ IsLinearizable case.now.conflicts case.now.events) }
{
    // What evidence and complete records say is known from here on, and that the case has a
    // history.
    evidence_refutes();
    complete_have_none();
    let history = case.history();
    match failing.evidence {
        Some(Refuted::RuledOut(_)) => Ok(Certainty::ReportedRuledOut),
        Some(_) => Ok(Certainty::Evident),
        None => {
            let call = failing.offence.call;
            certainty_without_evidence(alloc, history, call, case.conflicts(), attempts)
        }
    }
}
