ghost use Rattle.std.specs.Prelude.{◌<◌, IfOk, IfSome, OnOk, length};
ghost use Rattle.events.specs.Events.{documents_of};
ghost use Rattle.evidence.specs.Evidence.{AreDocuments, Holds, IsOfCalls, IsReported};

use crate::case::Case;
use events::History;
use evidence::{Attempts, Refuted, RulingOut, find_evidence};
use std::alloc::Global;
use version_pair::NoMemory;

/// Returns evidence that holds in the case's history, with conflicts read as the case reads them. It is of
/// the first kind that holds, in the order of `Refuted`, and of that kind it has the least call numbers,
/// compared by the first number first. Documents that are provably not linearizable are not searched for.
///
/// Which evidence is found, and that some is found if a kind holds, is tested, not proved: `None` says
/// nothing.
pub fn refute(alloc: Global, case: &Case) -> Result<Option<Refuted>, NoMemory>
    // Evidence that is found holds in the history.
    ensures holds { IfOk result (λ found. IfSome found (Holds case.now.conflicts case.now.events)) }
    // It is of one or two calls.
    ensures of_calls { IfOk result (λ found. IfSome found IsOfCalls) }
{
    find_evidence(alloc, case.history(), case.conflicts())
}

// Adds the number of a document of the history.
fn push_document(docs: &mut Vec<usize>, history: &History, doc: usize) -> Result<(), NoMemory>
    requires { doc < length (documents_of history.now) }
    ensures { OnOk result (AreDocuments history.now docs.old.items → AreDocuments history.now docs.new.items) }
{
    docs.push(doc)?;
    Ok(())
}

// Returns the numbers of all documents of the history.
fn all_documents(alloc: Global, history: &History) -> Result<Vec<usize>, NoMemory>
    ensures { IfOk result (λ docs. AreDocuments history.now docs.items) }
{
    let mut docs = Vec::new(alloc);
    for doc in 0..history.docs() {
        push_document(&mut docs, history, doc)?;
    }
    Ok(docs)
}

// Returns those of the numbers that are of documents of the history.
fn documents_among(
    alloc: Global,
    history: &History,
    numbers: &[usize],
) -> Result<Vec<usize>, NoMemory>
    ensures { IfOk result (λ docs. AreDocuments history.now docs.items) }
{
    let mut docs = Vec::new(alloc);
    for i in 0..numbers.len() {
        let doc = numbers[i];
        if doc < history.docs() {
            push_document(&mut docs, history, doc)?;
        }
    }
    Ok(docs)
}

/// Returns evidence that a document of the case's history is provably not linearizable (ruled out), with
/// conflicts read as the case reads them: the least call at which one is found to be. `attempts` states how often a
/// lost write may have been performed.
///
/// Only the documents for which no order was found are checked; if each has one by itself, so that only the pairs of the
/// shard fail, those that need more numbers than are free, or all if these aren't known. `None` says nothing.
pub fn rule_out(alloc: Global, case: &Case, attempts: Attempts) -> Result<Option<Refuted>, NoMemory>
    // Evidence that is found holds in the history.
    ensures holds { IfOk result (λ found. IfSome found (Holds case.now.conflicts case.now.events)) }
    // It may be reported if that a document is ruled out is asked for.
    ensures reportable { IfOk result (λ found. IfSome found (IsReported RulingOut.On)) }
{
    let history = case.history();
    let conflicts = case.conflicts();
    let unordered = case.unordered();
    if !unordered.is_empty() {
        return evidence::rule_out(alloc, history, conflicts, attempts, unordered);
    }
    let docs = if case.scarce().is_empty() {
        all_documents(alloc, history)?
    } else {
        documents_among(alloc, history, case.scarce())?
    };
    evidence::rule_out(alloc, history, conflicts, attempts, &docs)
}
