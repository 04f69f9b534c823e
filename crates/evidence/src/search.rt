//! The search for evidence. What is found is checked again before it is returned, so that only evidence that
//! holds is returned.

mod calls_with_pairs;
mod lost_updates;
mod pairs_taken_twice;
mod stale_reads;
mod unwritten_reads;

ghost use Rattle.std.specs.Prelude.{IfOk, IfSome};
ghost use Rattle.evidence.specs.Evidence.{AreDocuments, Holds, IsOfCalls, IsReported};

use crate::holding::refutes;
use crate::refuted::Refuted;
use crate::ruled_out_calls::least_ruled_out;
use crate::ruling_out::RulingOut;
use calls_with_pairs::CallsWithPairs;
use deciding::Attempts;
use doc_register::Conflicts;
use events::History;
use lost_updates::least_stale_swap;
use pairs_taken_twice::least_pair_twice;
use stale_reads::least_stale_get;
use std::alloc::Global;
use unwritten_reads::least_without_writer;
use version_pair::NoMemory;

// The evidence, if it holds.
fn confirm(
    alloc: Global,
    history: &History,
    found: Option<Refuted>,
    conflicts: Conflicts,
) -> Result<Option<Refuted>, NoMemory>
    requires { IfSome found IsOfCalls }
    ensures holds { IfOk result (λ found. IfSome found (Holds conflicts history.now)) }
    ensures of_calls { IfOk result (λ found. IfSome found IsOfCalls) }
{
    match found {
        Some(evidence) => {
            if refutes(alloc, history, &evidence, conflicts)? {
                Ok(Some(evidence))
            } else {
                Ok(None)
            }
        }
        None => Ok(None),
    }
}

/// Returns evidence that holds in the history, in this reading of conflicts. It is of the first kind that
/// holds of those searched for, in the order of `Refuted`, and of that kind it has the least call numbers,
/// compared by the first number first. Neither gets that missed a write nor documents that are provably not
/// linearizable are searched for.
///
/// Which evidence is found, and that some is found if a kind holds, is tested, not proved: `None` says
/// nothing.
pub fn find_evidence(
    alloc: Global,
    history: &History,
    conflicts: Conflicts,
) -> Result<Option<Refuted>, NoMemory>
    // Evidence that is found holds in the history.
    ensures holds { IfOk result (λ found. IfSome found (Holds conflicts history.now)) }
    // It is of one or two calls.
    ensures of_calls { IfOk result (λ found. IfSome found IsOfCalls) }
{
    let calls = CallsWithPairs::of(alloc, history)?;
    let twice = least_pair_twice(alloc, &calls.writes)?;
    if let Some(evidence) = confirm(alloc, history, twice, conflicts)? {
        return Ok(Some(evidence));
    }
    let unwritten = least_without_writer(alloc, history, &calls.gets, conflicts)?;
    if let Some(evidence) = confirm(alloc, history, unwritten, conflicts)? {
        return Ok(Some(evidence));
    }
    let stale = least_stale_get(&calls.gets, &calls.writes);
    if let Some(evidence) = confirm(alloc, history, stale, conflicts)? {
        return Ok(Some(evidence));
    }
    let swap = least_stale_swap(alloc, &calls.writes)?;
    confirm(alloc, history, swap, conflicts)
}

/// Returns evidence that a document of the history is provably not linearizable, in this reading of
/// conflicts: the least call at which one is found to be. Only the documents of these numbers are checked. `attempts`
/// states how often a lost write may have been performed. `None` says nothing.
pub fn rule_out(
    alloc: Global,
    history: &History,
    conflicts: Conflicts,
    attempts: Attempts,
    docs: &[usize],
) -> Result<Option<Refuted>, NoMemory>
    // The numbers are those of documents of the history.
    requires { AreDocuments history.now docs.now }
    // Evidence that is found holds in the history.
    ensures holds { IfOk result (λ found. IfSome found (Holds conflicts history.now)) }
    // It may be reported if that a document is ruled out is asked for.
    ensures reportable { IfOk result (λ found. IfSome found (IsReported RulingOut.On)) }
{
    // Calling `len` makes it known from here on that this is a history.
    let _ = history.len();
    match least_ruled_out(alloc, history, conflicts, attempts, docs)? {
        Some(call) => Ok(Some(Refuted::RuledOut(call))),
        None => Ok(None),
    }
}
