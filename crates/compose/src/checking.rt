ghost use Rattle.std.specs.Prelude.{◌≡◌, ◌<◌, ◌↔◌, IfErr, IfOk, IsErrOf, false, length, true};
ghost use Rattle.events.specs.Events.{documents_of};
ghost use Rattle.events.specs.Order.{IsLinearizable, IsLegalInResponseOrder};
ghost use Rattle.compose.specs.Checked.{HandsBack, IsVerdictOn, IsYes, NamesDocument};
ghost use Rattle.compose.specs.declared.checking.CheckFault.TheVariants.{NoMemory as Unchecked, Pool as Unpooled};
ghost use Rattle.compose.specs.Verdicts.{HasNoOrderFound};
ghost use Rattle.compose.specs.aids.Searched.{AreUnordered, IsSearchOutcome};
ghost use Rattle.covers.specs.Answered.{AreAnswersFor};

use crate::case::Case;
use crate::found::answers_found;
use crate::proof::Proof;
use crate::workers::answers_of_workers;
use check_pool::{Gate, PoolFault, check_workers};
use covers::{Covering, cover_answers};
use doc_check::DocAnswer;
use doc_register::Conflicts;
use events::{Front, History};
use std::alloc::Global;
use std::sync::Wait;
use std::thread::Threads;
use thiserror::Error;
use version_pair::NoMemory;

/// Whether one order of all calls was found for a history.
#[derive(Debug, Drop)]
pub enum Verdict {
    /// An order was found.
    Yes(Proof),
    /// No order was found.
    No(Case),
}

/// The reason why a history was not checked.
#[derive(Debug, Drop, Error)]
pub enum CheckFault {
    /// The workers gave no answers, for another reason than being out of memory; with the history. Jobs have
    /// the numbers of their documents.
    #[error("{0}")]
    Pool(PoolFault, History),
    /// Memory was refused; with the history.
    #[error("no memory")]
    NoMemory(History),
}

/// Whether one order was found for events.
#[derive(Clone, Copy)]
pub enum SearchOutcome {
    /// An order was found.
    Found,
    /// No order was found. If that is because numbers are too few, the position of the reply with which they
    /// seem to become so.
    NotFound(Option<usize>),
}

/// Returns whether one order of all calls is found that explains these events, as `check_alone` searches for
/// one in a history that has no other events.
pub fn search_outcome(
    alloc: Global,
    history: &Front<'_>,
    conflicts: Conflicts,
) -> Result<SearchOutcome, NoMemory>
    ensures { IfOk result (IsSearchOutcome conflicts history.now) }
{
    // Calling `len` makes it known from here on that these are a history.
    let _ = history.len();
    let answers = answers_found(alloc, history, conflicts)?;
    match cover_answers(alloc, history, answers) {
        Ok(Covering::Found(_)) => Ok(SearchOutcome::Found),
        Ok(Covering::NotFound(why)) => Ok(SearchOutcome::NotFound(why.short_at)),
        Err(refused) => Err(refused),
    }
}

/// Returns whether one order of all calls is found that explains these events.
pub fn is_explained(
    alloc: Global,
    history: &Front<'_>,
    conflicts: Conflicts,
) -> Result<bool, NoMemory>
    // If the result is true, the events are linearizable.
    ensures found { IfOk result (λ found. found ≡ true → IsLinearizable conflicts history.now) }
    // If the result is false, no entries without a given pair cover the events. So they are not legal in
    // response order, and if they are complete they are not linearizable.
    ensures none { IfOk result (λ found. found ≡ false → HasNoOrderFound conflicts history.now) }
{
    match search_outcome(alloc, history, conflicts)? {
        SearchOutcome::Found => Ok(true),
        SearchOutcome::NotFound(_) => Ok(false),
    }
}

// Returns the numbers of the documents for which no order was found.
fn unordered_documents(alloc: Global, answers: &[DocAnswer]) -> Result<Vec<usize>, NoMemory>
    ensures { IfOk result (λ docs. AreUnordered answers.now (length answers.now) docs.items) }
{
    let mut docs = Vec::new(alloc);
    for doc in 0..answers.len() {
        match &answers[doc] {
            DocAnswer::Found(_) => {}
            DocAnswer::NotFound(_) => docs.push(doc)?,
        }
    }
    Ok(docs)
}

// Returns the verdict on a history, by the answers of the search for its documents.
fn verdict_of(
    alloc: Global,
    history: History,
    answers: Vec<DocAnswer>,
    conflicts: Conflicts,
) -> Result<Verdict, CheckFault>
    requires { AreAnswersFor conflicts history true (documents_of history) answers.items }
    ensures verdict { IfOk result (IsVerdictOn conflicts history) }
    ensures accepts { IfOk result (λ verdict. IsLegalInResponseOrder history → IsYes verdict) }
    ensures back { IfErr result (λ fault. fault ≡ Unchecked history) }
{
    // Calling `len` makes it known from here on that this is a history.
    let _ = history.len();
    let Ok(unordered) = unordered_documents(alloc, &answers) else {
        return Err(CheckFault::NoMemory(history));
    };
    match cover_answers(alloc, &history.whole(), answers) {
        Ok(Covering::Found(witnesses)) => {
            Ok(Verdict::Yes(Proof::of(history, witnesses, conflicts)))
        }
        Ok(Covering::NotFound(why)) => {
            Ok(Verdict::No(Case::of(history, conflicts, unordered, why)))
        }
        Err(_) => Err(CheckFault::NoMemory(history)),
    }
}

/// Searches for one order of all calls, over all documents, that explains the history. Each document is
/// searched by itself, and no pair of a shard may be taken twice. The only error is `NoMemory`, with the
/// history.
pub fn check_alone(
    alloc: Global,
    history: History,
    conflicts: Conflicts,
) -> Result<Verdict, CheckFault>
    // The verdict is on this very history: Yes with witnesses that cover it, so that it is linearizable; No
    // only if no entries without a given pair cover it, so that it is not legal in response order, and not
    // linearizable if it is complete.
    ensures verdict { IfOk result (IsVerdictOn conflicts history) }
    // A history that is legal in response order gets Yes.
    ensures accepts { IfOk result (λ verdict. IsLegalInResponseOrder history → IsYes verdict) }
    // The only error is `NoMemory`, and the history comes back.
    ensures back { IfErr result (λ fault. fault ≡ Unchecked history) }
{
    match answers_found(alloc, &history.whole(), conflicts) {
        Ok(answers) => verdict_of(alloc, history, answers, conflicts),
        Err(_) => Err(CheckFault::NoMemory(history)),
    }
}

/// Does the same as `check_alone` with at most this many workers, 1 to 16, each on a thread of its own if one
/// can be made. Each worker passes the gate before each document. With one document there is one worker.
///
/// Errors: first `NoWorkers` and `TooMany`, for the number of workers; then the faults of the workers'
/// messages, as `check_pool::answers` reports them, and `NoMemory`. Each error hands the history back. It
/// waits as `check_pool::answers` does.
pub fn check<R: Threads + Wait + Sync, G: Gate + Sync>(
    rt: &R,
    alloc: Global,
    history: History,
    workers: usize,
    conflicts: Conflicts,
    gate: &G,
) -> Result<Verdict, CheckFault>
    // The verdict is on this very history, as that of `check_alone` is, whichever worker searched which
    // document.
    ensures verdict { IfOk result (IsVerdictOn conflicts history) }
    // A history that is legal in response order gets Yes.
    ensures accepts { IfOk result (λ verdict. IsLegalInResponseOrder history → IsYes verdict) }
    ensures no_workers { IsErrOf result (Unpooled PoolFault.NoWorkers history) ↔ (workers ≡ 0) }
    ensures too_many { IsErrOf result (Unpooled PoolFault.TooMany history) ↔ (16 < workers) }
    // A document that an error names, as lost, double or a stranger, is one of the history's.
    ensures named { IfErr result (NamesDocument history) }
    // Each error hands the history back; memory that was refused in a worker is `NoMemory`.
    ensures back { IfErr result (HandsBack history) }
{
    if let Err(fault) = check_workers(workers) {
        return Err(CheckFault::Pool(fault, history));
    }
    match answers_of_workers(rt, alloc, &history.whole(), workers, conflicts, gate) {
        Ok(answers) => verdict_of(alloc, history, answers, conflicts),
        Err(PoolFault::NoMemory) => Err(CheckFault::NoMemory(history)),
        Err(fault) => Err(CheckFault::Pool(fault, history)),
    }
}
