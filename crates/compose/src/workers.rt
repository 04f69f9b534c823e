ghost use Rattle.std.specs.Prelude.{◌≡◌, ◌<◌, ◌≤◌, IfErr, IfOk, length, true};
ghost use Rattle.events.specs.Events.{documents_of};
ghost use Rattle.check_pool.specs.Answers.{AreNumbered};
ghost use Rattle.covers.specs.Answered.{AreAnswersFor};
ghost use Rattle.compose.specs.aids.Worked.{AreJobsFor, IsJobOf, IsWorkersFault};

use check_pool::{DocJob, Gate, PoolFault, answers};
use doc_check::DocAnswer;
use doc_register::Conflicts;
use events::{Front, Seen};
use std::alloc::Global;
use std::sync::Wait;
use std::thread::Threads;
use version_pair::NoMemory;

// Returns the search of a document of the history, as a job.
fn job_of(
    history: &Front<'_>,
    doc: usize,
    seen: Seen,
    conflicts: Conflicts,
) -> Result<DocJob, NoMemory>
    requires { doc < length (documents_of history.now) }
    ensures number { IfOk result (λ job. job.doc ≡ doc) }
    ensures job { IfOk result (IsJobOf conflicts history.now doc) }
{
    Ok(DocJob {
        doc,
        id: history.doc(doc).copy()?,
        recs: history.records(doc)?,
        seen,
        conflicts,
    })
}

// Returns the search of each document, in their order, as jobs.
fn jobs_of(
    alloc: Global,
    history: &Front<'_>,
    conflicts: Conflicts,
) -> Result<Vec<DocJob>, NoMemory>
    ensures numbered { IfOk result (λ jobs. AreNumbered jobs.items) }
    ensures jobs { IfOk result (λ jobs. AreJobsFor conflicts history.now (documents_of history.now) jobs.items) }
{
    let seen = history.seen();
    let mut jobs = Vec::with_capacity(alloc, history.docs())?;
    for doc in 0..history.docs() {
        jobs.push(job_of(history, doc, seen, conflicts)?)?;
    }
    Ok(jobs)
}

/// Returns what the search finds for the documents, in their order, searched by workers.
pub fn answers_of_workers<R: Threads + Wait + Sync, G: Gate + Sync>(
    rt: &R,
    alloc: Global,
    history: &Front<'_>,
    workers: usize,
    conflicts: Conflicts,
    gate: &G,
) -> Result<Vec<DocAnswer>, PoolFault>
    requires some { 0 < workers }
    requires few { workers ≤ 16 }
    ensures ok { IfOk result (λ answers. AreAnswersFor conflicts history.now true (documents_of history.now) answers.items) }
    ensures fault { IfErr result (IsWorkersFault history.now) }
{
    let Ok(jobs) = jobs_of(alloc, history, conflicts) else {
        return Err(PoolFault::NoMemory);
    };
    answers(rt, alloc, jobs, workers, gate)
}
