ghost use Rattle.std.specs.Prelude.{◌≡◌, ◌<◌, ◌≤◌, ◌↔◌, List, length, IfErr, IfOk, IsErrOf, IsOk};
ghost use Rattle.check_pool.specs.Answers.{AreAnswers, AreNumbered};
ghost use Rattle.check_pool.specs.Faults.{NamesJob};
ghost use Rattle.check_pool.specs.declared.doc_job.DocJob.{DocJob as Job};

use crate::collector::collect;
use crate::doc_job::DocJob;
use crate::gate::Gate;
use crate::message::Message;
use crate::pool_fault::PoolFault;
use crate::worker::work;
use crossbeam_channel::{Receiver, Sender};
use doc_check::DocAnswer;
use std::alloc::Global;
use std::sync::Wait;
use std::thread;
use std::thread::Threads;
use version_pair::NoMemory;

// The greatest number of workers.
const MOST_WORKERS: usize = 16;

// Runs the workers until each has ended. Returns `true` if one was refused memory.
fn run_workers<R: Threads + Wait + Sync, G: Gate + Sync>(
    rt: &R,
    alloc: Global,
    jobs: &[DocJob],
    workers: usize,
    gate: &G,
    sender: Sender<Message>,
) -> bool
    requires { 0 < workers }
{
    let to = &sender;
    let ends = thread::map_indices(
        rt,
        alloc,
        workers,
        &|worker| { work(rt, alloc, jobs, worker, workers, gate, to) },
    );
    match ends {
        Ok(ends) => ends.iter().any(|end| end.is_err()),
        Err(_) => true,
    }
}

// Receives all messages that were sent, until each sender is gone.
fn receive(
    rt: &impl Wait,
    receiver: &Receiver<Message>,
    messages: &mut Vec<Message>,
) -> Result<(), NoMemory> {
    for _ in rt.forever() {
        let Ok(message) = receiver.recv(rt) else {
            break;
        };
        messages.push(message)?;
    }
    Ok(())
}

/// Checks the number of workers. Errors: `NoWorkers` if there are none, `TooMany` if there are more than 16.
pub fn check_workers(workers: usize) -> Result<(), PoolFault>
    ensures ok { 0 < workers → workers ≤ 16 → IsOk result }
    ensures no_workers { IsErrOf result PoolFault.NoWorkers ↔ (workers ≡ 0) }
    ensures too_many { IsErrOf result PoolFault.TooMany ↔ (16 < workers) }
    // The error names no job.
    ensures named { IfErr result (λ fault. (jobs : List Job) → NamesJob jobs fault) }
{
    if workers == 0 {
        Err(PoolFault::NoWorkers)
    } else if workers > MOST_WORKERS {
        Err(PoolFault::TooMany)
    } else {
        Ok(())
    }
}

/// Returns the answers of the jobs, in the order of the jobs. The search is done by at most this many
/// workers, 1 to 16, each on a thread of its own if one can be made. Worker `w` takes the jobs whose number
/// leaves `w` when divided by the number of workers, which is no greater than the number of jobs; it passes
/// the gate before each. A worker searches a copy of the job's records: what comes back is compared with the
/// job itself.
///
/// Errors: first `NoWorkers` and `TooMany`; then `Stranger` and `Double`, as the messages of the workers
/// come; `NoMemory` if memory was refused, also in a worker; last `Lost`, with the least number. The jobs are
/// then dropped. It waits for its threads and their messages, and returns only if each call of the gate does.
pub fn answers<R: Threads + Wait + Sync, G: Gate + Sync>(
    rt: &R,
    alloc: Global,
    jobs: Vec<DocJob>,
    workers: usize,
    gate: &G,
) -> Result<Vec<DocAnswer>, PoolFault>
    // The number of each job is its index.
    requires { AreNumbered jobs.items }
    // There is an answer for each job, in the order of the jobs, and it is what `doc_check::answer` promises
    // for the id, the records and the reading of this job, whichever worker made it.
    ensures ok { IfOk result (λ answers. AreAnswers jobs.items answers.items) }
    ensures no_workers { IsErrOf result PoolFault.NoWorkers ↔ (workers ≡ 0) }
    ensures too_many { IsErrOf result PoolFault.TooMany ↔ (16 < workers) }
    // A job that an error names, as lost, double or a stranger, is one of these.
    ensures named { IfErr result (NamesJob jobs.items) }
    // Of no jobs there are no answers and no error, with 1 to 16 workers.
    ensures no_jobs { length jobs.items ≡ 0 → 0 < workers → workers ≤ 16 → IsOk result }
{
    if let Err(fault) = check_workers(workers) {
        return Err(fault);
    }
    if jobs.is_empty() {
        return Ok(Vec::new(alloc));
    }
    let (sender, receiver) = crossbeam_channel::unbounded(alloc)?;
    let in_worker = run_workers(rt, alloc, &jobs, workers.min(jobs.len()), gate, sender);
    let mut messages = Vec::new(alloc);
    let at_receiver = receive(rt, &receiver, &mut messages).is_err();
    collect(alloc, &jobs, messages, in_worker || at_receiver)
}
