ghost use Rattle.std.specs.Prelude.{◌≡◌, ◌<◌, All, IfErr, IfOk, Ok, ℕ, length, map, replicate, slice_index_or};
ghost use Rattle.std.specs.List.{enumerate_from};
ghost use Rattle.workload.specs.ClientRuns.{AreClientRuns, AreLongerByRuns};
ghost use Rattle.workload.specs.RunFaults.{HasCause, IsMisfit};
ghost use Rattle.recorder.specs.Pens.{new_pen};
ghost use Rattle.recorder.specs.Recordings.{lists_of};
ghost use Rattle.workload.specs.aids.Clients.{IsLongerByClient, RunsJob};
ghost use Rattle.workload.specs.aids.Gathering.{IsFaultOf};

use crate::client::run_client;
use crate::plan::Plan;
use crate::run_fault::RunFault;
use crate::target::Target;
use recorder::Recording;
use std::alloc::{AllocError, Global};
use std::sync::Wait;
use std::thread;
use std::thread::Threads;

// Each pen with the number of its client.
fn with_client_numbers<P: Drop>(alloc: Global, pens: Vec<P>) -> Result<Vec<(usize, P)>, AllocError>
    ensures { IfOk result (λ jobs. jobs.items ≡ enumerate_from 0 pens.items) }
{
    let mut jobs = Vec::with_capacity(alloc, pens.len())?;
    for pen in pens {
        jobs.push((jobs.len(), pen))?;
    }
    Ok(jobs)
}

// Runs the client of this number. Returns its pen.
fn run_one<R: Wait, T: Target, X: Recording>(
    rt: &R,
    alloc: Global,
    plan: &Plan,
    target: &T,
    recorder: &X,
    client: usize,
    pen: X::Pen,
    polls: u32,
) -> Result<X::Pen, RunFault>
where
    X::Pen: Drop,
    requires client { client < length plan.now }
    requires pen { X.has_pen recorder.now pen }
    ensures run { IfOk result (λ done. IsLongerByClient T.issued T.gave polls plan.now client
        (X.pen_state pen).list (X.pen_state done).list) }
    ensures keeps { IfOk result (λ done. X.has_pen recorder.now done) }
    ensures cause { IfErr result (HasCause (IsMisfit T.issued T.gave) T.all_given (X.may_rewind recorder.now)
        X.pen_state (X.has_pen recorder.now)) }
{
    let turns = plan.turns(client);
    let first = plan.first_number(client);
    run_client(rt, alloc, target, recorder, turns, first, pen, polls)
}

// The pens of all clients, in their order; or the fault of the client with the least number that met one.
fn gather_pens<P: Drop>(
    alloc: Global,
    results: Vec<Result<P, RunFault>>,
) -> Result<Vec<P>, RunFault>
    ensures ok { IfOk result (λ pens. results.items ≡ map Ok pens.items) }
    ensures fault { IfErr result (IsFaultOf results.items) }
{
    let mut pens = Vec::with_capacity(alloc, results.len())?;
    for result in results {
        if pens.push(result?).is_err() {
            return Err(RunFault::NoMemory);
        }
    }
    Ok(pens)
}

// Runs the clients of these numbers, with their pens, each on a thread of its own if one can be made.
fn run_jobs<R: Threads + Wait + Sync, T: Target + Sync, X: Recording + Sync>(
    rt: &R,
    alloc: Global,
    plan: &Plan,
    target: &T,
    recorder: &X,
    jobs: Vec<(usize, X::Pen)>,
    polls: u32,
) -> Result<Vec<Result<X::Pen, RunFault>>, AllocError>
where
    X::Pen: Send + Drop,
    requires { All (λ job. (job.0 < length plan.now) × X.has_pen recorder.now job.1) jobs.items }
    ensures count { IfOk result (λ results. length results.items ≡ length jobs.items) }
    ensures each { IfOk result (λ results. (i : ℕ) (d : _) (e : _) → i < length jobs.items
        → RunsJob T.issued T.gave polls X.pen_state (X.has_pen recorder.now)
        (HasCause (IsMisfit T.issued T.gave) T.all_given (X.may_rewind recorder.now) X.pen_state (X.has_pen recorder.now))
        plan.now (slice_index_or jobs.items i d) (slice_index_or results.items i e)) }
{
    thread::map_vec(
        rt,
        jobs,
        &|job: (usize, X::Pen)| -> Result<X::Pen, RunFault>
            requires { (job.0 < length plan.now) × X.has_pen recorder.now job.1 }
            ensures { RunsJob T.issued T.gave polls X.pen_state (X.has_pen recorder.entry.now)
                (HasCause (IsMisfit T.issued T.gave) T.all_given (X.may_rewind recorder.entry.now) X.pen_state
                (X.has_pen recorder.entry.now)) plan.entry.now job result }
        {
            let (client, pen) = job;
            run_one(rt, alloc, plan, target, recorder, client, pen, polls)
        },
    )
}

/// Runs the clients of the plan, each on a thread of its own if one can be made; otherwise they run one after
/// another. The pens are theirs, in their order, and are returned in that order.
///
/// A client takes its turns one after the other. At a turn it asks for an operation on a document, under the
/// condition of the pair last reported to it if the turn says so. Each call is recorded before it is
/// submitted, and its reply after it was polled. A call that waits after `turns` polls, or whose outcome is
/// unknown, is recorded as lost. That clients run at the same time is tested, not proved.
///
/// Errors: `NoMemory` if memory was refused while the pens were gathered; otherwise the fault of the client
/// with the least number that met one: of the recorder (`Record`) or of the target (`Target`). The threads
/// have then ended, and the pens are dropped. It waits for its threads, and returns only if each call of the
/// target and of the recorder does.
///
/// What a caller learns from `cause` depends on what its target and its recorder say of themselves. Of a
/// `Recorder`, a `ClockRecorder` and a `Group` of the crate `repl_group` it is that `NotMine` and `Ended` are
/// never returned, and of a `ClockRecorder` that `Rewound` is not either: otherwise these count pens and
/// replies of any value as their own.
pub fn run_clients<R: Threads + Wait + Sync, T: Target + Sync, X: Recording + Sync>(
    rt: &R,
    alloc: Global,
    plan: &Plan,
    target: &T,
    recorder: &X,
    pens: Vec<X::Pen>,
    turns: u32,
) -> Result<Vec<X::Pen>, RunFault>
where
    X::Pen: Send + Drop,
    // There is one pen for each client of the plan.
    requires count { length pens.items ≡ length plan.now }
    // The pens are the recorder's.
    requires pens { All (X.has_pen recorder.now) pens.items }
    // The list of each pen is longer by a run of its client; in a run the numbers of the events rise.
    ensures runs { IfOk result (λ done. AreLongerByRuns T.issued T.gave turns plan.now
        (map X.pen_state pens.items) (map X.pen_state done.items)) }
    // If the pens are new, the lists are the runs of the clients, and nothing else.
    ensures of_new_pens { map X.pen_state pens.items ≡ replicate (length plan.now) new_pen
        → IfOk result (λ done. AreClientRuns T.issued T.gave turns plan.now
        (lists_of (map X.pen_state done.items))) }
    // The pens stay the recorder's.
    ensures keeps { IfOk result (λ done. All (X.has_pen recorder.now) done.items) }
    // Each error has its cause. `NotMine` and `Ended` are never returned; `Kind` only if, by its relations,
    // the target may give to a ticket a reply that the ticket's operation doesn't have; `Full` of the
    // recorder only if a pen of its own is full; `Rewound` only by a recorder that may return it; `Full` of
    // the target only if its `all_given` holds.
    ensures cause { IfErr result (HasCause (IsMisfit T.issued T.gave) T.all_given (X.may_rewind recorder.now)
        X.pen_state (X.has_pen recorder.now)) }
{
    let jobs = with_client_numbers(alloc, pens)?;
    let results = run_jobs(rt, alloc, plan, target, recorder, jobs, turns)?;
    gather_pens(alloc, results)
}
