//! Clients that run at the same time.

use crate::tests::testing::{GET, alike, recorded_on_threads};
use doc_register::{Op, Reply};
use events::History;
use recorder::Recorder;
use std::alloc::Global;
use std::sync::Wait;
use std::sync::atomic::{AtomicU64, Ordering};
use std::thread;
use std::thread::Threads;
use std::time::{Clock, Duration};
use version_pair::DocId;
use workload::{Progress, Target, TargetFault, Ticket, run_clients};

// A target whose submissions return after two have begun, or after 10,000 sleeps of a millisecond; the latter
// have ticket 1.
#[derive(Drop)]
struct Meeting<'a, C: Clock> {
    clock: &'a C,
    begun: AtomicU64,
}

impl<C: Clock> Target for Meeting<'_, C> {
    ghost issued = { λ _ _ _. Unit {0} };

    ghost gave = { λ _ _. Unit {0} };

    fn submit<R: Wait>(&self, _rt: &R, _id: &DocId, _op: &Op) -> Result<Ticket, TargetFault> {
        self.begun.fetch_add(1, Ordering::SeqCst);
        for _ in 0..10_000 {
            if self.begun.load(Ordering::SeqCst) == 2 {
                return Ok(Ticket(0));
            }
            thread::sleep(self.clock, Duration::from_millis(1));
        }
        Ok(Ticket(1))
    }

    fn poll<R: Wait>(&self, _rt: &R, ticket: Ticket) -> Result<Progress, TargetFault> {
        if ticket == Ticket(0) {
            Ok(Progress::Done(Reply::Missing))
        } else {
            Ok(Progress::Unknown)
        }
    }
}

// Returns whether two calls were recorded before both replies.
fn have_met(history: &History) -> Option<bool> {
    let calls = [history.call(0), history.call(1)];
    let replies = [history.heard(0)?.1, history.heard(1)?.1];
    Some(calls == [Some(0), Some(1)] && replies == [Reply::Missing; 2])
}

// Returns whether two clients meet at their target, with the recorder of one atomic number.
fn meet_by_clock<R: Threads + Wait + Sync + Clock>(rt: &R, alloc: Global) -> Option<bool> {
    let meeting = Meeting {
        clock: rt,
        begun: AtomicU64::new(0),
    };
    let plan = alike(alloc, 2, 1, GET)?;
    have_met(&recorded_on_threads(rt, alloc, &plan, &meeting, 10)?)
}

// Returns the same with the recorder of one lock.
fn meet_by_lock<R: Threads + Wait + Sync + Clock>(rt: &R, alloc: Global) -> Option<bool> {
    let meeting = Meeting {
        clock: rt,
        begun: AtomicU64::new(0),
    };
    let plan = alike(alloc, 2, 1, GET)?;
    let (recorder, pens) = Recorder::start(alloc, plan.clients()).ok()?;
    let pens = run_clients(rt, alloc, &plan, &meeting, &recorder, pens, 10).ok()?;
    have_met(&recorder.close(pens).ok()?)
}

#[test]
fn clients_at_once(rt: HostRuntime) {
    assert!(rt; meet_by_clock(&rt, rt.alloc()) == Some(true));
    assert!(rt; meet_by_lock(&rt, rt.alloc()) == Some(true));
}
