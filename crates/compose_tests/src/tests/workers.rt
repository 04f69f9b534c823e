//! Documents that are searched by workers.

use crate::tests::cases::DOCUMENTS_INTERLEAVED;
use check_pool::Gate;
use compose::{Verdict, check};
use doc_register::Conflicts;
use history::read;
use std::alloc::Global;
use std::sync::Wait;
use std::sync::atomic::{AtomicUsize, Ordering};
use std::thread;
use std::thread::Threads;
use std::time::{Clock, Duration};

// Holds each document until two have begun, for at most 10,000 sleeps of a millisecond.
#[derive(Drop)]
struct Meeting<'a, R: Clock> {
    clock: &'a R,
    begun: AtomicUsize,
    met: AtomicUsize,
}

impl<R: Clock> Gate for Meeting<'_, R> {
    fn pass<W: Wait>(&self, _rt: &W, _doc: usize) {
        self.begun.fetch_add(1, Ordering::SeqCst);
        for _ in 0..10_000 {
            if self.begun.load(Ordering::SeqCst) == 2 {
                self.met.fetch_add(1, Ordering::SeqCst);
                return;
            }
            thread::sleep(self.clock, Duration::from_millis(1));
        }
    }
}

// Returns how many of two documents met, and the number of calls that are left out of their order.
fn met<R: Threads + Wait + Sync + Clock>(rt: &R, alloc: Global) -> Option<(usize, usize)> {
    let meeting = Meeting {
        clock: rt,
        begun: AtomicUsize::new(0),
        met: AtomicUsize::new(0),
    };
    let history = read(alloc, DOCUMENTS_INTERLEAVED.as_bytes()).ok()?;
    match check(rt, alloc, history, 2, Conflicts::Plain, &meeting).ok()? {
        Verdict::Yes(proof) => Some((meeting.met.load(Ordering::SeqCst), proof.left_out())),
        Verdict::No(_) => None,
    }
}

#[test]
fn both_documents_at_once(rt: HostRuntime) {
    assert!(rt; met(&rt, rt.alloc()) == Some((2, 0)));
}
