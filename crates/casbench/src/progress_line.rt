use crate::stopwatch::Stopwatch;
use report::{CheckProgress, CheckStage};
use std::sync::{Mutex, Wait};
use std::thread;
use std::time::{Clock, Duration};

// After how many milliseconds something is said.
const PATIENCE: u64 = 2000;

// How many milliseconds lie between two looks at the check.
const INTERVAL: u64 = 200;

// Goes to the beginning of a terminal's line, and clears it.
const CLEARED: &str = "\r\u{1b}[K";

// What stands on the line: the stage of the check, and for how many seconds it has gone on.
#[derive(Clone, Copy, PartialEq, Eq)]
struct Shown {
    stage: CheckStage,
    seconds: u64,
}

/// The line of a terminal, on standard error, that says what a check is doing.
#[derive(Drop)]
pub struct ProgressLine {
    progress: CheckProgress,
    shown: Mutex<Option<Shown>>,
}

// What is said of a check at this stage, if something is.
fn said_of(stage: CheckStage) -> Option<&'static str> {
    match stage {
        CheckStage::Reading => Some("reading"),
        CheckStage::Searching => Some("searching for an order"),
        CheckStage::Narrowing => Some("looking for the broken reply"),
        CheckStage::Opening | CheckStage::Ended => None,
    }
}

impl ProgressLine {
    /// Returns the line of a check that hasn't begun. Nothing stands on it.
    pub fn new() -> ProgressLine {
        ProgressLine {
            progress: CheckProgress::new(),
            shown: Mutex::new(None),
        }
    }

    /// Returns where the check notes what it is doing.
    pub fn progress(&self) -> &CheckProgress {
        &self.progress
    }

    // Says what the check is doing, if it has taken long enough and the line says something else. Returns whether it
    // goes on.
    fn show<R: Wait + Eprint + Clock>(&self, rt: &R, stopwatch: &Stopwatch) -> bool {
        let mut shown = self.shown.lock(rt);
        let stage = self.progress.stage();
        if let (Some(said), Some(passed)) = (said_of(stage), stopwatch.milliseconds(rt)) {
            let seconds = passed / 1000;
            let next = Some(Shown { stage, seconds });
            if passed >= PATIENCE && *shown != next {
                let _ = eprint!(rt; "{CLEARED}casbench: {said} ({seconds} s)");
                *shown = next;
            }
        }
        stage != CheckStage::Ended
    }

    /// Says what the check is doing, from two seconds after this is called until the line is ended. Standard error is
    /// a terminal. Faults of standard error are ignored.
    pub fn show_until_ended<R: Wait + Eprint + Clock>(&self, rt: &R) {
        let stopwatch = Stopwatch::start(rt);
        for _ in rt.forever() {
            thread::sleep(rt, Duration::from_millis(INTERVAL));
            if !self.show(rt, &stopwatch) {
                return;
            }
        }
    }

    /// Clears the line, on which nothing is said from now on: to be called before anything else is written.
    pub fn end<R: Eprint, T: Wait>(&self, rt: &R, threads: &T) {
        self.progress.reach(CheckStage::Ended);
        let mut shown = self.shown.lock(threads);
        if shown.is_some() {
            let _ = eprint!(rt; "{CLEARED}");
            *shown = None;
        }
    }
}
