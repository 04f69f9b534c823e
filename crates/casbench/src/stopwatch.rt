use std::time::{Clock, Instant};

/// Measures how long an answer takes.
#[derive(Drop)]
pub struct Stopwatch {
    // When it began, if the clock could be read.
    start: Option<Instant>,
}

impl Stopwatch {
    /// Begins to measure.
    pub fn start(clock: &impl Clock) -> Stopwatch {
        Stopwatch {
            start: Instant::now(clock).ok(),
        }
    }

    /// Returns how many milliseconds have passed; `None` if the clock can't be read.
    pub fn milliseconds(&self, clock: &impl Clock) -> Option<u64> {
        let passed = self.start?.elapsed(clock).ok()?;
        u64::try_from(passed.as_millis()).ok()
    }
}
