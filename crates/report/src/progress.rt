use std::sync::atomic::{AtomicU64, Ordering};

/// What a check is doing.
#[derive(Clone, Copy, PartialEq, Eq)]
pub enum CheckStage {
    /// It hasn't begun: files are opened.
    Opening,
    /// It reads the text.
    Reading,
    /// It searches for an order of the calls.
    Searching,
    /// No order was found: it looks for evidence, and for the reply at which the search first fails.
    Narrowing,
    /// What was found is about to be written.
    Ended,
}

/// The stage that a check has reached. Other threads may read it meanwhile. If several checks share it, it is the stage
/// noted last.
#[derive(Drop)]
pub struct CheckProgress {
    // The stage by its position in `CheckStage`.
    reached: AtomicU64,
}

impl CheckProgress {
    /// Returns the progress of a check that hasn't begun.
    pub fn new() -> CheckProgress {
        CheckProgress {
            reached: AtomicU64::new(0),
        }
    }

    /// Notes that the check has reached the stage.
    pub fn reach(&self, stage: CheckStage) {
        let position = match stage {
            CheckStage::Opening => 0,
            CheckStage::Reading => 1,
            CheckStage::Searching => 2,
            CheckStage::Narrowing => 3,
            CheckStage::Ended => 4,
        };
        self.reached.store(position, Ordering::SeqCst);
    }

    /// Returns the stage that was noted last.
    pub fn stage(&self) -> CheckStage {
        match self.reached.load(Ordering::SeqCst) {
            0 => CheckStage::Opening,
            1 => CheckStage::Reading,
            2 => CheckStage::Searching,
            3 => CheckStage::Narrowing,
            _ => CheckStage::Ended,
        }
    }
}
