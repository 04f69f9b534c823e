use crate::found_run::FoundRun;
use recorded_runs::Seeds;

/// An observer of a search through seeds. What it is called with is tested, not proved.
pub trait Watch {
    /// Called after each hundredth seed, with the number of hundreds of seeds that were tried, and the last
    /// seed tried.
    fn tried(&self, hundreds: u64, last: u64);

    /// Called if a run is found.
    fn found(&self, run: &FoundRun);

    /// Called if each seed was tried and no run is found.
    fn none_found(&self, seeds: Seeds);
}
