//! Runs of a replication group, tried seed by seed until one is found for whose history no order is found.
//!
//! ```text
//! let seeds = Seeds::new(1, 1_000).ok_or("the least first")?;
//! let status = search_stream(rt, alloc, seeds, &setting, Disturbance::Storm, &watch, &mut writer)?;
//! ```
#![tactic(auto)]

mod found_run;
mod search;
mod watch;

pub use found_run::FoundRun;
pub use recorded_runs::Seeds;
pub use search::{first_found, search_stream};
pub use watch::Watch;
