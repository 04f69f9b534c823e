//! Schedules of disturbances, and a replication group that is disturbed by one while clients poll it.
//!
//! ```text
//! let mut core = DisturbedCore::new(alloc, 3, Fault::None, 1, Disturbance::Storm, 200)?;
//! let history = play_in_turns(alloc, &plan, &mut core, 1_000)?;
//! let group = DisturbedGroup::new(alloc, 3, Fault::None, 1, Disturbance::Storm, 200)?;
//! let pens = run_clients(rt, alloc, &plan, &group, &recorder, pens, 1_000)?;
//! ```
#![tactic(auto)]

mod counted_core;
mod disturbance;
mod disturbed_core;
mod disturbed_group;
mod disturbing;
mod incident;
mod schedule;

pub use disturbance::Disturbance;
pub use disturbed_core::DisturbedCore;
pub use disturbed_group::DisturbedGroup;
pub use disturbing::{disturb, disturbed_poll_step};
pub use incident::Incident;
pub use schedule::{POLLS_APART, Schedule};
