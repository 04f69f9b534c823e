//! Runs of clients against a replication group, which is honest or has a fault and may be disturbed, written
//! as history texts.
//!
//! ```text
//! let setting = RunSetting { seed: 1, clients: 4, calls: 200, docs: 3, copies: 3, fault: Fault::None };
//! let manner = Manner { playing: Playing::InTurns, disturbance: Disturbance::Storm };
//! let status = run_played_stream(rt, alloc, &setting, &manner, &mut writer)?;
//! ```
#![tactic(auto)]

mod manner;
mod recorded_run;
mod run_fault;
mod run_setting;
mod seeds;

pub use manner::{Manner, Playing};
pub use recorded_run::{RUN_POLLS, run_history, run_played_stream, run_stream};
pub use run_setting::RunSetting;
pub use seeds::Seeds;
