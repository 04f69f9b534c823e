//! The search for each document on threads of its own. If it ends well, there is one answer for each job, in
//! the order of the jobs, whichever worker made it.
//!
//! ```text
//! let answers = answers(rt, alloc, jobs, 4, &NoGate)?; // jobs: Vec<DocJob>, answers: Vec<DocAnswer>
//! ```
#![tactic(auto)]

mod collector;
mod doc_job;
mod gate;
mod message;
mod pool;
mod pool_fault;
mod worker;

pub use doc_job::DocJob;
pub use gate::{Gate, NoGate};
pub use pool::{answers, check_workers};
pub use pool_fault::PoolFault;
