//! A replication group: copies of a shard that serve submitted operations step by step, honestly or with a
//! fault. A `Core` takes its steps by name; a `Group` draws them from a seed and is a target of clients.
//!
//! ```text
//! let mut core = Core::new(alloc, 3, Fault::None)?;
//! let answer = core.step(Step::Submit(id, Op::Get))?; // Answer::Ticket(0)
//! core.step(Step::Serve(0))?;
//! let reply = core.result(0); // Some(Reply::Missing)
//! ```
#![tactic(auto)]

mod copies;
mod copy_flags;
mod fault;
mod group;
mod group_core;
mod held;
mod held_write;
pub mod laws;
mod machine;
mod polling;
mod replica;
mod replicas;
mod request;
mod requests;
mod step;
mod write_log;

pub use fault::{CoreFault, Fault};
pub use group::Group;
pub use group_core::{Core, MOST_COPIES};
pub use machine::MOST_TICKETS;
pub use polling::{poll_step, submit_step};
pub use step::{Answer, Step};
