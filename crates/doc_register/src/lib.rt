//! A document as a register of versions: operations, replies, and the step of one document. All other
//! judgements build on this step.
//!
//! ```text
//! let after = step(DocState::Never, &Op::Get, &Reply::Missing, None); // Some(DocState::Never)
//! ```
#![tactic(auto)]

mod doc_map;
pub mod laws;
mod map_fault;
mod op;
mod reply;
mod state;
mod transition;

pub use doc_map::{DocMap, shown_reply, state_after};
pub use map_fault::MapFault;
pub use op::Op;
pub use reply::Reply;
pub use state::{Conflicts, DocState};
pub use transition::{exceeds, is_performed, performed_reply, step};
