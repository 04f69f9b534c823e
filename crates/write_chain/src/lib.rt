//! The answered calls of a document in response order; its performed writes among them by pair, and the state
//! of the document after each of these.
//!
//! ```text
//! let answers = answers_of(alloc, &records)?; // Vec<AnsweredRec>
//! let chain = chain_of(alloc, &records)?; // Vec<(Pair, usize)>, each with its record
//! let states = states_of(alloc, &records, &chain)?;
//! ```
#![tactic(auto)]

mod answers;
mod chain;
mod nearly_ordered;

pub use answers::{AnsweredRec, answers_of};
pub use chain::{chain_of, pairs_of, rises, states_of};
pub use nearly_ordered::sort_nearly_ordered;
