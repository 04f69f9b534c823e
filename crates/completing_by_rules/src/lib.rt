//! Orders of a document's calls that complete unanswered writes, by rules. They are guesses; whoever takes one has
//! `DocWitness::check` check it.
//!
//! ```text
//! let places = complete_by_rules(alloc, &records, seen, conflicts)?; // Option<Vec<Place>>
//! ```
#![tactic(auto)]

mod asking;
mod completion;
mod flags;
mod lost;
mod named;
mod performing;
mod plan;
mod queue;
mod refused;
mod round;
mod stand;

pub use completion::complete_by_rules;
