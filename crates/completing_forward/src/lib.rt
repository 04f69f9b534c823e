//! Orders of a document's calls that complete unanswered writes, by a search forward in time. They are guesses;
//! whoever takes one has `DocWitness::check` check it.
//!
//! ```text
//! match search_forward(alloc, &records, seen, conflicts, &used, &limits)? {
//!     ForwardSearch::Found(places) => {} // Vec<Place>
//!     ForwardSearch::Stuck(furthest) => {} // the reply that it came to
//! }
//! ```
#![tactic(auto)]

mod failed;
mod inserted_pair;
mod known;
mod limit;
mod moves;
mod rooms;
mod search;
mod state;
mod wait_kind;
mod walk;

pub use limit::Limit;
pub use search::{ForwardSearch, search_forward};
