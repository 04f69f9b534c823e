//! Witnesses: the order that was found for the calls of one document, checked by itself. The text of such
//! orders is in `witness`.
//!
//! ```text
//! // A witness; or the first fault, and all that was handed in.
//! let witness = DocWitness::check(alloc, id, records, places, Conflicts::Plain);
//! ```
#![tactic(auto)]

mod broken;
mod check;
mod doc_witness;
pub mod laws;
mod place;
mod place_check;
mod walk;

pub use broken::Broken;
pub use doc_witness::DocWitness;
pub use place::Place;
