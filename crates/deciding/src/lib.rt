//! Documents that no order explains, whatever became of the calls without a reply: a walk along the events of a document
//! with a table of what it may be, the call at whose reply nothing is left, and the laws of it.
//!
//! ```text
//! let records = history.records(doc)?;
//! let mut budget = Budget::new();
//! // Option<u64>: the call at which the document is ruled out.
//! let elsewhere = Elsewhere::of(alloc, pairs_of_other_documents)?;
//! let call = ruled_out_at(alloc, &records, Conflicts::Plain, &elsewhere, Attempts::Once, &mut budget)?;
//! ```
#![tactic(auto)]

mod above;
mod attempts;
mod budget;
mod contradiction;
mod deciding;
mod document;
mod elsewhere;
mod groups;
mod known;
pub mod laws;
mod made;
mod moment;
mod numbers;
mod row;
mod served;
mod stage;
mod starting;
mod step;
mod steps;
mod tables;
mod version;
mod versions;
mod walk;
mod writes;

pub use above::least_above;
pub use attempts::Attempts;
pub use budget::Budget;
pub use contradiction::{Contradiction, Table, TableEvent, contradiction_at};
pub use deciding::ruled_out_at;
pub use elsewhere::Elsewhere;
pub use known::shown_pairs;
pub use row::Row;
pub use stage::Stage;
