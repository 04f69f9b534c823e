//! Evidence in a history that no order of its calls explains it: what each kind says, whether it holds, and
//! the search for it.
//!
//! ```text
//! let found = find_evidence(alloc, &history, Conflicts::Plain)?; // Option<Refuted>
//! let holds = refutes(alloc, &history, &Refuted::StaleGet(3, 1), Conflicts::Plain)?;
//! ```
#![tactic(auto)]

mod allowance;
mod answered_call;
mod certainty;
mod holding;
mod known_pairs;
pub mod laws;
mod refuted;
mod ruled_out_calls;
mod ruling_out;
mod search;

pub use allowance::Allowance;
pub use certainty::Certainty;
pub use deciding::{
    Attempts, Contradiction, Row, Stage, Table, TableEvent, least_above, shown_pairs,
};
pub use holding::refutes;
pub use refuted::Refuted;
pub use ruled_out_calls::{RuledOutDocument, Rulings, contradiction_of, is_document_ruled_out};
pub use ruling_out::RulingOut;
pub use search::{find_evidence, rule_out};
