//! All documents of a history together: whether one order of all its calls explains it, the reply at which
//! the search for one first fails, and whether the entries of a witness text cover it.
//!
//! ```text
//! match check_alone(alloc, history, Conflicts::Plain)? {
//!     Verdict::Yes(proof) => {} // proof.witnesses(): an order of each document's calls
//!     Verdict::No(case) => {} // first_offence(alloc, &case)?: the reply at which the search fails
//! }
//! ```
#![tactic(auto)]

mod case;
mod certainty;
mod checking;
mod counts;
mod finding;
mod found;
pub mod laws;
mod offence;
mod proof;
mod refutation;
mod verification;
mod verify_fault;
mod workers;

pub use case::Case;
pub use certainty::{certainty_of, is_complete_case};
pub use checking::{CheckFault, Verdict, check, check_alone};
pub use counts::{CallNumbers, Counts, count_calls, count_left_out};
pub use evidence::{Attempts, Certainty, Refuted, RulingOut, refutes};
pub use finding::{Failing, Finding};
pub use offence::{Offence, first_offence};
pub use proof::Proof;
pub use refutation::{refute, rule_out};
pub use verification::verify;
pub use verify_fault::VerifyFault;
