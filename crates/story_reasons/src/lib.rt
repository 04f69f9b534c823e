//! What an explanation rests on: the calls that evidence names, why no order explains the replies of a document, what
//! the calls show of a store, and how much of a history is broken. Nothing is promised of it but safety: the verdict is
//! proved elsewhere, and a reason is a guess for people, given only for documents that are ruled out.
//!
//! ```text
//! let subjects = Subjects::of(alloc, &account)?;
//! let diagnosis = diagnosis_of(&account.in_text, &subjects.list); // the anomaly that the calls show
//! ```
#![tactic(auto)]

mod accounts;
mod anomaly;
mod calls;
mod cause;
mod course;
mod coverage;
mod damage;
mod diagnosis;
mod falling_versions;
mod findings;
mod first_fault;
mod given_again;
mod in_text;
mod known_versions;
mod lost_writes;
mod order_search;
mod order_steps;
mod performed_writes;
mod reason;
mod states_shown;
mod subject;
mod subjects;
mod unhelpful;
mod window;

pub use accounts::Account;
pub use anomaly::Anomaly;
pub use calls::{
    Call, EvidenceCalls, call_of, end_of, in_order, is_answered_before, record_of, version_shown,
};
pub use cause::{Cause, Unmet};
pub use coverage::{Coverage, Terms};
pub use damage::{AnomalyCount, Damage, damage_of};
pub use diagnosis::{Diagnosis, diagnosis_of};
pub use falling_versions::version_fall;
pub use findings::Findings;
pub use first_fault::Fault;
pub use given_again::GivenAgain;
pub use lost_writes::{Loss, LostWrites};
pub use order_search::OrderSearch;
pub use order_steps::{OrderBefore, OrderExtent, OrderStep, order_before, order_of_witness};
pub use reason::{Beginning, PossibleState, Reason, ReasonLink, Unreported, shows};
pub use subject::{Explained, Unexplained};
pub use subjects::{Subject, Subjects};
pub use unhelpful::Unhelpful;
