//! What explanations say: the anomaly, why no order can have the replies, how much is broken, what to rule out first and
//! what to do then. Nothing is promised of the sentences; tests look at them.
//!
//! ```text
//! let title = add_headline(&mut draft, &subjects, diagnosis);
//! add_why(&mut draft, &subjects, diagnosis, &search)?;
//! ```
#![tactic(auto)]

mod advice;
mod anomaly_words;
mod cause_words;
mod coverage_words;
mod damage_words;
mod documented;
mod evidence_words;
mod headline;
mod hidden_write;
mod late_line;
mod link_words;
mod profile_words;
mod reason_parts;
mod reported_calls;
mod signs;
mod stop_words;
mod undecided;
mod unreported_words;
mod why;

pub use advice::add_advice;
pub use coverage_words::add_coverage;
pub use damage_words::add_damage;
pub use headline::{add_headline, certainty_words};
pub use profile_words::add_profile;
pub use undecided::add_decision;
pub use why::add_why;
