//! Covers: an order of each document of a history, with no pair of a shard taken twice among them, of the
//! answers of the documents' searches. If two documents take one pair, numbers are given anew, and documents
//! are searched again.
//!
//! ```text
//! match cover_answers(alloc, &history.whole(), answers)? {
//!     Covering::Found(witnesses) => {} // witnesses that cover the history
//!     Covering::NotFound(why) => {} // why.short_at: the reply with which the numbers seem to become too few
//! }
//! ```
#![tactic(auto)]

mod covering;
mod doc_limits;
mod joined;
mod nearby;
mod part;
mod reordered;
mod second_look;
mod third_look;

pub use covering::{Covering, NotCovered, cover_answers};
