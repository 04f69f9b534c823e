//! The search for one document. It finds an order of its calls that explains them, or that its answered calls
//! alone have none.
//!
//! ```text
//! match answer(alloc, id, records, history.seen(), Conflicts::Plain)? {
//!     DocAnswer::Found(witness) => {} // witness.places(): the order
//!     DocAnswer::NotFound(no_order) => {} // no order of the answered calls is valid
//! }
//! ```
#![tactic(auto)]

mod complete;
mod latest;
pub mod laws;
mod moments;
mod no_order;
mod order;
mod reply_order;
mod search;
mod stretches;
mod sweep;

pub use complete::is_complete;
pub use no_order::NoOrder;
pub use search::{DocAnswer, OrderAmong, answer, answer_among};
