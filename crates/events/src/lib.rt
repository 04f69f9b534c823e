//! Histories of calls and replies: events, well-formed histories and the records of a document. The text that
//! histories are read from and written as is in `history`.
//!
//! ```text
//! history.push(Event::Call { shard: 0, no: 1, id, op: Op::Get })?; // or the reason why it is refused
//! let records = history.records(0)?; // the calls of the first document, each with what was heard of it
//! ```
#![tactic(auto)]

mod by_text;
mod call_places;
mod documents;
mod event;
mod fault;
mod front;
mod hash_keys;
mod history;
pub mod laws;
mod prefix;
mod pushing;
mod record;
mod records;
mod refusal;
mod seen;
mod taken_pair;

pub use event::Event;
pub use fault::HistFault;
pub use front::Front;
pub use hash_keys::HashKeys;
pub use history::{History, MOST_EVENTS};
pub use record::Rec;
pub use seen::Seen;
pub use taken_pair::{TakenPair, TakesPair, next_taken_again};
