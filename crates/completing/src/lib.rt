//! What the guesses of orders that complete unanswered writes share: numbers of records and of stretches, and values by
//! number; lines of records, and the places of a chain of writes; and the pairs that a shard has left, from which
//! numbers are given anew too. A number is of a type of its own, `No`, so that none is out of range.
//!
//! ```text
//! let records = Records::<D>::new(&own); // D: Count, as many as there are
//! let mut taken = Table::new(alloc, records.len(), false)?; // one value a record
//! let chain = Chain { writes, stretches }; // by rules, or by the search forward
//! let places = places_with_pairs(alloc, records, &chain, seen)?; // Option<Vec<Place>>
//! ```
#![tactic(auto)]

mod chain_write;
mod count;
mod free;
mod lines;
mod near;
mod numbering;
mod records;
mod table;
mod timed;
mod writes_by_number;

pub use chain_write::{Chain, ChainWrite, is_conflict, is_free_conflict, leaves_it, needs};
pub use count::{Count, No};
pub use free::{Free, PairRange};
pub use lines::{Lines, first_left};
pub use near::{HasPair, find, find_near};
pub use numbering::places_with_pairs;
pub use records::Records;
pub use table::Table;
pub use timed::{Timed, earlier};
pub use writes_by_number::{ConflictOrder, WritesByNumber, number_of};
