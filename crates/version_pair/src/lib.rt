//! What names a version of a document: pairs of a primary term and a sequence number, and document ids.
//!
//! ```text
//! let pair = Pair::new(1, 7); // term 1, sequence number 7; None if one is out of range
//! let id = DocId::new(alloc, "cart-17")?;
//! ```
#![tactic(auto)]

mod doc_id;
mod pair;
mod shards;

pub use doc_id::{DocId, IdFault, IdText, NoMemory};
pub use pair::Pair;
pub use shards::SHARDS;
