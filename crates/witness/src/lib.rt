//! The text of witnesses. What witnesses are is in `places`, and exported here too.
//!
//! ```text
//! let entries = read_witness(alloc, text)?; // Vec<(DocId, Vec<Place>)>
//! let text = write_witness(alloc, &witnesses)?;
//! ```
#![tactic(auto)]

mod documents;
pub mod laws;
mod witness_input;
mod witness_line;
mod witness_reader;
mod witness_writer;

pub use documents::MOST_ITEMS;
pub use places::{Broken, DocWitness, Place};
pub use witness_input::read_witness_from;
pub use witness_reader::{WitnessReader, read_witness};
pub use witness_writer::write_witness;
