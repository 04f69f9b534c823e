//! The lines that are written: each answer as its definition spells it, in words or as an object of JSON.
//!
//! ```text
//! let line = no_line(alloc, offence)?; // no event=6 call=3 before=shown
//! let object = object_line(alloc, &reported, &facts)?; // {"answer":"no","before":"shown","call":3,"event":6,..}
//! ```
#![tactic(auto)]

mod broken;
mod bulk;
mod causes;
mod checked;
mod facts;
mod members;
mod objects;
mod refuted;
mod reported;
mod text_counts;
mod verified;

pub use broken::broken_line;
pub use bulk::bulk_fault_line;
pub use checked::{no_line, refused_line, yes_line};
pub use facts::{BrokenReply, Facts, NamedReading};
pub use objects::object_line;
pub use refuted::refuted_line;
pub use reported::Reported;
pub use text_counts::TextCounts;
pub use verified::{refused_history_line, refused_witness_line, verified_line};
