//! The text that histories are read from and written as, and that of bulk requests. What histories are is in
//! `events`, and exported here too.
//!
//! ```text
//! let history = read(alloc, text)?; // or the first line that is refused, with its cause
//! let records = history.records(0)?; // the calls of the first document, each with what was heard of it
//! ```
#![tactic(auto)]

mod bulk_writer;
pub mod laws;
mod line_event;
mod line_fault;
mod read_so_far;
mod reader;
mod room;
mod text_read;
mod text_reader;
mod text_rules;
mod voids;
mod writer;
mod written_line;

pub use bulk_writer::bulk_text;
pub use events::{Event, Front, HashKeys, HistFault, History, MOST_EVENTS, Rec, Seen};
pub use reader::{HistoryReader, read};
pub use text_read::TextRead;
pub use text_reader::{TextReader, read_text};
pub use text_rules::{Failed, TextRules, Writes};
pub use voids::Voids;
pub use writer::write;
