//! Readings of a history: what a store may promise less than that each reply shows the last change. A reading
//! turns a history into one that the strict check judges, and says which gets are judged one by one.
//!
//! ```text
//! let reading = Reading::opensearch();
//! let read = ReadHistory::of(text_read, reading)?;
//! let verdict = check_alone(alloc, read.judged, reading.conflicts_checked())?;
//! ```
#![tactic(auto)]

mod document;
mod judged;
pub mod laws;
mod peaks;
mod read_history;
mod reading;
mod removers;
mod sources;
mod unexplained;
mod way_back;

pub use history::{Failed, TextRead, TextRules, Voids, Writes};
pub use judged::{is_repeatable_write, judged_history};
pub use read_history::{ReadHistory, text_history};
pub use reading::{ConflictReading, Gets, Reading, attempts_of};
pub use unexplained::{UnexplainedGet, unexplained_get};
pub use way_back::WayBack;
