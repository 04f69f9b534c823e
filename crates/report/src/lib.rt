//! Bytes in, a line or a text out: a history is checked, and what was found is explained; its witness is
//! written; a witness is verified; a bulk is written as history lines. To use the checker as a library, take
//! this crate.
//!
//! ```text
//! let reading = Reading::strict();
//! let status = check_stream(rt, alloc, keys, &mut reader, &mut writer, 1, reading, RulingOut::Off)?;
//! let passed = status == Status::Yes;
//! ```
#![tactic(auto)]

mod bulk_answer;
mod check_options;
mod details;
mod earlier;
mod explain;
mod explained;
mod finding;
mod known_history;
mod progress;
mod reported;
mod searches;
mod shown_page;
mod streams;
mod text_finding;
mod text_input;
mod verify_answer;
mod verify_input;
mod witnessed;

pub use check_options::CheckOptions;
pub use compose::{Finding, Offence, RulingOut, first_offence};
pub use details::{Details, calls_reported, check_details, status_of};
pub use explained::{ExplainedDetails, explained_answer, explained_details};
pub use known_history::history_answer;
pub use page::laws;
pub use progress::{CheckProgress, CheckStage};
pub use readings::{ConflictReading, Failed, Gets, Reading, Writes};
pub use recorded_runs::{RUN_POLLS, RunSetting, run_stream};
pub use result_lines::{BrokenReply, Reported};
pub use shown_page::PageOptions;
pub use story::{View, written_at};
pub use stream_io::{AnswerText, Status, StreamFault, write_answer};
pub use streams::{bulk_stream, check_stream, explain_stream, verify_stream, witness_stream};
pub use text_input::Kept;
pub use verify_input::verify_reported;
pub use witnessed::{Witnessed, witness_details};
