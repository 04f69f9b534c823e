//! What streams read and write: texts taken from readers, and answers given to writers. One enum,
//! `StreamFault`, has the reasons why a stream ends without its answer.
//!
//! ```text
//! let reported = read_entries(alloc, &mut reader)?; // Result<Vec<(DocId, Vec<Place>)>, TextFault>
//! let status = write_answer(&mut writer, &answer)?;
//! ```
#![tactic(auto)]

mod answer;
mod input;
mod output;
mod status;
mod stream_fault;

pub use answer::AnswerText;
pub use api_lines::CHUNK;
pub use input::{read_all, read_entries};
pub use output::{write_answer, write_text};
pub use status::Status;
pub use stream_fault::StreamFault;
