//! Lines of JSON about a cluster: their fields, the causes to refuse a line, the reply table, and bulk
//! bodies. A text is read by one loop over its lines, which takes any `LineReader`.
//!
//! ```text
//! let items = read_bulk(alloc, body)?; // Vec<(DocId, Op)>, or the first BulkFault
//! let heard = read_reply(&op, &id, 409, &body); // Heard::Reply(..), Heard::Unknown or Heard::Stranger
//! ```
#![tactic(auto)]

mod action;
mod bulk;
mod bulk_fault;
mod bulk_reply;
mod chunk;
mod field;
mod fields;
mod given;
mod history_line;
mod ids;
mod keys;
pub mod laws;
mod line_input;
mod line_object;
mod line_reader;
pub mod lines;
mod number;
mod reply_table;
mod scanner;
mod text_fault;
mod token_field;
mod token_fields;
mod token_reader;
mod unescaped;
mod written_reply;

pub use bulk::read_bulk;
pub use bulk_fault::BulkFault;
pub use bulk_reply::read_bulk_reply;
pub use chunk::{CHUNK, Chunk};
pub use field::{Field, field_of, inner_field_of};
pub use fields::{BodyFields, LineFields, body_fields, line_fields};
pub use given::{given_fields, given_line};
pub use history_line::{LineSaid, call_of, line_said, lost_of, reply_of, void_of};
pub use ids::document_id;
pub use line_input::{InputFault, next_line};
pub use line_object::LineObject;
pub use line_reader::{LineReader, RefusedLine, take_lines, take_text};
pub use lines::{LONGEST_LINE, MOST_LINES};
pub use number::{Number, pair_of, pair_of_numbers};
pub use reply_table::{Heard, heard_of, read_reply};
pub use text_fault::{LineFault, ReadFault, TextCause, TextFault};
pub use token_fields::{quick_fields, unescaped_fields};
pub use unescaped::LineRoom;
pub use written_reply::write_reply;
