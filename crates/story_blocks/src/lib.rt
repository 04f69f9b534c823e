//! Explanations as blocks: sentences with words at their places, tables and drawings, and their layout as plain text
//! and as a page. A page consists of the bytes of pieces, so each id in it is escaped.
//!
//! ```text
//! let mut draft = Draft::new(alloc, &lines);
//! draft.paragraph("Call {0.no} was answered on line {0.replied}.", &[draft.call(&call)]);
//! let story = draft.finish(title, Some(counts))?; // an error if memory was not enough for a part of it
//! let text = plain_text(alloc, &story)?;
//! ```
#![tactic(auto)]

mod block;
mod clients;
mod clock;
mod draft;
mod drawing;
mod drawing_pieces;
mod event_lines;
mod head;
mod lost_calls;
mod page_facts;
mod page_pieces;
mod pieces;
mod plain;
mod reported_line;
mod table_pieces;
mod view;
mod word;

pub use block::{
    Block, CallReported, CallRow, CallTable, Mark, NoteReported, PlaceReported, Story,
};
pub use draft::Draft;
pub use drawing::{
    BOX_HEIGHT, Bar, Drawing, EventMark, LANE_HEIGHT, LaneName, TOP, VersionBox, WIDTH, after,
};
pub use event_lines::{EventLines, Note};
pub use head::HistoryCounts;
pub use lost_calls::{LostCall, LostEnding};
pub use page_facts::About;
pub use page_pieces::page_of;
pub use plain::plain_text;
pub use view::View;
pub use word::{NOTATION, Word, add_shown, unreported_kind};
