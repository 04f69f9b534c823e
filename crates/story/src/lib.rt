//! Explanations: what an answer means, for people, as plain text and as a page. Nothing is proved of their
//! sentences. A page consists of the bytes of pieces, so each id in it is escaped.
//!
//! ```text
//! let subjects = Subjects::of(alloc, &account)?;
//! let story = failing_story(alloc, &subjects, &lines, &search, None)?;
//! let text = plain_text(alloc, &story)?;
//! let page = page_of(alloc, line, &story, &about)?;
//! ```
#![tactic(auto)]

mod calls_in_view;
mod describing;
mod failing;
mod line_key;
mod line_time;
mod refused;
mod shown_calls;
mod timeline;

pub use describing::{explained_story, refused_story};
pub use failing::failing_story;
pub use line_key::LineKey;
pub use line_time::{time_text, written_at};
pub use story_blocks::{About, EventLines, Story, View, page_of, plain_text};
pub use story_reasons::{Account, Explained, OrderSearch, Subjects, Unexplained};
