//! Pages of HTML: lists of pieces, and the one way by which texts come into them, which escapes them.
//!
//! ```text
//! let title = [Piece::Fixed(Markup::TitleStart), Piece::Text(id), Piece::Fixed(Markup::TitleEnd)];
//! let bytes = page_bytes(alloc, &title)?;
//! ```
#![tactic(auto)]

mod bytes;
mod escape;
pub mod laws;
mod markup;
mod piece;

pub use bytes::page_bytes;
pub use markup::Markup;
pub use piece::Piece;
