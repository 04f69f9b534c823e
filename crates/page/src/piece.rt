use crate::markup::Markup;

/// A piece of a page.
#[derive(Debug, Drop)]
pub enum Piece {
    /// Markup, written unchanged.
    Fixed(Markup),
    /// A number, written in decimal digits.
    Number(u64),
    /// A text, written escaped.
    Text(String),
}
