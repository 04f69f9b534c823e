use crate::reported_line::ReportedLine;
use page::{Markup, Piece};
use std::alloc::Global;
use version_pair::NoMemory;

/// A part of a page that is being made: a piece of it, whose text stands elsewhere.
#[derive(Clone, Copy)]
pub enum Part<'a> {
    Fixed(Markup),
    Number(u64),
    Words(&'static str),
    Text(&'a str),
    /// A line, with when it was written if it says so.
    Line(ReportedLine),
}

/// A page that is being made. Whether memory was enough for all that was added is known at its end.
#[derive(Drop)]
pub struct Pieces {
    pub alloc: Global,
    pub list: Vec<Piece>,
    /// Whether memory was not enough for something.
    pub is_cut: bool,
}

// Returns a part as a piece of the page.
fn piece_of(alloc: Global, part: &Part<'_>) -> Result<Piece, NoMemory> {
    match *part {
        Part::Fixed(markup) => Ok(Piece::Fixed(markup)),
        Part::Number(number) => Ok(Piece::Number(number)),
        Part::Words(text) => Ok(Piece::Text(String::from_str(alloc, text)?)),
        Part::Text(text) => Ok(Piece::Text(String::from_str(alloc, text)?)),
        Part::Line(line) => Ok(Piece::Text(format!(in alloc; "{line}")?)),
    }
}

impl Pieces {
    // Adds a part.
    fn push(&mut self, part: &Part<'_>) -> Result<(), NoMemory> {
        let piece = piece_of(self.alloc, part)?;
        self.list.push(piece)?;
        Ok(())
    }

    /// Adds parts, one after the other.
    pub fn add(&mut self, parts: &[Part<'_>]) {
        for part in parts {
            if self.push(part).is_err() {
                self.is_cut = true;
            }
        }
    }

    /// Adds markup.
    pub fn fixed(&mut self, markup: Markup) {
        self.add(&[Part::Fixed(markup)]);
    }

    /// Adds a text between two markups.
    pub fn within(&mut self, start: Markup, text: &str, end: Markup) {
        self.add(&[Part::Fixed(start), Part::Text(text), Part::Fixed(end)]);
    }
}
