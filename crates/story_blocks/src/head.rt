use crate::clock::date_of;
use jiff::Timestamp;
use jiff::civil::Date;

/// How many there are of what a history consists of.
#[derive(Clone, Copy)]
pub struct HistoryCounts {
    pub events: usize,
    pub calls: usize,
    pub documents: usize,
}

/// When the first line that says so was written, and the last one.
#[derive(Clone, Copy)]
pub struct Span {
    pub first: Timestamp,
    pub last: Timestamp,
}

impl Span {
    /// Returns the date of both, in UTC; `None` if they have different ones.
    pub fn date(&self) -> Option<Date> {
        let first = date_of(self.first);
        if first == date_of(self.last) {
            Some(first)
        } else {
            None
        }
    }
}

/// What an explanation is of, as far as that is known.
#[derive(Clone, Copy)]
pub struct Head {
    /// `None` if the text is refused.
    pub counts: Option<HistoryCounts>,
    pub span: Option<Span>,
}
