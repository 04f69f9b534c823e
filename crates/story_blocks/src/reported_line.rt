use crate::clock::time_of_day;
use jiff::Timestamp;
use std::fmt;

/// A line of a text as sentences name it: its number, from 1, and when it was written, in UTC and to the
/// millisecond, if it says so.
#[derive(Clone, Copy)]
pub struct ReportedLine {
    pub number: u64,
    pub time: Option<Timestamp>,
    /// Whether the time is given with its date: that of most lines is given once for all.
    pub is_dated: bool,
}

impl fmt::Display for ReportedLine {
    fn fmt<W: fmt::Write>(&self, f: &mut fmt::Formatter<W>) -> fmt::Result {
        let number = self.number;
        match self.time {
            Some(time) if self.is_dated => write!(f, "{number} at {time:.3}"),
            Some(time) => {
                let clock = time_of_day(time);
                write!(f, "{number} at {clock:.3}")
            }
            None => write!(f, "{number}"),
        }
    }
}
