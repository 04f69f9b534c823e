/// The result that an answer states.
#[derive(Clone, Copy, Debug, PartialEq, Eq)]
pub enum Status {
    /// One order explains the history; the witness covers it; the lines of the bulk are written.
    Yes,
    /// No order was found; the witness does not cover the history.
    No,
    /// No order was found, and there is evidence that there is none, however the unanswered calls ended.
    Refuted,
    /// A text was refused.
    Refused,
}
