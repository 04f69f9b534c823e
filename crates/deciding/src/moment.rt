use crate::made::Made;

/// What is known of the calls before an event.
#[derive(Clone, Copy)]
pub struct Moment<'a> {
    /// The event.
    pub event: usize,
    /// The conflicts that may hide a write, made and not answered.
    pub pending: &'a [usize],
    /// How many writes without a reply and without a condition were made.
    pub made: Made,
}
