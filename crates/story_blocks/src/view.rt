/// Which calls a timeline shows: those of a document that were open on one of the lines of the text from the first
/// to the last one. A call without a reply counts as open on its own line alone.
#[derive(Clone, Copy)]
pub struct View<'a> {
    pub document: &'a str,
    /// The first line, from 1.
    pub first: u64,
    /// The last line; the greatest number if there is no end.
    pub last: u64,
}

impl View<'_> {
    /// Returns whether the timeline is of the whole text.
    pub fn is_whole(&self) -> bool {
        self.first <= 1 && self.last == u64::MAX
    }
}
