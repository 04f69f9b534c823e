/// How often a write without a reply and without a condition may have been performed.
#[derive(Debug, Clone, Copy, PartialEq, Eq)]
pub enum Attempts {
    /// Once, or not at all.
    Once,
    /// As often as is wanted: something on the way may repeat a write.
    Any,
}
