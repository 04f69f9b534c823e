use crate::count::{Count, No};

/// A record, with the index of an event of its call: of the call itself, or of the reply. The one with the
/// lesser index comes first.
#[derive_where(Clone, Copy, PartialEq, Eq, PartialOrd, Ord)]
pub struct Timed<D: Count> {
    pub at: usize,
    pub rec: No<D>,
}

/// Returns the earlier of two; the first of them if both have the same index.
pub fn earlier<D: Count>(first: Option<Timed<D>>, second: Option<Timed<D>>) -> Option<Timed<D>> {
    match (first, second) {
        (Some(one), Some(other)) => Some(if other.at < one.at { other } else { one }),
        (Some(one), None) => Some(one),
        (None, other) => other,
    }
}
