use version_pair::Pair;

/// One place of an order of a document's calls.
#[derive(Clone, Copy, Debug, PartialEq, Eq)]
pub struct Place {
    /// The call at this place, by its record. The records of a document are numbered from 0 in the order of
    /// their calls.
    pub rec: usize,
    /// The pair with which a write was performed whose reply does not show it: an unanswered write, or one
    /// with a conflict as its reply if that may hide a pair.
    pub pair: Option<Pair>,
}
