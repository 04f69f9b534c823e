use crate::case::Case;
use crate::offence::Offence;
use crate::proof::Proof;
use evidence::Refuted;

/// What is reported of a history for which no order was found.
#[derive(Clone, Copy, Debug, PartialEq, Eq)]
pub struct Failing {
    /// The evidence that there is none, if some was found.
    pub evidence: Option<Refuted>,
    /// The reply at which the search first fails.
    pub offence: Offence,
}

/// What was found of a history.
#[derive(Debug, Drop)]
pub enum Finding {
    /// An order that explains it.
    Explained(Proof),
    /// No order was found.
    Unexplained(Case, Failing),
}
