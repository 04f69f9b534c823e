use thiserror::Error;

/// The reason why a call on a `DocMap` is refused.
#[derive(Clone, Copy, Debug, PartialEq, Eq, Error)]
pub enum MapFault {
    /// The pair of a performed write is already used, by any document.
    #[error("the pair is taken already")]
    PairUsed,
    /// The pair of a performed write is not greater than that of the document's last change.
    #[error("the pair is not above that of the document's last change")]
    PairLow,
    /// Memory was refused.
    #[error("no memory")]
    NoMemory,
}
