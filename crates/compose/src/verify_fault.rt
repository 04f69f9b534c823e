use places::Broken;
use thiserror::Error;
use version_pair::Pair;

/// Why the entries of a witness text do not cover a history: the first fault. Entries and documents are
/// numbered from 0, documents in the order of their first calls.
#[derive(Clone, Copy, Debug, PartialEq, Eq, Error)]
pub enum VerifyFault {
    /// No entry is of this document.
    #[error("document {0} has no entry")]
    DocMissing(usize),
    /// An earlier entry is of the same document.
    #[error("entry {0} is of a document that has one already")]
    DocTwice(usize),
    /// The history has no document of this entry's id.
    #[error("entry {0} is of no document of the history")]
    DocStranger(usize),
    /// The places of this entry are not valid.
    #[error("entry {0}: {1}")]
    Broken(usize, Broken),
    /// Two performed calls of this shard take this pair.
    #[error("two calls of shard {0} take the same pair")]
    PairTwice(u32, Pair),
    /// Memory was refused.
    #[error("no memory")]
    NoMemory,
}
