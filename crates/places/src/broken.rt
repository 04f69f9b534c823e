use thiserror::Error;

/// The first fault of places that are not valid. Places and records are numbered from 0.
#[derive(Clone, Copy, Debug, PartialEq, Eq, Error)]
pub enum Broken {
    /// The place names no record, or an unanswered get.
    #[error("place {0} names no call that may have one")]
    Stranger(usize),
    /// An earlier place names the same record.
    #[error("place {0} names a call that has a place already")]
    Twice(usize),
    /// No place names this record, whose call was answered.
    #[error("the answered call of record {0} has no place")]
    Absent(usize),
    /// The call of this place was answered before the call of an earlier place, or its own call, was made.
    #[error("the call of place {0} was answered before an earlier place's call was made")]
    Late(usize),
    /// The place of an unanswered write gives no pair.
    #[error("place {0} gives no pair")]
    PairMissing(usize),
    /// The place of an answered call gives a pair that it may not give.
    #[error("place {0} gives a pair that it may not give")]
    PairGiven(usize),
    /// The call of this place can't have its reply after the places before it.
    #[error("the call of place {0} can't be answered so there")]
    Illegal(usize),
    /// Memory was refused.
    #[error("no memory")]
    NoMemory,
}
