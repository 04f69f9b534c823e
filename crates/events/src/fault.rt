use thiserror::Error;

/// The reason why an event was refused.
#[derive(Clone, Copy, Debug, PartialEq, Eq, Error)]
pub enum HistFault {
    /// An earlier call has this number.
    #[error("an earlier call has this number")]
    SecondCall,
    /// No call has this number.
    #[error("no call has this number")]
    NoCall,
    /// The call with this number has an ending already.
    #[error("the call of this number has ended already")]
    Ended,
    /// The operation of the call cannot have this reply.
    #[error("the operation has no such reply")]
    Kind,
    /// The history has 1,048,576 events, the most that it can have.
    #[error("the history has its most events")]
    Full,
    /// Memory was refused.
    #[error("no memory")]
    NoMemory,
    /// An earlier call names another shard for the document.
    #[error("the document was called before on another shard")]
    ShardMoved,
}
