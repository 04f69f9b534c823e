/// What a client does at a turn.
#[derive(Clone, Copy, Debug, PartialEq, Eq)]
pub enum Kind {
    /// Reads the document.
    Get,
    /// Writes the document, without a condition.
    Put,
    /// Writes the document under the condition of the pair last reported of it; reads it if none is known.
    PutIfSeen,
    /// Deletes the document, without a condition.
    Delete,
    /// Deletes the document under the condition of the pair last reported of it; reads it if none is known.
    DeleteIfSeen,
}

/// One turn of a client: what it does, and to which document. Documents are numbered from 0.
#[derive(Clone, Copy, Debug, PartialEq, Eq)]
pub struct Turn {
    pub doc: u32,
    pub kind: Kind,
}
