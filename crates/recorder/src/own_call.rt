use doc_register::Op;

/// What a pen keeps of a call of its own.
#[derive(Clone, Copy, Debug, PartialEq, Eq)]
pub struct OwnCall {
    pub op: Op,
    /// Whether its ending was recorded.
    pub is_ended: bool,
}
