use crate::held::Held;

/// One copy of the shard that a group keeps.
#[derive(Debug, Drop)]
pub struct Replica {
    pub held: Held,
    /// Whether it is cut off from the others.
    pub is_cut: bool,
    /// Whether each acknowledged write must be on it.
    pub is_in_sync: bool,
}
