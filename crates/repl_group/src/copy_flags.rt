/// Whether a copy is cut off, and whether it is in sync.
#[derive(Clone, Copy, PartialEq, Eq)]
pub struct CopyFlags {
    /// Whether it is cut off from the others.
    pub is_cut: bool,
    /// Whether each acknowledged write must be on it.
    pub is_in_sync: bool,
}
