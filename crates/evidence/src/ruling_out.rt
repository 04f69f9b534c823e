/// Whether documents are checked for being ruled out if no other evidence is found.
#[derive(Debug, Clone, Copy, PartialEq, Eq)]
pub enum RulingOut {
    /// They are not checked.
    Off,
    /// They are checked.
    On,
}
