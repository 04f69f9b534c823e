use doc_register::Op;
use version_pair::Pair;

/// A write that a copy holds: its document by number, its operation, and the pair that it took.
#[derive(Clone, Copy, Debug, PartialEq, Eq)]
pub struct HeldWrite {
    pub doc: usize,
    pub op: Op,
    pub pair: Pair,
}
