ghost use Rattle.std.specs.Prelude.{◌≡◌};

use version_pair::Pair;

/// An operation on one document.
#[derive(Clone, Copy, Debug, PartialEq, Eq)]
pub enum Op {
    /// Reads the document.
    Get,
    /// Writes the document with the number `k`. With a condition, it does so only if the document exists and
    /// its last change has exactly that pair.
    Index { k: u64, cond: Option<Pair> },
    /// Deletes the document, under a condition as for `Index`. Without a condition, deleting a missing
    /// document is a change too.
    Delete { cond: Option<Pair> },
    /// Writes the document with the number `k` if it is missing or deleted.
    Create { k: u64 },
}

impl Op {
    ghost use Rattle.doc_register.specs.Register.{condition_of, value_of};

    /// Returns the condition of an index or a delete: the pair that its document must have. `None` if it has
    /// no condition.
    pub fn condition(&self) -> Option<Pair>
        ensures { result ≡ condition_of self.now }
    {
        match self {
            Op::Index { cond, .. } | Op::Delete { cond } => *cond,
            Op::Get | Op::Create { .. } => None,
        }
    }

    /// Returns the number that an index or a create gives its document.
    pub fn value(&self) -> Option<u64>
        ensures { result ≡ value_of self.now }
    {
        match self {
            Op::Index { k, .. } | Op::Create { k } => Some(*k),
            Op::Get | Op::Delete { .. } => None,
        }
    }
}
