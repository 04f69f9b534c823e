ghost use Rattle.std.specs.Prelude.{◌≡◌, None as Nothing};

use crate::Op;
use version_pair::Pair;

/// The cluster's reply to an operation.
#[derive(Clone, Copy, Debug, PartialEq, Eq)]
pub enum Reply {
    /// The write was performed with this pair; `created` if the document was missing or deleted.
    Indexed { pair: Pair, created: bool },
    /// The delete was performed with this pair; `found` if the document existed.
    Deleted { pair: Pair, found: bool },
    /// The document exists, with the pair of its last change and its number.
    Found { pair: Pair, k: u64 },
    /// The document is missing or deleted.
    Missing,
    /// The write was refused: its condition was not met, or a create found the document.
    Conflict,
}

impl Reply {
    ghost use Rattle.doc_register.specs.Register.{fits, pair_of_reply};
    ghost use Rattle.doc_register.specs.Run.{pair_taken};

    /// Returns whether the operation can have a reply of this kind. A get finds the document or misses it, an
    /// index or a create is indexed, a delete is deleted, and any write may conflict. A create never replaces
    /// a document.
    pub fn fits(&self, op: Op) -> bool
        ensures { result ≡ fits op self.now }
    {
        match (op, self) {
            (Op::Get, Reply::Found { .. } | Reply::Missing) => true,
            (Op::Index { .. }, Reply::Indexed { .. } | Reply::Conflict) => true,
            (Op::Delete { .. }, Reply::Deleted { .. } | Reply::Conflict) => true,
            (Op::Create { .. }, Reply::Indexed { created, .. }) => *created,
            (Op::Create { .. }, Reply::Conflict) => true,
            _ => false,
        }
    }

    /// Returns the pair in the reply: that of a change, or of the document that was found.
    pub fn pair(&self) -> Option<Pair>
        ensures { result ≡ pair_of_reply self.now }
    {
        match self {
            Reply::Indexed { pair, .. } | Reply::Deleted { pair, .. } | Reply::Found { pair, .. } =>
                Some(*pair),
            Reply::Missing | Reply::Conflict => None,
        }
    }

    /// Returns the pair with which a write was performed, if the reply shows it.
    pub fn pair_taken(&self) -> Option<Pair>
        ensures { result ≡ pair_taken self.now Nothing }
    {
        match self {
            Reply::Indexed { pair, .. } | Reply::Deleted { pair, .. } => Some(*pair),
            Reply::Found { .. } | Reply::Missing | Reply::Conflict => None,
        }
    }
}
