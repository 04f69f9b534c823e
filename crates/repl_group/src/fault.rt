ghost use Rattle.std.specs.Prelude.{◌≡◌};

use thiserror::Error;

/// What a replication group does wrong.
#[derive(Clone, Copy, Debug, PartialEq, Eq)]
pub enum Fault {
    /// Nothing: the group is honest.
    None,
    /// A get does not wait for a write in flight on its document, and sees it.
    Dirty,
    /// A write is acknowledged as soon as the primary holds it.
    Early,
    /// A promotion keeps the term.
    SameTerm,
    /// A get is served by any copy, from its own writes.
    Stale,
    /// The condition of a write is ignored.
    Blind,
}

impl Fault {
    ghost use Rattle.repl_group.specs.Faults as faults;

    pub(crate) fn is_dirty(self) -> bool
        ensures { result ≡ faults.is_dirty self }
    {
        matches!(self, Fault::Dirty)
    }

    pub(crate) fn is_early(self) -> bool
        ensures { result ≡ faults.is_early self }
    {
        matches!(self, Fault::Early)
    }

    pub(crate) fn is_same_term(self) -> bool
        ensures { result ≡ faults.is_same_term self }
    {
        matches!(self, Fault::SameTerm)
    }

    pub(crate) fn is_stale(self) -> bool
        ensures { result ≡ faults.is_stale self }
    {
        matches!(self, Fault::Stale)
    }

    pub(crate) fn is_blind(self) -> bool
        ensures { result ≡ faults.is_blind self }
    {
        matches!(self, Fault::Blind)
    }
}

/// The reason why a group was not made.
#[derive(Clone, Copy, Debug, PartialEq, Eq, Error)]
pub enum CoreFault {
    /// The number of copies is not 1 to 5.
    #[error("a group has 1 to 5 copies")]
    Copies,
    /// Memory was refused.
    #[error("no memory")]
    NoMemory,
}
