ghost use Rattle.std.specs.Prelude.{◌≡◌, ◌↔◌, [], Contains, IfOk, IsTrue};

use std::alloc::{AllocError, Global};
use std::collections::BTreeSet;
use std::marker::Model;

/// The numbers of the lost calls of which a text says that nothing was performed. Contracts see them as a list,
/// in the order of their lines.
#[derive(Debug, Drop)]
pub struct Voids {
    numbers: Vec<u64>,
    // The same numbers, to be looked up.
    known: BTreeSet<u64>,
}

impl Model for Voids {
    ghost use Rattle.std.specs.Prelude.{ℕ, List};
    ghost use Rattle.std.specs.Ordering.{nat_cmp};
    ghost use Rattle.std.specs.BTreeSet.{IsFromIterResult};

    ghost Value = { List ℕ };

    ghost view = { λ v. v.numbers.items };

    ghost invariant = { λ v. IsFromIterResult nat_cmp v.numbers.items v.known };
}

impl Voids {
    /// Returns these numbers. A look-up among them takes the logarithm of how many they are.
    pub fn new(alloc: Global, numbers: Vec<u64>) -> Result<Voids, AllocError>
        ensures { IfOk result (λ voids. voids ≡ numbers.items) }
    {
        let known = numbers.iter().copied().collect(alloc)?;
        Ok(Voids { numbers, known })
    }

    /// Returns whether the number is one of these.
    pub fn contains(&self, no: u64) -> bool
        ensures { IsTrue result ↔ Contains self.now no }
    {
        self.known.contains(&no)
    }

    /// Returns the numbers, in the order of their lines.
    pub fn numbers(&self) -> &[u64]
        ensures { result.now ≡ self.now }
    {
        &self.numbers
    }

    /// Returns whether there is none.
    pub fn is_empty(&self) -> bool
        ensures { IsTrue result ↔ (self.now ≡ []) }
    {
        self.numbers.is_empty()
    }
}
