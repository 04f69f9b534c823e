ghost use Rattle.std.specs.Prelude.{◌≡◌};
ghost use Rattle.events.specs.Keys.{hasher_of};

use std::fmt::{self, Debug, Formatter};
use std::hash::{BuildHasher, DefaultHasher, Hasher};

/// The keys of the hashes by which documents and versions are found.
///
/// Whoever writes a text and knows the keys can choose ids with equal hashes, so that each look-up goes
/// through many of them. Keys that were drawn at random and kept secret prevent this. No answer depends on
/// the keys.
#[derive(Clone, Copy)]
pub struct HashKeys {
    // A hasher to which the keys were written.
    start: DefaultHasher,
}

impl HashKeys {
    /// Returns these keys: each hash begins with the two numbers.
    pub fn new(first: u64, second: u64) -> HashKeys
        ensures { result.start ≡ hasher_of first second }
    {
        let mut start = DefaultHasher::new();
        start.write_u64(first);
        start.write_u64(second);
        HashKeys { start }
    }

    /// Returns keys that everyone knows, for texts of whoever runs the program: those of twice the number 0.
    pub fn fixed() -> HashKeys
        ensures { result.start ≡ hasher_of 0 0 }
    {
        HashKeys::new(0, 0)
    }
}

impl BuildHasher for HashKeys {
    type Hasher = DefaultHasher;

    // Each hasher begins as the one to which the two numbers of the keys were written.
    ghost build_hasher = { λ keys. keys.start };

    fn build_hasher(&self) -> DefaultHasher {
        self.start
    }
}

// The keys are not shown.
impl Debug for HashKeys {
    fn fmt<W: fmt::Write>(&self, f: &mut Formatter<W>) -> fmt::Result {
        f.debug_struct("HashKeys").finish_non_exhaustive()
    }
}
