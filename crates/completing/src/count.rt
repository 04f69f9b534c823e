ghost use Rattle.std.specs.Prelude.{◌<◌, ℕ};

use std::alloc::AllocError;
use std::marker::{Brand, PhantomData};

/// How many there are of something that is numbered: of the records of a document, or of the stretches of a chain.
/// The contracts know the number; so that it needn't be said at each call, it belongs to a type.
pub trait Count {
    ghost number: { ℕ };
}

// Whoever calls a function with `Brand` chooses the number, in the proof of the call; this one is never taken.
impl Count for Brand {
    ghost number = { 0 };
}

/// The number of one of them, from 0; it is below the count.
#[derive_where(PartialEq, Eq, PartialOrd, Ord)]
pub struct No<C: Count> {
    index: usize,
    #[derive_where(skip)]
    count: PhantomData<C>,
    ghost within: { index < C.number },
}

impl<C: Count> Clone for No<C> {
    fn clone(&self) -> Result<No<C>, AllocError> {
        Ok(No::new(self.index))
    }
}

impl<C: Count> Copy for No<C> {}

impl<C: Count> No<C> {
    /// Returns the number of the one at the index.
    pub fn new(index: usize) -> No<C>
        // There is one.
        requires { index < C.number }
    {
        No {
            index,
            count: PhantomData,
        }
    }

    /// Returns the index of the one with the number.
    pub fn index(self) -> usize
        ensures { result < C.number }
    {
        self.index
    }

    /// Returns the number before this one; `None` before the first.
    pub fn before(self) -> Option<No<C>> {
        match self.index {
            0 => None,
            index => Some(No::new(index - 1)),
        }
    }
}
