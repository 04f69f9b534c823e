ghost use Rattle.std.specs.Prelude.{◌≡◌, length};

use crate::count::{Count, No};
use events::Rec;
use std::alloc::AllocError;
use std::marker::PhantomData;

/// The records of a document.
pub struct Records<'a, D: Count> {
    all: &'a [Rec],
    document: PhantomData<D>,
    ghost counted: { length all.now ≡ D.number },
}

impl<D: Count> Clone for Records<'_, D> {
    fn clone(&self) -> Result<Self, AllocError> {
        Ok(Records::new(self.all))
    }
}

impl<D: Count> Copy for Records<'_, D> {}

impl<'a, D: Count> Records<'a, D> {
    /// Returns these records.
    pub fn new(all: &'a [Rec]) -> Records<'a, D>
        // They are as many as the document has.
        requires { length all.now ≡ D.number }
    {
        Records {
            all,
            document: PhantomData,
        }
    }

    /// Returns all of them.
    pub fn all(self) -> &'a [Rec]
        ensures { length result.now ≡ D.number }
    {
        self.all
    }

    /// Returns how many there are.
    pub fn len(self) -> usize
        ensures { result ≡ D.number }
    {
        self.all.len()
    }

    /// Returns the record with the number.
    pub fn of(self, rec: No<D>) -> Rec {
        self.all[rec.index()]
    }
}
