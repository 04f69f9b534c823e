ghost use Rattle.std.specs.Prelude.{◌≡◌, length};

use crate::count::{Count, No};
use std::alloc::Global;
use std::marker::PhantomData;
use version_pair::NoMemory;

/// A value for each number, at first the same one.
#[derive(Drop)]
pub struct Table<C: Count, T> {
    values: Vec<T>,
    count: PhantomData<C>,
    ghost counted: { length values.items ≡ C.number },
}

impl<C: Count, T: Copy> Table<C, T> {
    /// Returns the same value for each number.
    pub fn new(alloc: Global, count: usize, first: T) -> Result<Table<C, T>, NoMemory>
        // There are so many numbers.
        requires { count ≡ C.number }
    {
        Ok(Table {
            values: vec![in alloc; first; count]?,
            count: PhantomData,
        })
    }

    /// Returns the value of the number.
    pub fn of(&self, no: No<C>) -> T {
        self.values[no.index()]
    }

    /// Sets the value of the number.
    pub fn set(&mut self, no: No<C>, value: T) {
        self.values[no.index()] = value;
    }

    /// Returns the values, in the order of their numbers.
    pub fn values(&self) -> &[T]
        ensures { length result.now ≡ C.number }
    {
        &self.values
    }
}
