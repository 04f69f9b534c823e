ghost use Rattle.std.specs.Prelude.{◌<◌, length};

use events::Rec;
use std::alloc::Global;
use version_pair::NoMemory;

/// The points of the search that were left without success, by their keys. Of two that go to one slot the
/// later one stays.
#[derive(Drop)]
pub struct Failed {
    slots: Vec<u64>,
    ghost has_some: { 0 < length slots.items },
}

impl Failed {
    /// Returns the value without any point, with room for about one per record.
    pub fn of(alloc: Global, records: &[Rec]) -> Result<Failed, NoMemory> {
        Ok(Failed {
            slots: vec![in alloc; 0; records.len() + 1024]?,
        })
    }

    /// Adds a point.
    pub fn note(&mut self, key: u64) {
        let slot = key as usize % self.slots.len();
        self.slots[slot] = key;
    }

    /// Returns whether the point was left without success.
    pub fn has(&self, key: u64) -> bool {
        self.slots[key as usize % self.slots.len()] == key
    }
}
