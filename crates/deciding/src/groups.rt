ghost use Rattle.std.specs.Prelude.{◌≡◌, ℕ, List, Some, slice_get};
ghost use Rattle.deciding.specs.aids.Groups.{AreGroupsOf, Has};

/// A number with a key. Entries are ordered by key, then by number.
#[derive(Clone, Copy, PartialEq, Eq, PartialOrd, Ord)]
pub struct Entry {
    /// The key.
    pub key: u64,
    /// The number.
    pub number: usize,
}

/// Entries by their keys.
#[derive(Drop)]
pub struct Groups {
    // In their order.
    entries: Vec<Entry>,
}

impl Groups {
    /// Returns the groups of these entries.
    pub fn of(mut entries: Vec<Entry>) -> Groups
        ensures { AreGroupsOf entries.items result }
    {
        entries.sort_unstable();
        Groups { entries }
    }

    /// Returns the entries with the key.
    pub fn group(&self, key: u64) -> &[Entry]
        // Each entry of the list with this key is in the result.
        ensures all { (list : List Entry) → AreGroupsOf list self.now → (i : ℕ) (e : Entry)
            → slice_get list i ≡ Some e → e.key ≡ key → Has result.now e }
        // Each entry of the result is one of the list with this key.
        ensures only { (list : List Entry) → AreGroupsOf list self.now → (j : ℕ) (e : Entry)
            → slice_get result.now j ≡ Some e → (e.key ≡ key) × Has list e }
    {
        let first = self.entries.partition_point(|entry| entry.key < key);
        let rest = &self.entries[first..];
        &rest[..rest.partition_point(|entry| entry.key == key)]
    }
}
