ghost use Rattle.std.specs.Prelude.{◌≡◌, ◌≤◌, option_map};
ghost use Rattle.recorded_runs.specs.Range.{seeds_between};

/// The seeds from one to another, both included.
#[derive(Clone, Copy, Debug, PartialEq, Eq)]
pub struct Seeds {
    first: u64,
    last: u64,
    pub ghost ordered: { first ≤ last },
}

impl Seeds {
    /// Returns the seeds from the first to the last; `None` if the last is below the first.
    pub fn new(first: u64, last: u64) -> Option<Seeds>
        // They go from the first to the last; there are none exactly if the last is below the first.
        ensures { option_map (λ seeds. (seeds.first, seeds.last)) result ≡ seeds_between first last }
    {
        if first <= last {
            Some(Seeds { first, last })
        } else {
            None
        }
    }

    /// Returns the least of them.
    pub fn first(self) -> u64
        ensures { result ≡ self.first }
    {
        self.first
    }

    /// Returns the greatest of them.
    pub fn last(self) -> u64
        ensures { result ≡ self.last }
    {
        self.last
    }
}
