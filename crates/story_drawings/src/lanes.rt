use std::alloc::Global;
use story_blocks::{LANE_HEIGHT, after};
use version_pair::NoMemory;

// A lane of a drawing: where it begins from above, and where it is free from.
#[derive(Clone, Copy)]
struct Lane {
    y: u64,
    free: u64,
}

/// Lanes of a drawing, one below the other. Things that overlap from left to right are in different lanes.
#[derive(Drop)]
pub struct Lanes {
    lanes: Vec<Lane>,
    /// Where they end.
    pub end: u64,
}

impl Lanes {
    /// Returns no lanes, the first of which is to begin so far from above. It allocates nothing.
    pub fn new(alloc: Global, top: u64) -> Lanes {
        Lanes {
            lanes: Vec::new(alloc),
            end: top,
        }
    }

    /// Ends these lanes, so that the next one is new, and begins so far below them.
    pub fn part(&mut self, distance: u64) {
        self.lanes.clear();
        self.end = after(self.end, distance);
    }

    /// Takes the first lane that is free from `start` on, up to `end`; a new one if none is free. Returns where
    /// it begins.
    pub fn take(&mut self, start: u64, end: u64) -> Result<u64, NoMemory> {
        for lane in self.lanes.iter_mut() {
            if lane.free <= start {
                lane.free = end;
                return Ok(lane.y);
            }
        }
        let y = self.end;
        self.lanes.push(Lane { y, free: end })?;
        self.end = after(y, LANE_HEIGHT);
        Ok(y)
    }
}
