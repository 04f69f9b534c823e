use story_blocks::{Draft, WIDTH, after};
use story_reasons::Call;
use version_pair::NoMemory;

/// Where the first event of a drawing is.
pub const LEFT: u64 = 20;

// Where a call without a reply ends, if the drawing is as narrow as it may be.
const RIGHT: u64 = 1160;

// The greatest distance from one event to the next.
const WIDEST_STEP: u64 = 72;

/// Where the events of a drawing are from left to right.
#[derive(Drop)]
pub struct Scale {
    // The positions of the calls and of their replies, rising.
    places: Vec<usize>,
    // The distance from one event to the next.
    step: u64,
    /// Where a call without a reply ends.
    pub right: u64,
}

impl Scale {
    /// Returns that of the calls, with at least that distance from one event to the next.
    pub fn of(draft: &Draft<'_>, calls: &[Call<'_>], least_step: u64) -> Result<Scale, NoMemory> {
        let mut places = Vec::new(draft.alloc);
        for call in calls {
            places.push(call.record.call_at)?;
            if let Some(place) = draft.lines.over_at(&call.record) {
                places.push(place)?;
            }
        }
        places.sort_unstable();
        let count = after(places.len() as u64, 1);
        let fitting = (RIGHT - LEFT).checked_div(count).unwrap_or(0);
        let step = fitting.min(WIDEST_STEP).max(least_step);
        let right = after(LEFT, step.saturating_mul(count)).max(RIGHT);
        Ok(Scale {
            places,
            step,
            right,
        })
    }

    /// Returns where the event is, by the number of drawn events before it.
    pub fn x(&self, place: usize) -> u64 {
        let rank = self.places.partition_point(|other| *other < place) as u64;
        after(LEFT, rank.saturating_mul(self.step)).min(self.right)
    }

    /// Returns the first event that is drawn.
    pub fn first(&self) -> Option<usize> {
        self.places.first().copied()
    }

    /// Returns the last event that is drawn.
    pub fn last(&self) -> Option<usize> {
        self.places.last().copied()
    }

    /// Returns the width of the drawing.
    pub fn width(&self) -> u64 {
        after(self.right, LEFT).max(WIDTH)
    }
}
