use crate::performed_writes::PerformedWrites;

/// The writes of documents that were given a version which another write of the same document had been given.
#[derive(Clone, Copy)]
pub struct GivenAgain {
    pub writes: usize,
    /// The positions of the first and of the last of their replies.
    pub first: usize,
    pub last: usize,
}

impl GivenAgain {
    /// Returns these and the others. A history has too few calls for the sum to reach the greatest number.
    pub fn with(self, other: GivenAgain) -> GivenAgain {
        GivenAgain {
            writes: self.writes.saturating_add(other.writes),
            first: self.first.min(other.first),
            last: self.last.max(other.last),
        }
    }
}

/// Returns the writes of a document that were given a version again; `None` if there is none.
pub fn given_again(writes: &PerformedWrites) -> Option<GivenAgain> {
    let mut again: Option<GivenAgain> = None;
    for number in 0..writes.count() {
        if let (Some(event), before) = (writes.again_at(number), again) {
            let one = GivenAgain {
                writes: 1,
                first: event,
                last: event,
            };
            again = Some(match before {
                Some(before) => before.with(one),
                None => one,
            });
        }
    }
    again
}
