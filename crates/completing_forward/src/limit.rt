use version_pair::Pair;

/// A bound on the writes that may be inserted in each stretch of a document between two known pairs, if the
/// stretch ends above one pair, but not above another.
#[derive(Clone, Copy, Debug, PartialEq, Eq)]
pub struct Limit {
    /// It applies to stretches that end above this pair ..
    pub lower: Pair,
    /// .. and at this one or below.
    pub upper: Pair,
    /// The greatest number of writes that may be inserted.
    pub most: u64,
}

/// Returns the greatest number of writes that the limits allow in a stretch that ends at the pair; the
/// greatest `u64` if no limit applies.
pub fn most_before(limits: &[Limit], pair: Pair) -> u64 {
    let mut most = u64::MAX;
    for limit in limits {
        if limit.lower < pair && pair <= limit.upper {
            most = most.min(limit.most);
        }
    }
    most
}
