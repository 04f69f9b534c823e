use deciding::Budget;

// How many known pairs may be passed for all documents together, beside twice as many as there are.
const MOST_PAIRS: usize = 100_000;

/// What the walks over the documents of a history may yet cost: the steps of their tables, and the known pairs that they
/// pass in search of those of other documents.
#[derive(Drop)]
pub struct Allowance {
    pub budget: Budget,
    pub pairs: usize,
}

impl Allowance {
    /// Returns the allowance for all documents of a history that are known to have so many pairs.
    pub fn of(known: usize) -> Allowance {
        Allowance {
            budget: Budget::new(),
            pairs: known.saturating_mul(2).saturating_add(MOST_PAIRS),
        }
    }
}
