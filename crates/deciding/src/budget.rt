/// What the walks over the documents of a history may do beyond what each document's own records allow. One document with
/// many branches can use it up; the others still have what their own records allow.
#[derive(Debug, Drop)]
pub struct Budget {
    // The number of rows of which steps may yet be made.
    rows: usize,
}

// Of so many rows for each of its records the walk over a document may make steps.
const ROWS_PER_RECORD: usize = 64;

// And of so many more the walks over all documents together.
const MORE_ROWS: usize = 100_000;

impl Budget {
    /// Returns the budget before the first document.
    pub fn new() -> Budget {
        Budget { rows: MORE_ROWS }
    }

    /// Returns the number of rows of which the walk over a document with so many records may make steps.
    pub fn limit(&self, records: usize) -> usize {
        records
            .saturating_mul(ROWS_PER_RECORD)
            .saturating_add(self.rows)
    }

    /// Takes off what a walk used beyond what its records allow, if so much of its limit was left.
    pub fn keep(&mut self, left: usize) {
        self.rows = self.rows.min(left);
    }
}
