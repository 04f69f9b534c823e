ghost use Rattle.std.specs.Prelude.{◌≡◌, ◌≤◌, ◌↔◌, IsTrue, List, ℕ, true};
ghost use Rattle.events.specs.declared.record.Rec.{Rec as Record};
ghost use Rattle.deciding.specs.Branches.{Covers, IsAtMost, is_in};
ghost use Rattle.deciding.specs.aids.Rows.{IsAsFree, IsPositioned, branch_of};

use crate::numbers::are_in;
use version_pair::Pair;

/// A branch: what a document may be between two events of its history.
#[derive(Drop)]
pub struct Row {
    /// The least pair that its last change may have; `None` if it was never changed.
    pub least: Option<Pair>,
    /// The position of a document whose last change has this pair.
    pub position: usize,
    /// Whether it exists.
    pub exists: bool,
    /// A call that was made before this event may have met it in the other state, existing or missing.
    pub flipped_at: usize,
    /// A call that was made before this event may have met it at another position.
    pub arrived_at: usize,
    /// The numbers of the conflicts that have to be performed yet.
    pub owed: Vec<usize>,
    /// The numbers of the conflicts that were performed.
    pub spent: Vec<usize>,
    /// How many deletes without a reply and without a condition were performed.
    pub deletes: usize,
    /// How many indexes and creates without a reply and without a condition were performed.
    pub makes: usize,
}

/// Returns whether the first pair is the second or below it; `None` is below all.
pub fn is_at_most(first: Option<Pair>, second: Option<Pair>) -> bool
    ensures { IsTrue result ↔ IsAtMost first second }
{
    match (first, second) {
        (None, _) => true,
        (Some(_), None) => false,
        (Some(p), Some(q)) => !q.is_below(p),
    }
}

impl Row {
    // Whether both rows are at one position, and both exist or neither.
    fn is_beside(&self, other: &Row) -> bool
        ensures { IsTrue result → (self.now.position ≡ other.now.position) × (self.now.exists ≡ other.now.exists) }
    {
        self.position == other.position && self.exists == other.exists
    }

    // Whether each call that may have met something else in the other row may have in this one.
    fn is_as_late(&self, other: &Row) -> bool
        ensures { IsTrue result → (other.now.flipped_at ≤ self.now.flipped_at) × (other.now.arrived_at ≤ self.now.arrived_at) }
    {
        other.flipped_at <= self.flipped_at && other.arrived_at <= self.arrived_at
    }

    // Whether no more deletes, indexes and creates without a reply and without a condition were performed.
    fn is_as_sparing(&self, other: &Row) -> bool
        ensures { IsTrue result → (self.now.deletes ≤ other.now.deletes) × (self.now.makes ≤ other.now.makes) }
    {
        self.deletes <= other.deletes && self.makes <= other.makes
    }

    // Whether each conflict that has to be performed in this row, or was, has to be or was in the other one, and no more
    // other writes were performed.
    fn is_as_free(&self, other: &Row) -> bool
        ensures { IsTrue result → IsAsFree (branch_of self.now) (branch_of other.now) }
    {
        are_in(&self.owed, &other.owed)
            && are_in(&self.spent, &other.spent)
            && self.is_as_sparing(other)
    }

    /// Returns whether the row is no worse than another one: whatever the other one allows, it allows too.
    pub(crate) fn covers(&self, other: &Row) -> bool
        ensures { (records : List Record) → IsPositioned records self.now → IsPositioned records other.now
            → IsTrue result → Covers records (branch_of self.now) (branch_of other.now) }
    {
        self.is_beside(other)
            && is_at_most(self.least, other.least)
            && self.is_as_late(other)
            && self.is_as_free(other)
    }
}
