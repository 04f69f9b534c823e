ghost use Rattle.std.specs.Prelude.{◌≡◌, ◌<◌, ◌≤◌, ◌↔◌, ◌⊎◌, IsTrue, set, true, MatchOption, MatchResult, length, take, Some, slice_get};
ghost use Rattle.places.specs.declared.broken.Broken.TheVariants.{PairMissing, PairGiven};
ghost use Rattle.places.specs.Places.{IsHeardBefore, IsUnansweredGet};
ghost use Rattle.places.specs.Faults.{IsFirstFault};
ghost use Rattle.places.specs.aids.Walks.{IsNextStep, IsWalked};

use crate::broken::Broken;
use crate::place::Place;
use crate::place_check::{gives_as_may, named_record, step_at};
use doc_register::{Conflicts, DocState, Op, Reply};
use events::Rec;

/// What the check knows after some places.
#[derive(Drop)]
pub struct Walk {
    /// Which records are named.
    pub marks: Vec<bool>,
    /// The greatest position of a call among those of the records that are named, 0 if no record is named.
    pub latest: usize,
    /// The document after the calls of the places.
    pub state: DocState,
}

// Whether the record is of a get without a reply.
fn is_unanswered_get(found: Rec) -> bool
    ensures { IsTrue result ↔ IsUnansweredGet found }
{
    found.op == Op::Get && found.heard.is_none()
}

// Whether a reply was heard, and before the position.
fn is_before(heard: Option<(usize, Reply)>, place: usize) -> bool
    ensures { IsTrue result ↔ IsHeardBefore heard place }
{
    match heard {
        Some(heard) => heard.0 < place,
        None => false,
    }
}

// Whether the record's reply was heard before its own call, or before the position.
fn is_late(found: Rec, place: usize) -> bool
    ensures { IsTrue result
        ↔ (IsHeardBefore found.heard found.call_at ⊎ IsHeardBefore found.heard place) }
{
    is_before(found.heard, found.call_at) || is_before(found.heard, place)
}

// The fault of a place that gives a pair although it may not, or gives none although it must.
fn pair_fault(heard: Option<(usize, Reply)>, i: usize) -> Broken
    ensures { MatchOption heard (result ≡ PairMissing i) (λ _. result ≡ PairGiven i) }
{
    match heard {
        Some(_) => Broken::PairGiven(i),
        None => Broken::PairMissing(i),
    }
}

/// Returns the record of the next place, and the document after its call; or the first fault, which is that
/// of this place.
pub fn next_step(
    records: &[Rec],
    places: &[Place],
    walk: &Walk,
    i: usize,
    conflicts: Conflicts,
) -> Result<(Rec, DocState), Broken>
    requires within { i < length places.now }
    requires walked { IsWalked conflicts records.now (take i places.now)
        walk.now.marks.items walk.now.latest walk.now.state }
    ensures { MatchResult result
        (λ next. IsNextStep conflicts records.now places.now i next.0 walk.now.state next.1)
        (IsFirstFault conflicts records.now places.now) }
{
    let place = places[i];
    let Some(found) = named_record(records, place) else {
        return Err(Broken::Stranger(i));
    };
    if is_unanswered_get(found) {
        return Err(Broken::Stranger(i));
    }
    if walk.is_marked(place.rec) {
        return Err(Broken::Twice(i));
    }
    if !gives_as_may(conflicts, found.heard, place.pair) {
        return Err(pair_fault(found.heard, i));
    }
    if is_late(found, walk.latest) {
        return Err(Broken::Late(i));
    }
    match step_at(walk.state, found, place.pair) {
        Some(state) => Ok((found, state)),
        None => Err(Broken::Illegal(i)),
    }
}

impl Walk {
    // Whether the record is named.
    fn is_marked(&self, rec: usize) -> bool
        requires { rec < length self.now.marks.items }
        ensures { slice_get self.now.marks.items rec ≡ Some result }
    {
        self.marks[rec]
    }

    /// Continues the walk over one more place.
    pub fn advance(&mut self, place: Place, found: Rec, state: DocState)
        requires { place.rec < length self.old.marks.items }
        ensures marks { self.new.marks.items ≡ set self.old.marks.items place.rec true }
        ensures state { self.new.state ≡ state }
        ensures latest { (self.old.latest ≤ self.new.latest) × (found.call_at ≤ self.new.latest)
            × ((self.new.latest ≡ self.old.latest) ⊎ (self.new.latest ≡ found.call_at)) }
    {
        self.marks[place.rec] = true;
        self.latest = self.latest.max(found.call_at);
        self.state = state;
    }
}
