ghost use Rattle.std.specs.Prelude.{◌≡◌, IfOk, MatchOption};
ghost use Rattle.doc_register.specs.declared.state.Conflicts.{Conflicts as Reading};
ghost use Rattle.doc_check.specs.NoOrders.{HasNoOrder};
ghost use Rattle.doc_check.specs.Search.{FindsUnpaired, FollowsReplies, IsAbout, IsOrderFor, id_of, conflict_mode_of, records_of};
ghost use Rattle.doc_check.specs.aids.CheckedPlaces.{IsChecked};
ghost use Rattle.doc_check.specs.aids.Sweep.{IsOfSweep};

use crate::complete::is_complete;
use crate::no_order::NoOrder;
use crate::order::order_of;
use crate::reply_order::reply_order;
use crate::stretches::Stretches;
use crate::sweep::sweep;
use completing_by_rules::complete_by_rules;
use completing_forward::{ForwardSearch, search_forward};
use doc_register::Conflicts;
use events::{Rec, Seen};
use places::{Broken, DocWitness, Place};
use std::alloc::{AllocError, Global};
use version_pair::{DocId, NoMemory, Pair};
use write_chain::{chain_of, rises};

/// The result of the search for a document.
#[derive(Debug, Drop)]
pub enum DocAnswer {
    /// An order that explains its calls.
    Found(DocWitness),
    /// No order was found, and there is none of the answered calls alone.
    NotFound(NoOrder),
}

/// The result of the search for a document that knows which pairs other documents use.
#[derive(Debug, Drop)]
pub enum OrderAmong {
    /// An order that explains its calls.
    Order(DocWitness),
    /// No order was found, which says nothing. If the search got anywhere, the position of the reply at which it
    /// was stuck: the latest such that all answered calls with an earlier reply had a place.
    Stuck(Option<usize>),
}

impl DocAnswer {
    /// Returns the id of the document that it is about.
    pub fn id(&self) -> &DocId
        ensures { result.now ≡ id_of self.now }
    {
        match self {
            DocAnswer::Found(witness) => witness.id(),
            DocAnswer::NotFound(none) => none.id(),
        }
    }

    /// Returns the records that it is about.
    pub fn records(&self) -> &[Rec]
        ensures { result.now ≡ records_of self.now }
    {
        match self {
            DocAnswer::Found(witness) => witness.records(),
            DocAnswer::NotFound(none) => none.records(),
        }
    }

    /// Returns how conflicts are read.
    pub fn conflicts(&self) -> Conflicts
        ensures { result ≡ conflict_mode_of self.now }
    {
        match self {
            DocAnswer::Found(witness) => witness.conflicts(),
            DocAnswer::NotFound(none) => none.conflicts(),
        }
    }
}

// The order of the answered records that the sweep gives; `None` if it finds that there is none.
fn sweep_order(alloc: Global, records: &[Rec]) -> Result<Option<Vec<Place>>, NoMemory>
    ensures { IfOk result (λ swept. (conflicts : Reading) → MatchOption swept (HasNoOrder conflicts records.now)
        (λ places. IsOfSweep conflicts records.now places.items)) }
{
    let chain = chain_of(alloc, records)?;
    if !rises(&chain) {
        return Ok(None);
    }
    let stretches = Stretches::of(alloc, records, chain)?;
    match sweep(alloc, records, &stretches)? {
        Some(given) => {
            // The order doesn't need the stretches, and they take as much memory as its own lists.
            drop(stretches);
            Ok(Some(order_of(alloc, records, &given)?))
        }
        None => Ok(None),
    }
}

// The result of the check of places: they are an order of the document's calls, or they are not.
#[derive(Drop)]
enum CheckedPlaces {
    Valid(DocWitness),
    // With the id and the records again.
    Invalid(DocId, Vec<Rec>),
}

// Checks an order that was found.
fn check_places(
    alloc: Global,
    id: DocId,
    recs: Vec<Rec>,
    places: Vec<Place>,
    conflicts: Conflicts,
) -> Result<CheckedPlaces, NoMemory>
    ensures { IfOk result (IsChecked id recs.items places.items conflicts) }
{
    match DocWitness::check(alloc, id, recs, places, conflicts) {
        Ok(witness) => Ok(CheckedPlaces::Valid(witness)),
        Err((fault, id, recs, _)) => match fault {
            Broken::NoMemory => Err(AllocError),
            _ => Ok(CheckedPlaces::Invalid(id, recs)),
        },
    }
}

// The result if the rules find no valid order: an order that completes unanswered writes by a search forward
// in time, if that is valid.
fn answer_forward(
    alloc: Global,
    id: DocId,
    recs: Vec<Rec>,
    seen: Seen,
    conflicts: Conflicts,
) -> Result<DocAnswer, NoMemory>
    requires { HasNoOrder conflicts recs.items }
    ensures { IfOk result (IsAbout id recs.items conflicts) }
{
    if is_complete(&recs, conflicts) {
        return Ok(DocAnswer::NotFound(NoOrder::of(id, recs, conflicts)));
    }
    match search_forward(alloc, &recs, seen, conflicts, &[], &[])? {
        ForwardSearch::Found(places) => match check_places(alloc, id, recs, places, conflicts)? {
            CheckedPlaces::Valid(witness) => Ok(DocAnswer::Found(witness)),
            CheckedPlaces::Invalid(id, recs) => {
                Ok(DocAnswer::NotFound(NoOrder::of(id, recs, conflicts)))
            }
        },
        ForwardSearch::Stuck(_) => Ok(DocAnswer::NotFound(NoOrder::of(id, recs, conflicts))),
    }
}

// The result if no order of the answered calls alone is valid: an order that completes unanswered writes by
// rules, if that is valid, and otherwise by the search forward.
fn answer_by_rules(
    alloc: Global,
    id: DocId,
    recs: Vec<Rec>,
    seen: Seen,
    conflicts: Conflicts,
) -> Result<DocAnswer, NoMemory>
    requires { HasNoOrder conflicts recs.items }
    ensures { IfOk result (IsAbout id recs.items conflicts) }
{
    match complete_by_rules(alloc, &recs, seen, conflicts)? {
        Some(places) => match check_places(alloc, id, recs, places, conflicts)? {
            CheckedPlaces::Valid(witness) => Ok(DocAnswer::Found(witness)),
            CheckedPlaces::Invalid(id, recs) => answer_forward(alloc, id, recs, seen, conflicts),
        },
        None => answer_forward(alloc, id, recs, seen, conflicts),
    }
}

// The result if response order is not valid.
fn answer_by_sweep(
    alloc: Global,
    id: DocId,
    recs: Vec<Rec>,
    seen: Seen,
    conflicts: Conflicts,
) -> Result<DocAnswer, NoMemory>
    ensures about { IfOk result (IsAbout id recs.items conflicts) }
    ensures complete { IfOk result (FindsUnpaired conflicts recs.items) }
{
    match sweep_order(alloc, &recs)? {
        Some(places) => match check_places(alloc, id, recs, places, conflicts)? {
            CheckedPlaces::Valid(witness) => Ok(DocAnswer::Found(witness)),
            CheckedPlaces::Invalid(id, recs) => answer_by_rules(alloc, id, recs, seen, conflicts),
        },
        None => answer_by_rules(alloc, id, recs, seen, conflicts),
    }
}

/// Returns an order of a document's calls that explains them, if one is found.
///
/// Response order is tried first; then the sweep, which finds an order of the answered calls alone if there
/// is one; then the rules, which complete unanswered writes; and last the search forward in time, which
/// completes them too. So of a document each of whose writes has a reply (under Maybe one other than a
/// conflict) an order is found exactly if there is one. That nearly all orders of honest recordings with lost
/// writes are found is tested. If memory is refused, the id and the records are dropped.
pub fn answer(
    alloc: Global,
    id: DocId,
    recs: Vec<Rec>,
    seen: Seen,
    conflicts: Conflicts,
) -> Result<DocAnswer, NoMemory>
    // The answer is about the id, the records and the reading that were passed in: an order that is found is
    // valid for them; if none is found, no places without a given pair are.
    ensures about { IfOk result (IsAbout id recs.items conflicts) }
    // If the order of the replies is valid, it is the one that is found.
    ensures replies { IfOk result (FollowsReplies conflicts recs.items) }
    // If any places without a given pair are valid, such places are found.
    ensures complete { IfOk result (FindsUnpaired conflicts recs.items) }
{
    let places = reply_order(alloc, &recs)?;
    match check_places(alloc, id, recs, places, conflicts)? {
        CheckedPlaces::Valid(witness) => Ok(DocAnswer::Found(witness)),
        CheckedPlaces::Invalid(id, recs) => answer_by_sweep(alloc, id, recs, seen, conflicts),
    }
}

/// Returns an order of a document's calls that explains them, if the search forward in time finds one. This
/// search knows which pairs the documents of the shard use, by rising pair; the document's own may be among
/// them. It invents pairs only if one is left. If memory is refused, the id and the records are dropped.
pub fn answer_among(
    alloc: Global,
    id: DocId,
    recs: Vec<Rec>,
    seen: Seen,
    conflicts: Conflicts,
    used: &[Pair],
) -> Result<OrderAmong, NoMemory>
    // An order that is found is of the id, the records and the reading that were passed in, and valid for
    // them.
    ensures { IfOk result (IsOrderFor id recs.items conflicts) }
{
    if is_complete(&recs, conflicts) {
        return Ok(OrderAmong::Stuck(None));
    }
    match search_forward(alloc, &recs, seen, conflicts, used, &[])? {
        ForwardSearch::Found(places) => match check_places(alloc, id, recs, places, conflicts)? {
            CheckedPlaces::Valid(witness) => Ok(OrderAmong::Order(witness)),
            CheckedPlaces::Invalid(..) => Ok(OrderAmong::Stuck(None)),
        },
        ForwardSearch::Stuck(furthest) => Ok(OrderAmong::Stuck(furthest)),
    }
}
