use crate::in_text::{is_twin, record_in_text};
use crate::order_search::OrderSearch;
use crate::subject::Explained;
use crate::subjects::Subjects;
use crate::window::window_before;
use doc_register::{DocState, state_after};
use events::Rec;
use places::{DocWitness, Place};
use readings::WayBack;
use std::alloc::Global;
use version_pair::{DocId, NoMemory};

/// A place of an order: its call, and the state of the document after it.
#[derive(Clone, Copy)]
pub struct OrderStep {
    /// The call, as the text has it.
    pub record: Rec,
    /// Whether its write is performed here for a second time, as a reading allows.
    pub is_again: bool,
    pub state: DocState,
    /// Whether the call changed the document.
    pub is_change: bool,
    /// The moment at which it takes effect: the position of the last call up to this place.
    pub point: usize,
}

/// How much of an order is shown.
#[derive(Clone, Copy)]
pub struct OrderExtent {
    /// The least number of calls that the search is given, if there are so many.
    pub least: usize,
    /// The greatest number of places that are shown, the last ones.
    pub most: usize,
}

/// An order of the calls of a document, or the end of one.
#[derive(Drop)]
pub struct OrderBefore {
    /// The number of places before those that are shown.
    pub left_out: usize,
    /// The state of the document before the first place that is shown.
    pub start: DocState,
    pub steps: Vec<OrderStep>,
}

// Returns the step at a place, from this state and moment, of this call of what was judged.
fn step_from(
    back: &WayBack<'_>,
    state: DocState,
    point: usize,
    place: Place,
    judged: Rec,
) -> OrderStep {
    let taken = place.pair.or(judged.pair_taken());
    let record = record_in_text(back, &judged);
    OrderStep {
        record,
        is_again: is_twin(back.writes, judged.no),
        state: match taken {
            Some(pair) => state_after(state, &judged.op, pair),
            None => state,
        },
        is_change: taken.is_some(),
        point: point.max(record.call_at),
    }
}

// Returns the last places of a witness, at most that many, without the first `unreported` ones.
fn last_steps(
    alloc: Global,
    back: &WayBack<'_>,
    witness: &DocWitness,
    unreported: usize,
    most: usize,
) -> Result<OrderBefore, NoMemory> {
    let places = witness.places();
    // If there are no more places than that, the first one is shown.
    let first = places.len().saturating_sub(most).max(unreported);
    let mut state = DocState::Never;
    let mut point = 0usize;
    let mut order = OrderBefore {
        left_out: first - unreported,
        start: state,
        steps: Vec::new(alloc),
    };
    for i in 0..places.len() {
        if i == first {
            order.start = state;
        }
        let step = step_from(back, state, point, places[i], witness.call(i));
        state = step.state;
        point = step.point;
        if i >= first {
            order.steps.push(step)?;
        }
    }
    Ok(order)
}

/// Returns the order of the witness, which is of what was judged, by the calls of the text.
pub fn order_of_witness(
    alloc: Global,
    explained: &Explained<'_>,
    witness: &DocWitness,
) -> Result<OrderBefore, NoMemory> {
    last_steps(alloc, &explained.back(), witness, 0, usize::MAX)
}

// Returns the calls of the document in what was judged, if it is there.
fn judged_records(subjects: &Subjects<'_>, id: &DocId) -> Result<Option<Vec<Rec>>, NoMemory> {
    let history = subjects.account.judged.history;
    match history.doc_of(id) {
        Some(doc) if doc < history.docs() => Ok(Some(history.records(doc)?)),
        _ => Ok(None),
    }
}

// Returns how many of the last calls of what was judged have that many calls of the text among them.
fn least_judged(subjects: &Subjects<'_>, judged: &[Rec], least: usize) -> usize {
    let writes = subjects.account.reading.writes;
    let mut count = 0usize;
    let mut own = 0usize;
    for record in judged.iter().rev() {
        if own >= least {
            break;
        }
        // A history has too few calls for the sums to reach the greatest number.
        count = count.saturating_add(1);
        own = own.saturating_add(usize::from(!is_twin(writes, record.no)));
    }
    count
}

/// Returns the last places, to this extent, of an order of the document's calls before the reply that broke it.
/// Returns `None` if the search finds no order.
pub fn order_before<S: OrderSearch>(
    alloc: Global,
    subjects: &Subjects<'_>,
    search: &S,
    id: &DocId,
    extent: OrderExtent,
) -> Result<Option<OrderBefore>, NoMemory> {
    let judged = &subjects.account.judged;
    let event = judged.event;
    let conflicts = judged.conflicts;
    let Some(records) = judged_records(subjects, id)? else {
        return Ok(None);
    };
    let least = least_judged(subjects, &records, extent.least);
    let window = window_before(alloc, &records, event, conflicts, least)?;
    let unreported = if window.is_prefixed { 1 } else { 0 };
    let answered_before = window.answered_before;
    let seen = judged.history.front(event).seen();
    let found = search.order(alloc, id.copy()?, window.records, seen, conflicts)?;
    match found {
        Some(witness) => {
            let back = subjects.account.whole_back();
            let mut order = last_steps(alloc, &back, &witness, unreported, extent.most)?;
            // A document has too few calls for the sum to reach the greatest number.
            order.left_out = order.left_out.saturating_add(answered_before);
            Ok(Some(order))
        }
        None => Ok(None),
    }
}
