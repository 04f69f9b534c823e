ghost use Rattle.std.specs.Prelude.{◌<◌, length};
ghost use Rattle.events.specs.Events.{documents_of};

use crate::past::Past;
use crate::suspicion::first_contradiction;
use crate::window::{later, window_of};
use doc_check::{DocAnswer, answer};
use doc_register::Conflicts;
use events::{Front, History, Rec, Seen};
use std::alloc::Global;
use version_pair::{DocId, NoMemory};

// A document for which the search finds no order.
#[derive(Drop)]
struct Unordered<'a> {
    id: &'a DocId,
    records: &'a [Rec],
    seen: Seen,
    conflicts: Conflicts,
}

// The indices of the replies to the calls of a document, rising.
fn reply_places(alloc: Global, records: &[Rec]) -> Result<Vec<usize>, NoMemory> {
    let mut places = Vec::new(alloc);
    for found in records {
        if let Some(heard) = found.heard {
            places.push(heard.0)?;
        }
    }
    places.sort_unstable();
    Ok(places)
}

impl Unordered<'_> {
    // Whether the search finds an order of the calls up to this index, as far as the calls since the past
    // show it.
    fn has_order_to(&self, alloc: Global, past: &Past, place: usize) -> Result<bool, NoMemory> {
        let window = window_of(alloc, past, self.records, place, self.conflicts)?;
        match answer(alloc, self.id.copy()?, window, self.seen, self.conflicts)? {
            DocAnswer::Found(_) => Ok(true),
            DocAnswer::NotFound(_) => Ok(false),
        }
    }

    // The index of the reply at which the search seems to fail first. It is found by bisection over the
    // replies; each time only the calls are searched from shortly before the last reply with an order on.
    fn first_failing(&self, alloc: Global) -> Result<Option<usize>, NoMemory> {
        let replies = reply_places(alloc, self.records)?;
        let mut past = Past::new(alloc);
        // There is an order up to the reply before these, and none up to the last of them.
        let mut places = replies.as_slice();
        for _ in 0..usize::BITS {
            let (before, after) = places.split_at(places.len() / 2);
            let Some(place) = before.last() else {
                break;
            };
            if self.has_order_to(alloc, &past, *place)? {
                past.advance(self.records, *place, self.conflicts)?;
                places = after;
            } else {
                places = before;
            }
        }
        Ok(places.last().copied())
    }
}

// The index of the reply at which the search for this document seems to fail first, if it fails.
fn first_failing_of(
    alloc: Global,
    front: &Front<'_>,
    doc: usize,
    seen: Seen,
    conflicts: Conflicts,
) -> Result<Option<usize>, NoMemory>
    requires { doc < length (documents_of front.now) }
{
    let records = front.records(doc)?;
    let id = front.doc(doc).copy()?;
    match answer(alloc, id, records, seen, conflicts)? {
        DocAnswer::Found(_) => Ok(None),
        DocAnswer::NotFound(none) => {
            let unordered = Unordered {
                id: none.id(),
                records: none.records(),
                seen,
                conflicts,
            };
            unordered.first_failing(alloc)
        }
    }
}

// The index of the reply at which the search for the only document seems to fail first, if it fails on these
// events.
fn first_failing_alone(
    alloc: Global,
    front: &Front<'_>,
    conflicts: Conflicts,
) -> Result<Option<usize>, NoMemory> {
    if front.docs() == 0 {
        return Ok(None);
    }
    let records = front.records(0)?;
    let unordered = Unordered {
        id: front.doc(0),
        records: &records,
        seen: front.seen(),
        conflicts,
    };
    unordered.first_failing(alloc)
}

// The events before the index, or all events if there is none.
fn front_to(history: &History, place: Option<usize>) -> Front<'_> {
    match place {
        Some(place) => history.front(place),
        None => history.whole(),
    }
}

// A guess at the first reply at which the search finds no order of the events up to it. It is `suspect` if
// each of these documents has an order of the events before that. For a history without a suspect it may be
// `None`.
//
// Each of the documents is searched once, on the events before the index that the earlier ones gave. If it
// has no order, its replies are searched by bisection, on windows of its calls; all windows together cost
// about one more search. The only document of a history is searched by bisection at once.
fn narrow(
    alloc: Global,
    history: &History,
    conflicts: Conflicts,
    docs: &[usize],
    suspect: Option<usize>,
) -> Result<Option<usize>, NoMemory> {
    if history.docs() == 1 {
        let end = suspect.map(|place| later(place, 1));
        return first_failing_alone(alloc, &front_to(history, end), conflicts);
    }
    let seen = history.seen();
    let mut first = suspect;
    for doc in docs {
        let front = front_to(history, first);
        if *doc >= front.docs() {
            break;
        }
        if let Some(place) = first_failing_of(alloc, &front, *doc, seen, conflicts)? {
            first = Some(place);
        }
    }
    Ok(first)
}

/// Returns a guess at the first reply at which the search finds no order of the events up to it, as its
/// index. It is a reply that contradicts an earlier one by the pairs that both show, or an earlier one to
/// which bisection over the replies of a document by itself leads. The documents are those for which the
/// search finds no order, by their numbers, rising. The guess may be `None`.
///
/// It comes with no guarantee, since what came before a window of calls is only summarised: the two searches
/// of `compose::first_offence` decide.
pub fn guess(
    alloc: Global,
    history: &History,
    conflicts: Conflicts,
    docs: &[usize],
) -> Result<Option<usize>, NoMemory> {
    let suspect = first_contradiction(alloc, history)?;
    narrow(alloc, history, conflicts, docs, suspect)
}
