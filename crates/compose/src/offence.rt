ghost use Rattle.std.specs.Prelude.{◌≡◌, ◌<◌, ◌≤◌, ◌-◌, IfOk, IfSome, OnOk, length};
ghost use Rattle.compose.specs.Offences.{IsOffence};
ghost use Rattle.compose.specs.aids.Replies.{AreReplies, IsNarrower, IsReplyPlace, IsWrongAt, IsWrongFrom, IsWrongUnlessFound, places_with};

use crate::case::Case;
use crate::checking::{SearchOutcome, is_explained, search_outcome};
use doc_register::Conflicts;
use events::laws::late_calls;
use events::{Event, History};
use narrowing::guess;
use std::alloc::Global;
use version_pair::NoMemory;

// The greatest number of guesses before the bisection.
const MOST_GUESSES: usize = 4;

/// The reply at which the search for an order first fails.
#[derive(Clone, Copy, Debug, PartialEq, Eq)]
pub struct Offence {
    /// The position of the reply, from 0: the events up to and including it have no order that the search
    /// finds.
    pub event: usize,
    /// The number of the call that it answers.
    pub call: u64,
    /// Whether the events before it have one.
    pub before_shown: bool,
}

// Adds the position of an event, if it is a reply.
fn note_reply(places: &mut Vec<usize>, event: &Event, place: usize) -> Result<(), NoMemory>
    ensures { OnOk result (places.new.items ≡ places_with event.now place places.old.items) }
{
    match event {
        Event::Reply { .. } => {
            places.push(place)?;
            Ok(())
        }
        Event::Call { .. } | Event::Lost { .. } => Ok(()),
    }
}

// The positions of the replies, in their order.
fn reply_places(alloc: Global, history: &History) -> Result<Vec<usize>, NoMemory>
    ensures { IfOk result (λ places. AreReplies history.now (length history.now) places.items) }
{
    let mut places = Vec::new(alloc);
    for place in 0..history.len() {
        note_reply(&mut places, history.event(place), place)?;
    }
    Ok(places)
}

// What the search finds of the events up to and including this position.
fn search_outcome_to(
    alloc: Global,
    history: &History,
    conflicts: Conflicts,
    place: usize,
) -> Result<SearchOutcome, NoMemory>
    requires { place < length history.now }
    ensures { IfOk result (IsWrongUnlessFound history.now place) }
{
    // A look at the history: that its positions are small numbers is known from here on.
    let _ = history.len();
    search_outcome(alloc, &history.front(place + 1), conflicts)
}

// The index of the reply to try next, in `low..high`: the guess, if it is among them; if it is before them,
// `low` plus about three times its distance; the middle if that is nearer, or there is no guess.
fn next_tried(places: &[usize], low: usize, high: usize, guessed: Option<usize>) -> usize
    requires order { low < high }
    ensures from { low ≤ result }
    ensures below { result < high }
{
    let half = (high - low) / 2;
    let Some(place) = guessed else {
        return low + half;
    };
    let at = places.partition_point(|entry| *entry < place);
    if low <= at && at < high {
        return at;
    }
    let more = low.saturating_sub(at).saturating_sub(1).saturating_mul(3);
    if at < low && more < half {
        return low + more;
    }
    low + half
}

// What is known of the reply at which the search first fails.
#[derive(Clone, Copy)]
struct Guesses {
    // The next guess, if there is one.
    next: Option<usize>,
    // How many events an order was found for.
    shown: usize,
    // How many replies before one that fails are passed over, if the search names this very one.
    back: usize,
}

impl Guesses {
    // The guesses after a failure at the reply of this index. The next is the reply that this search gave, if
    // that is earlier. If it gave this one, it is the reply before, and twice as far before each time. Else it
    // is the same as before, unless it was the guess that failed.
    fn after_failure(self, places: &[usize], at: usize, found: Option<usize>) -> Guesses {
        let place = places.get(at).copied();
        let mut guesses = self;
        match found {
            Some(earlier) if Some(earlier) < place => guesses.next = Some(earlier),
            Some(_) => {
                guesses.next = places.get(at.saturating_sub(self.back)).copied();
                guesses.back = self.back.saturating_mul(2);
            }
            None if self.next == place => guesses.next = None,
            None => {}
        }
        guesses
    }
}

// Fewer of the replies from `low` to `high`, if the search fails at `high`: those up to one at which it
// fails, or those after one at which it finds an order. The guess is replaced by another one.
fn narrower(
    alloc: Global,
    history: &History,
    conflicts: Conflicts,
    places: &[usize],
    low: usize,
    high: usize,
    guesses: &mut Guesses,
) -> Result<(usize, usize), NoMemory>
    requires order { low < high }
    requires within { high < length places.now }
    requires replies { AreReplies history.now (length history.now) places.now }
    ensures { IfOk result (IsNarrower history.now places.now low high) }
{
    let at = next_tried(places, low, high, guesses.next);
    match search_outcome_to(alloc, history, conflicts, places[at])? {
        SearchOutcome::Found => Ok((at + 1, high)),
        SearchOutcome::NotFound(found) => {
            *guesses = guesses.after_failure(places, at, found);
            Ok((low, at))
        }
    }
}

// The first of the replies at these positions at which the search fails, if it fails at the last: those that
// are left become fewer until there is one. The search fails at a reply if it finds no order of the events up
// to it.
fn first_wrong(
    alloc: Global,
    history: &History,
    conflicts: Conflicts,
    places: &[usize],
    guesses: Guesses,
) -> Result<usize, NoMemory>
    requires some { 0 < length places.now }
    requires replies { AreReplies history.now (length history.now) places.now }
    requires wrong { IsWrongFrom history.now places.now (length places.now - 1) }
    ensures reply { IfOk result (IsReplyPlace history.now) }
    ensures wrong { IfOk result (IsWrongAt history.now) }
{
    let mut guesses = guesses;
    let shown = guesses.shown;
    let low = places.partition_point(|place| *place < shown);
    let mut left = (low.min(places.len() - 1), places.len() - 1);
    while left.0 < left.1 {
        left = narrower(
            alloc,
            history,
            conflicts,
            places,
            left.0,
            left.1,
            &mut guesses,
        )?;
    }
    Ok(places[left.1])
}

// The offence at a reply at which the search fails.
fn offence_at(
    alloc: Global,
    history: &History,
    conflicts: Conflicts,
    place: usize,
) -> Result<Offence, NoMemory>
    requires reply { IsReplyPlace history.now place }
    requires wrong { IsWrongAt history.now place }
    ensures { IfOk result (IsOffence conflicts history.now) }
{
    let before_shown = is_explained(alloc, &history.front(place), conflicts)?;
    match history.event(place) {
        Event::Reply { no, .. } => Ok(Offence {
            event: place,
            call: *no,
            before_shown,
        }),
        Event::Call { .. } | Event::Lost { .. } => unreachable!(),
    }
}

// The offence at this reply, if the search finds an order of all events before and fails there. If it fails
// on the events before, `next` is another guess, if there is one; if it finds an order of the events up to
// the reply, `next` is the event after it.
fn offence_if(
    alloc: Global,
    history: &History,
    conflicts: Conflicts,
    place: usize,
    guesses: &mut Guesses,
) -> Result<Option<Offence>, NoMemory>
    ensures { IfOk result (λ found. IfSome found (IsOffence conflicts history.now)) }
{
    guesses.next = None;
    if place >= history.len() {
        return Ok(None);
    }
    let Event::Reply { no, .. } = history.event(place) else {
        return Ok(None);
    };
    match search_outcome(alloc, &history.front(place), conflicts)? {
        SearchOutcome::Found => guesses.shown = guesses.shown.max(place),
        SearchOutcome::NotFound(earlier) => {
            guesses.next = earlier;
            return Ok(None);
        }
    }
    match search_outcome_to(alloc, history, conflicts, place)? {
        SearchOutcome::Found => {
            let more = place + 1;
            guesses.next = Some(more);
            guesses.shown = guesses.shown.max(more);
            Ok(None)
        }
        SearchOutcome::NotFound(_) => Ok(Some(Offence {
            event: place,
            call: *no,
            before_shown: true,
        })),
    }
}

// A guess at the reply at which the search first fails.
fn first_guess(alloc: Global, case: &Case) -> Result<Option<usize>, NoMemory> {
    match case.short_at() {
        Some(place) => Ok(Some(place)),
        None => guess(alloc, case.history(), case.conflicts(), case.unordered()),
    }
}

/// Returns the reply at which the search first fails, its call, and whether the events before it have an
/// order.
///
/// At most four guesses come first: a guess is right if the search finds an order of the events before the
/// reply and none with it. Else the replies are bisected. After a guess that was too early, replies shortly
/// after it are tried; a failure for lack of numbers gives another guess, which is tried instead of the
/// middle.
pub fn first_offence(alloc: Global, case: &Case) -> Result<Offence, NoMemory>
    // `event` is the position of a reply of the history, and `call` the number of the call that it answers.
    // The events up to it are not legal in response order. If `before_shown` is true, those before it are
    // linearizable; if it is false, no entries without a given pair cover them.
    ensures { IfOk result (IsOffence case.now.conflicts case.now.events) }
{
    let history = case.history();
    let conflicts = case.conflicts();
    let mut guesses = Guesses {
        next: first_guess(alloc, case)?,
        shown: 0,
        back: 1,
    };
    for _ in 0..MOST_GUESSES {
        let Some(place) = guesses.next else {
            break;
        };
        if let Some(offence) = offence_if(alloc, history, conflicts, place, &mut guesses)? {
            return Ok(offence);
        }
        if guesses.next > Some(place) {
            break;
        }
    }
    let places = reply_places(alloc, history)?;
    // From here on it is known that calls after the last reply don't change whether a history is legal in
    // response order.
    late_calls();
    let place = first_wrong(alloc, history, conflicts, &places, guesses)?;
    offence_at(alloc, history, conflicts, place)
}
