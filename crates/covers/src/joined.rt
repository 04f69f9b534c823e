ghost use Rattle.std.specs.Prelude.{◌≡◌, Bool, IfOk, MatchOption, false, map, true};
ghost use Rattle.doc_check.specs.declared.search.DocAnswer.TheVariants.{Found as Ordered};
ghost use Rattle.doc_register.specs.declared.state.Conflicts.{Conflicts as Reading};
ghost use Rattle.events.specs.Events.{documents_of};
ghost use Rattle.covers.specs.Covers.{HasNoUnpairedCover};
ghost use Rattle.covers.specs.aids.Joined.{IsJoined};
ghost use Rattle.covers.specs.aids.Searched.{AreSearched, HasLost};

use crate::reordered::{NewPlaces, with_new_places};
use doc_check::DocAnswer;
use events::Front;
use places::DocWitness;
use shard_numbers::{Change, GapNumbers, Gaps, Shortage, UsedPairs, numbers_of, pair_twice};
use std::alloc::Global;
use version_pair::NoMemory;

/// What the witnesses of all documents are together.
#[derive(Drop)]
pub enum Joined {
    /// They cover the history, if needed with other numbers for invented pairs.
    Cover(Vec<DocWitness>),
    /// The witnesses are handed back: too few numbers are free for the pairs that they invent.
    Short(Vec<DocWitness>, Shortage),
    /// They are no cover, and there is nothing that another look could mend.
    Spent,
}

/// Returns whether a document has no order.
pub fn has_lost(answers: &[DocAnswer]) -> bool
    ensures { result ≡ true → HasLost answers.now }
{
    for answer in answers {
        match answer {
            DocAnswer::NotFound(_) => return true,
            DocAnswer::Found(_) => {}
        }
    }
    false
}

/// Returns the witnesses, if each document has one.
pub fn witnesses_of(
    alloc: Global,
    answers: Vec<DocAnswer>,
) -> Result<Option<Vec<DocWitness>>, NoMemory>
    ensures { IfOk result (λ found. MatchOption found (HasLost answers.items)
        (λ ws. answers.items ≡ map Ordered ws.items)) }
{
    let mut witnesses = Vec::with_capacity(alloc, answers.len())?;
    for answer in answers {
        match answer {
            DocAnswer::Found(witness) => witnesses.push(witness)?,
            DocAnswer::NotFound(_) => return Ok(None),
        }
    }
    Ok(Some(witnesses))
}

// Returns what the witnesses are together, with other pairs for some of their places.
fn join_changed(
    alloc: Global,
    history: &Front<'_>,
    witnesses: Vec<DocWitness>,
    changes: &[Change],
) -> Result<Joined, NoMemory>
    ensures { IfOk result (λ joined. (conflicts : Reading) (first : Bool)
        → AreSearched conflicts history.now first (documents_of history.now) witnesses.items
        → (first ≡ true → HasNoUnpairedCover conflicts history.now)
        → IsJoined conflicts history.now first joined) }
{
    let Some(others) = with_new_places(alloc, witnesses, NewPlaces::Paired(changes))? else {
        return Ok(Joined::Spent);
    };
    match pair_twice(alloc, history, &others)? {
        Some(_) => Ok(Joined::Spent),
        None => Ok(Joined::Cover(others)),
    }
}

/// Returns what the witnesses of all documents, which have these gaps, are together with other numbers for
/// the pairs that they invent, given which pairs are in use.
pub fn renumbered(
    alloc: Global,
    history: &Front<'_>,
    witnesses: Vec<DocWitness>,
    gaps: Gaps,
    used: &UsedPairs,
) -> Result<Joined, NoMemory>
    ensures { IfOk result (λ joined. (conflicts : Reading) (first : Bool)
        → AreSearched conflicts history.now first (documents_of history.now) witnesses.items
        → (first ≡ true → HasNoUnpairedCover conflicts history.now)
        → IsJoined conflicts history.now first joined) }
{
    match numbers_of(alloc, history.keys(), &witnesses, &gaps, used)? {
        GapNumbers::Given(changes) => join_changed(alloc, history, witnesses, &changes),
        GapNumbers::Short(tight) => Ok(Joined::Short(witnesses, Shortage { gaps, tight })),
        GapNumbers::Spent => Ok(Joined::Spent),
    }
}

/// Returns what the witnesses of all documents are together, if needed with other numbers for the pairs that
/// they invent, given which pairs are in use.
pub fn joined_again(
    alloc: Global,
    history: &Front<'_>,
    witnesses: Vec<DocWitness>,
    used: &UsedPairs,
) -> Result<Joined, NoMemory>
    ensures { IfOk result (λ joined. (conflicts : Reading)
        → AreSearched conflicts history.now false (documents_of history.now) witnesses.items
        → IsJoined conflicts history.now false joined) }
{
    match pair_twice(alloc, history, &witnesses)? {
        None => Ok(Joined::Cover(witnesses)),
        Some(_) => {
            let gaps = Gaps::of(alloc, history, &witnesses)?;
            renumbered(alloc, history, witnesses, gaps, used)
        }
    }
}
