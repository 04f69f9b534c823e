ghost use Rattle.std.specs.Prelude.{Bool, IfOk, false, true};
ghost use Rattle.doc_register.specs.declared.state.Conflicts.{Conflicts as Reading};
ghost use Rattle.events.specs.Events.{documents_of};
ghost use Rattle.covers.specs.Answered.{AreAnswersFor, IsCovered};
ghost use Rattle.covers.specs.aids.Searched.{AreSearched};

use crate::joined::{Joined, has_lost, joined_again, renumbered, witnesses_of};
use crate::second_look::{SearchContext, orders_again, with_gaps_again};
use crate::third_look::cover_with_fewer;
use doc_check::DocAnswer;
use events::Front;
use places::DocWitness;
use shard_numbers::{Gaps, Shortage, UsedPairs, pair_twice};
use std::alloc::Global;
use version_pair::NoMemory;

/// Whether orders of the documents are found that together explain the history.
#[derive(Debug, Drop)]
pub enum Covering {
    /// They are found: witnesses that cover it.
    Found(Vec<DocWitness>),
    /// They aren't found.
    NotFound(NotCovered),
}

/// Why no orders are found that together explain a history, if that is because numbers are too few.
#[derive(Debug, Drop)]
pub struct NotCovered {
    /// The position of the reply with which they seem to become so.
    pub short_at: Option<usize>,
    /// The numbers of the documents that need more than are free, rising.
    pub scarce: Vec<usize>,
}

impl NotCovered {
    /// Returns that it isn't because of that, or isn't known to be.
    pub fn otherwise(alloc: Global) -> NotCovered {
        NotCovered {
            short_at: None,
            scarce: Vec::new(alloc),
        }
    }
}

// Takes a second and a third look, if the documents want more numbers than are free.
fn cover_scarce(
    alloc: Global,
    history: &Front<'_>,
    witnesses: Vec<DocWitness>,
    shortage: Shortage,
    used: &UsedPairs,
) -> Result<Covering, NoMemory>
    ensures { IfOk result (λ found. (conflicts : Reading)
        → AreSearched conflicts history.now false (documents_of history.now) witnesses.items
        → IsCovered conflicts history.now false found) }
{
    let known = SearchContext {
        seen: history.seen(),
        used,
    };
    let others = with_gaps_again(alloc, history, witnesses, &shortage.gaps, known)?;
    let furthest = others.furthest;
    match joined_again(alloc, history, others.witnesses, used)? {
        Joined::Cover(others) => Ok(Covering::Found(others)),
        Joined::Short(others, shortage) => {
            cover_with_fewer(alloc, history, others, shortage, known, furthest)
        }
        Joined::Spent => Ok(Covering::NotFound(NotCovered::otherwise(alloc))),
    }
}

// Returns whether the witnesses of all documents cover the history, or others with other numbers or from
// another look do.
fn cover_witnesses(
    alloc: Global,
    history: &Front<'_>,
    witnesses: Vec<DocWitness>,
) -> Result<Covering, NoMemory>
    ensures { IfOk result (λ found. (conflicts : Reading) (first : Bool)
        → AreSearched conflicts history.now first (documents_of history.now) witnesses.items
        → IsCovered conflicts history.now first found) }
{
    match pair_twice(alloc, history, &witnesses)? {
        None => return Ok(Covering::Found(witnesses)),
        Some(_) => {}
    }
    let gaps = Gaps::of(alloc, history, &witnesses)?;
    let used = UsedPairs::taken(alloc, history, &witnesses, &gaps.kept)?;
    match renumbered(alloc, history, witnesses, gaps, &used)? {
        Joined::Cover(others) => Ok(Covering::Found(others)),
        Joined::Short(again, shortage) => { cover_scarce(alloc, history, again, shortage, &used) }
        Joined::Spent => Ok(Covering::NotFound(NotCovered::otherwise(alloc))),
    }
}

/// Returns whether witnesses cover the history: those of the answers, or, if two documents take one pair or a
/// document has no order, those that another look finds. The answers are those of its documents, in their
/// order. The only error is `NoMemory`.
pub fn cover_answers(
    alloc: Global,
    history: &Front<'_>,
    answers: Vec<DocAnswer>,
) -> Result<Covering, NoMemory>
    // If the answers are what the search first gave for the documents, witnesses that are found cover the
    // history; if none are found, no entries without a given pair cover it.
    ensures { IfOk result (λ found. (conflicts : Reading)
        → AreAnswersFor conflicts history.now true (documents_of history.now) answers.items
        → IsCovered conflicts history.now true found) }
{
    if has_lost(&answers) {
        return match orders_again(alloc, history, answers)? {
            Some(witnesses) => cover_witnesses(alloc, history, witnesses),
            None => Ok(Covering::NotFound(NotCovered::otherwise(alloc))),
        };
    }
    match witnesses_of(alloc, answers)? {
        Some(witnesses) => cover_witnesses(alloc, history, witnesses),
        None => Ok(Covering::NotFound(NotCovered::otherwise(alloc))),
    }
}
