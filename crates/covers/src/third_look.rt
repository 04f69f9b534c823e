ghost use Rattle.std.specs.Prelude.{IfOk, false};
ghost use Rattle.doc_register.specs.declared.state.Conflicts.{Conflicts as Reading};
ghost use Rattle.events.specs.Events.{documents_of};
ghost use Rattle.covers.specs.Answered.{IsCovered};
ghost use Rattle.covers.specs.aids.Searched.{AreSearched};

use crate::covering::{Covering, NotCovered};
use crate::doc_limits::DocLimits;
use crate::joined::{Joined, joined_again};
use crate::nearby::{Nearby, PartSearch};
use crate::reordered::{NewPlaces, with_new_places};
use crate::second_look::SearchContext;
use completing_forward::Limit;
use events::Front;
use places::{DocWitness, Place};
use shard_numbers::{Gap, Gaps, Shortage};
use std::alloc::Global;
use version_pair::NoMemory;

// The greatest number of documents that give way, one after the other.
const MOST_STEPS: usize = 64;

// The greatest number of gaps that are tried for one that can do with fewer numbers.
const MOST_TRIED: usize = 16;

// How many answered writes below and above a gap other orders may differ: first a few, then more.
const NEAR: usize = 12;

const FAR: usize = 100;

// Returns the limit of one insertion fewer than the gap has.
fn fewer_than(gap: &Gap) -> Option<Limit> {
    Some(Limit {
        lower: gap.numbers.from,
        upper: gap.numbers.upper,
        most: u64::try_from(gap.places.len()).ok()?.checked_sub(1)?,
    })
}

// What is asked of a document that can do with fewer numbers in a gap.
#[derive(Drop)]
struct Concession {
    doc: usize,
    limit: Limit,
    // The places of its other order.
    places: Vec<Place>,
    // How many more numbers it wants in all.
    more: usize,
}

// The witnesses of all documents, and what is known of them.
#[derive(Clone, Copy)]
struct Scene<'a, 'h> {
    history: &'a Front<'h>,
    witnesses: &'a [DocWitness],
    limits: &'a DocLimits,
    known: SearchContext<'a>,
}

impl<'a> Scene<'a, '_> {
    // Returns how many numbers another order of a document wants.
    fn wanted_by(self, alloc: Global, doc: usize, other: &DocWitness) -> Result<usize, NoMemory> {
        let mut gaps = Gaps::none(alloc);
        gaps.note(alloc, self.history, doc, other)?;
        Ok(gaps.wanted(doc))
    }

    // Returns the search of a part of the document of a gap.
    fn search_of(self, gap: &Gap, witness: &DocWitness, limits: &'a [Limit]) -> PartSearch<'a> {
        PartSearch {
            seen: self.known.seen,
            conflicts: witness.conflicts(),
            used: self.known.used.of_shard(gap.shard),
            limits,
        }
    }

    // Returns another order of the document of a gap within the limits, if one is found that differs only near
    // the gap.
    fn order_near(
        self,
        alloc: Global,
        gap: &Gap,
        witness: &DocWitness,
        limits: &[Limit],
    ) -> Result<Option<DocWitness>, NoMemory> {
        for reach in [NEAR, FAR] {
            if let Some(nearby) = Nearby::of(alloc, witness, gap, reach)? {
                let found = nearby.order(alloc, witness, self.search_of(gap, witness, limits))?;
                if found.is_some() {
                    return Ok(found);
                }
            }
        }
        Ok(None)
    }

    // Returns what to ask of the document of one of the gaps where numbers are short, if it can do with one
    // number fewer there.
    fn concession(
        self,
        alloc: Global,
        shortage: &Shortage,
        number: usize,
    ) -> Result<Option<Concession>, NoMemory> {
        let Some(gap) = shortage.tight_gap(number) else {
            return Ok(None);
        };
        let doc = gap.witness;
        let (Some(witness), Some(limit)) = (self.witnesses.get(doc), fewer_than(gap)) else {
            return Ok(None);
        };
        let limits = self.limits.with(alloc, doc, limit)?;
        let Some(other) = self.order_near(alloc, gap, witness, &limits)? else {
            return Ok(None);
        };
        let wanted = self.wanted_by(alloc, doc, &other)?;
        Ok(Some(Concession {
            doc,
            limit,
            places: other.into_parts().2,
            more: wanted.saturating_sub(shortage.gaps.wanted(doc)),
        }))
    }

    // Returns what to ask of the document that gives way where numbers are short and then wants the fewest more
    // numbers; the first that wants no more.
    fn best(self, alloc: Global, shortage: &Shortage) -> Result<Option<Concession>, NoMemory> {
        let mut best: Option<Concession> = None;
        for number in 0..shortage.tight.len().min(MOST_TRIED) {
            let Some(found) = self.concession(alloc, shortage, number)? else {
                continue;
            };
            if found.more == 0 {
                return Ok(Some(found));
            }
            let is_better = match &best {
                Some(other) => found.more < other.more,
                None => true,
            };
            if is_better {
                best = Some(found);
            }
        }
        Ok(best)
    }

    // Returns the reply with which the document of a gap comes to need all numbers of it.
    fn asking(self, alloc: Global, gap: &Gap) -> Result<Option<usize>, NoMemory> {
        let (Some(witness), Some(limit)) = (self.witnesses.get(gap.witness), fewer_than(gap)) else {
            return Ok(None);
        };
        let limits = self.limits.with(alloc, gap.witness, limit)?;
        match Nearby::of(alloc, witness, gap, NEAR)? {
            Some(nearby) => nearby.first_failing(alloc, self.search_of(gap, witness, &limits)),
            None => Ok(None),
        }
    }

    // A guess at the reply with which numbers become too few: the latest with which a gap comes to need its
    // numbers, or the pairs around become known.
    fn short_at(self, alloc: Global, shortage: &Shortage) -> Result<Option<usize>, NoMemory> {
        let mut last = shortage.last_shown(alloc, self.history, self.witnesses)?;
        for number in 0..shortage.tight.len().min(MOST_TRIED) {
            if let Some(gap) = shortage.tight_gap(number) {
                last = last.max(self.asking(alloc, gap)?);
            }
        }
        Ok(last)
    }
}

/// Takes a third look, if the documents want more numbers than are free: as long as there are too few for
/// some gaps, one of their documents gets another order near such a gap, with one number fewer. Returns
/// witnesses that cover the history, if the numbers suffice in the end; else the documents that need more than are
/// free, and a guess at the reply with which they do, which is not before `furthest`, the latest one at which the second
/// look was stuck.
pub fn cover_with_fewer<'x>(
    alloc: Global,
    history: &'x Front<'_>,
    witnesses: Vec<DocWitness>,
    shortage: Shortage,
    known: SearchContext<'x>,
    furthest: Option<usize>,
) -> Result<Covering, NoMemory>
    ensures { IfOk result (λ found. (conflicts : Reading)
        → AreSearched conflicts history.now false (documents_of history.now) witnesses.items
        → IsCovered conflicts history.now false found) }
{
    let mut limits = DocLimits::none(alloc);
    let mut witnesses = witnesses;
    let mut shortage = shortage;
    for _ in 0..MOST_STEPS {
        let scene = Scene {
            history,
            witnesses: &witnesses,
            limits: &limits,
            known,
        };
        let Some(found) = scene.best(alloc, &shortage)? else {
            break;
        };
        limits.note(found.doc, found.limit)?;
        let new = NewPlaces::Of(found.doc, &found.places);
        let Some(others) = with_new_places(alloc, witnesses, new)? else {
            return Ok(Covering::NotFound(NotCovered::otherwise(alloc)));
        };
        match joined_again(alloc, history, others, known.used)? {
            Joined::Cover(others) => return Ok(Covering::Found(others)),
            Joined::Short(again, more) => {
                witnesses = again;
                shortage = more;
            }
            Joined::Spent => return Ok(Covering::NotFound(NotCovered::otherwise(alloc))),
        }
    }
    let scene = Scene {
        history,
        witnesses: &witnesses,
        limits: &limits,
        known,
    };
    let guessed = scene.short_at(alloc, &shortage)?;
    Ok(Covering::NotFound(NotCovered {
        short_at: guessed.max(furthest),
        scarce: shortage.witnesses(alloc)?,
    }))
}
