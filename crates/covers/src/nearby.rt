ghost use Rattle.std.specs.Prelude.{IfOk, IfSome};
ghost use Rattle.covers.specs.aids.Searched.{IsAlike};

use crate::part::OrderPart;
use crate::reordered::reordered_copy;
use completing_forward::{ForwardSearch, Limit, search_forward};
use doc_register::Conflicts;
use events::{Rec, Seen};
use places::{DocWitness, Place};
use shard_numbers::Gap;
use std::alloc::Global;
use version_pair::{NoMemory, Pair};

/// What a search is given beside the records.
#[derive(Clone, Copy)]
pub struct PartSearch<'a> {
    /// What is seen in the history.
    pub seen: Seen,
    /// How conflicts are read.
    pub conflicts: Conflicts,
    /// The pairs that the documents of the shard use, rising.
    pub used: &'a [Pair],
    /// How many writes may be inserted.
    pub limits: &'a [Limit],
}

// Places for the records, if the search forward finds them.
fn places_found(
    alloc: Global,
    records: &[Rec],
    search: PartSearch<'_>,
) -> Result<Option<Vec<Place>>, NoMemory> {
    match search_forward(
        alloc,
        records,
        search.seen,
        search.conflicts,
        search.used,
        search.limits,
    )? {
        ForwardSearch::Found(places) => Ok(Some(places)),
        ForwardSearch::Stuck(_) => Ok(None),
    }
}

/// The part of a document's order near a gap, which is searched as a document of its own: few records, where
/// the document may have very many.
#[derive(Drop)]
pub struct Nearby {
    part: OrderPart,
    // The numbers of its records among those of the document.
    members: Vec<usize>,
    // Its records, behind one for the write before it, if there is one.
    records: Vec<Rec>,
}

impl Nearby {
    /// Returns the part that reaches that many answered writes below and above the gap.
    pub fn of(
        alloc: Global,
        witness: &DocWitness,
        gap: &Gap,
        reach: usize,
    ) -> Result<Option<Nearby>, NoMemory> {
        let (Some(first), Some(last)) = (gap.places.first(), gap.places.last()) else {
            return Ok(None);
        };
        let part = OrderPart::around(witness, *first, *last, reach);
        let members = part.members(alloc, witness)?;
        let records = part.records(alloc, witness, &members)?;
        Ok(records.map(|records| Nearby {
            part,
            members,
            records,
        }))
    }

    /// Returns another order of the document's calls that differs from the witness only in this part, if one
    /// is found.
    pub fn order(
        &self,
        alloc: Global,
        witness: &DocWitness,
        search: PartSearch<'_>,
    ) -> Result<Option<DocWitness>, NoMemory>
        ensures { IfOk result (λ found. IfSome found (IsAlike witness.now)) }
    {
        let Some(own) = places_found(alloc, &self.records, search)? else {
            return Ok(None);
        };
        let places = self.part.with_places(alloc, witness, &self.members, &own)?;
        reordered_copy(alloc, witness, places)
    }

    // Whether an order of the part is found, as far as it is known before the event.
    fn has_order_before(
        &self,
        alloc: Global,
        search: PartSearch<'_>,
        event: usize,
    ) -> Result<bool, NoMemory> {
        let mut records = Vec::with_capacity(alloc, self.records.len())?;
        for found in &self.records {
            if found.call_at < event {
                records.push(found.known_before(event))?;
            }
        }
        Ok(places_found(alloc, &records, search)?.is_some())
    }

    // The positions of the replies of the part, rising.
    fn replies(&self, alloc: Global) -> Result<Vec<usize>, NoMemory> {
        let mut replies = Vec::with_capacity(alloc, self.records.len())?;
        for found in &self.records {
            if let Some(heard) = found.heard {
                replies.push(heard.0)?;
            }
        }
        replies.sort_unstable();
        Ok(replies)
    }

    /// Returns the position of the first reply of the part with which no order is found, by bisection; that of
    /// its last reply if an order is found with all of them.
    pub fn first_failing(
        &self,
        alloc: Global,
        search: PartSearch<'_>,
    ) -> Result<Option<usize>, NoMemory> {
        let all = self.replies(alloc)?;
        // The first one that fails is among these, or an order is found with all.
        let mut replies = all.as_slice();
        for _ in 0..usize::BITS {
            let (before, after) = replies.split_at(replies.len() - replies.len() / 2);
            let Some(last) = before.last() else {
                break;
            };
            if after.is_empty() {
                break;
            }
            if self.has_order_before(alloc, search, last.saturating_add(1))? {
                replies = after;
            } else {
                replies = before;
            }
        }
        Ok(replies.last().copied())
    }
}
