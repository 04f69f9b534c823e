use doc_register::{Op, Reply};
use events::Rec;
use places::{DocWitness, Place};
use std::alloc::Global;
use version_pair::NoMemory;

// The greatest number of unanswered calls without a place that a part may place: the latest ones.
const MOST_LEFT_OUT: usize = 500;

/// A part of a document's order, by indices of its places: from `from` on and below `end`.
#[derive(Clone, Copy)]
pub struct OrderPart {
    // The answered write before it; `None` if it begins with the order.
    before: Option<usize>,
    from: usize,
    end: usize,
}

// Where the place of a record is.
#[derive(Clone, Copy, PartialEq, Eq)]
enum PartSide {
    // In no order: the record is unanswered.
    LeftOut,
    // In the part.
    Within,
    // Outside of the part.
    Outside,
}

// The record at an index of the order, if it is an answered write that was performed.
fn write_at(witness: &DocWitness, index: usize) -> Option<Rec> {
    if index >= witness.places().len() {
        return None;
    }
    let found = witness.call(index);
    found.pair_taken()?;
    Some(found)
}

// The index of the answered write that is that many answered writes below an index of the order.
fn write_below(witness: &DocWitness, index: usize, reach: usize) -> Option<usize> {
    let mut left = reach;
    for below in (0..index).rev() {
        if write_at(witness, below).is_some() {
            if left <= 1 {
                return Some(below);
            }
            left -= 1;
        }
    }
    None
}

// The index of the answered write that is that many answered writes above an index of the order.
fn write_above(witness: &DocWitness, index: usize, reach: usize) -> Option<usize> {
    let mut left = reach;
    for above in index.saturating_add(1)..witness.places().len() {
        if write_at(witness, above).is_some() {
            if left <= 1 {
                return Some(above);
            }
            left -= 1;
        }
    }
    None
}

// A write that leaves the document as this one does. It is called before the event, and answered at it, which
// counts as before a call at the event.
fn same_before(write: Rec, event: usize) -> Option<Rec> {
    let pair = write.pair_taken()?;
    let (op, reply) = match write.op.value() {
        Some(k) => {
            let created = true;
            (Op::Create { k }, Reply::Indexed { pair, created })
        }
        None => {
            let found = false;
            (Op::Delete { cond: None }, Reply::Deleted { pair, found })
        }
    };
    Some(Rec {
        no: write.no,
        op,
        call_at: event.checked_sub(1)?,
        heard: Some((event, reply)),
    })
}

impl OrderPart {
    /// Returns the part that begins behind the answered write that is `reach` such writes below the first of
    /// these places, and ends with the one that is as many above the last. It has the rest of the order if
    /// there are fewer.
    pub fn around(witness: &DocWitness, first: usize, last: usize, reach: usize) -> OrderPart {
        let before = write_below(witness, first, reach);
        let end = write_above(witness, last, reach);
        OrderPart {
            before,
            from: before.map_or(0, |index| index.saturating_add(1)),
            end: end.map_or(witness.places().len(), |index| index.saturating_add(1)),
        }
    }

    // For each record of the document on which side its place is.
    fn sides(self, alloc: Global, witness: &DocWitness) -> Result<Vec<PartSide>, NoMemory> {
        let mut sides = vec![in alloc; PartSide::LeftOut; witness.records().len()]?;
        for (index, place) in witness.places().iter().enumerate() {
            if let Some(side) = sides.get_mut(place.rec) {
                let is_within = self.from <= index && index < self.end;
                *side = if is_within {
                    PartSide::Within
                } else {
                    PartSide::Outside
                };
            }
        }
        Ok(sides)
    }

    // The event before which an unanswered call must be made to have a place in the part: the last reply of
    // the part, or the first one after it.
    fn last_event(self, witness: &DocWitness) -> usize {
        let mut last = 0;
        let mut next = usize::MAX;
        for index in self.from..witness.places().len() {
            if let Some(heard) = witness.call(index).heard {
                if index < self.end {
                    last = last.max(heard.0);
                } else {
                    next = next.min(heard.0);
                }
            }
        }
        last.min(next)
    }

    /// Returns the records that an order of the part may have, rising: those that it has, and the latest of
    /// the unanswered ones that have no place.
    pub fn members(self, alloc: Global, witness: &DocWitness) -> Result<Vec<usize>, NoMemory> {
        let last = self.last_event(witness);
        let mut members = Vec::new(alloc);
        let mut left_out = Vec::new(alloc);
        let sides = self.sides(alloc, witness)?;
        for (rec, (found, side)) in witness.records().iter().zip(sides.iter()).enumerate() {
            match side {
                PartSide::Within => members.push(rec)?,
                PartSide::LeftOut if found.call_at < last => left_out.push(rec)?,
                PartSide::LeftOut | PartSide::Outside => {}
            }
        }
        for rec in left_out.iter().rev().take(MOST_LEFT_OUT) {
            members.push(*rec)?;
        }
        members.sort_unstable();
        Ok(members)
    }

    // How many records come before those of the part: one for the write before it, if there is one.
    fn first_count(self) -> usize {
        if self.before.is_some() { 1 } else { 0 }
    }

    // A record for the write before the part, which comes before the first of its records.
    fn first_record(self, witness: &DocWitness, members: &[usize]) -> Option<Rec> {
        let start = witness.records().get(*members.first()?)?;
        same_before(write_at(witness, self.before?)?, start.call_at)
    }

    /// Returns the records of the part as those of a document of its own, which has no other calls. `None` if
    /// there is no event before its first one.
    pub fn records(
        self,
        alloc: Global,
        witness: &DocWitness,
        members: &[usize],
    ) -> Result<Option<Vec<Rec>>, NoMemory> {
        let mut records = Vec::with_capacity(alloc, members.len() + 1)?;
        if let Some(first) = self.first_record(witness, members) {
            records.push(first)?;
        }
        if records.len() != self.first_count() {
            return Ok(None);
        }
        for rec in members {
            if let Some(found) = witness.records().get(*rec) {
                records.push(*found)?;
            }
        }
        Ok(Some(records))
    }

    /// Returns the places of the whole order with others for the part, which are of its records, as `records`
    /// gives them.
    pub fn with_places(
        self,
        alloc: Global,
        witness: &DocWitness,
        members: &[usize],
        own: &[Place],
    ) -> Result<Vec<Place>, NoMemory> {
        let places = witness.places();
        let mut others = Vec::with_capacity(alloc, places.len() + own.len())?;
        for place in places.iter().take(self.from) {
            others.push(*place)?;
        }
        for place in own {
            let number = place.rec.checked_sub(self.first_count());
            if let Some(rec) = number.and_then(|number| members.get(number)) {
                others.push(Place {
                    rec: *rec,
                    pair: place.pair,
                })?;
            }
        }
        for place in places.iter().skip(self.end) {
            others.push(*place)?;
        }
        Ok(others)
    }
}
