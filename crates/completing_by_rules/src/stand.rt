use crate::plan::RoundPlan;
use completing::{Count, No, Records, Table, find, find_near};
use doc_register::{Op, Reply};
use events::Rec;
use std::alloc::Global;
use version_pair::{NoMemory, Pair};
use write_chain::sort_nearly_ordered;

// The number of calls, of those that were met last, that are examined before all of them are searched.
const NEAR: usize = 16;

// A stretch that bounds others, with the index of the call or the reply from which on it does.
#[derive_where(Clone, Copy, PartialEq, Eq, PartialOrd, Ord)]
struct Bound<S: Count> {
    at: usize,
    stretch: No<S>,
}

/// The stretches of the records of a round.
#[derive(Drop)]
pub struct Stand<D: Count, S: Count> {
    // For each record in the chain, the stretch that it begins.
    begun: Table<D, Option<No<S>>>,
    // For each record outside the chain, its stretch.
    given: Table<D, Option<No<S>>>,
    // The stretches of the known pairs, by pair.
    known: Vec<(Pair, No<S>)>,
    // For each stretch, the latest ones up to it.
    latest: Table<S, Latest<S>>,
    // For each reply of a write of the chain or of a get that found a pair, from the first to the last, the
    // greatest stretch of those up to it; without those after the last call that was asked for.
    floors: Vec<Bound<S>>,
    // For each call that was met and lowered it, from the last to the first, the greatest stretch for what
    // was answered before those up to it.
    bounds: Vec<Bound<S>>,
}

// The latest stretch up to one in which the document does not exist, and in which it does.
#[derive_where(Clone, Copy)]
struct Latest<S: Count> {
    absent: Option<No<S>>,
    present: Option<No<S>>,
}

// For each stretch, the latest ones up to it.
fn latest_stretches<D: Count, S: Count>(
    alloc: Global,
    plan: &RoundPlan<D, S>,
) -> Result<Table<S, Latest<S>>, NoMemory> {
    let count = plan.writes.len() + 1;
    let mut latest = Latest {
        absent: None,
        present: None,
    };
    let mut table = Table::new(alloc, count, latest)?;
    for index in 0..count {
        let stretch = No::new(index);
        if plan.stretch(stretch).live {
            latest.present = Some(stretch);
        } else {
            latest.absent = Some(stretch);
        }
        table.set(stretch, latest);
    }
    Ok(table)
}

// The pair that a get found.
fn pair_found(reply: Reply) -> Option<Pair> {
    match reply {
        Reply::Found { pair, .. } => Some(pair),
        _ => None,
    }
}

impl<D: Count, S: Count> Stand<D, S> {
    /// Returns the stretches of the writes of the chain, and of no others yet.
    pub fn of(
        alloc: Global,
        records: Records<'_, D>,
        plan: &RoundPlan<D, S>,
    ) -> Result<Stand<D, S>, NoMemory> {
        let mut stand = Stand {
            begun: Table::new(alloc, records.len(), None)?,
            given: Table::new(alloc, records.len(), None)?,
            known: Vec::with_capacity(alloc, plan.writes.len())?,
            latest: latest_stretches(alloc, plan)?,
            floors: Vec::with_capacity(alloc, records.len())?,
            bounds: Vec::new(alloc),
        };
        stand.note_writes(plan)?;
        stand.note_floors(records)?;
        Ok(stand)
    }

    // Sets the stretches that the writes begin.
    fn note_writes(&mut self, plan: &RoundPlan<D, S>) -> Result<(), NoMemory> {
        for j in 0..plan.writes.len() {
            let write = plan.writes[j];
            let stretch = No::new(j + 1);
            self.begun.set(write.rec, Some(stretch));
            if let Some(pair) = write.pair {
                self.known.push((pair, stretch))?;
            }
        }
        Ok(())
    }

    // Sets the stretches of the gets that found a pair, and the greatest stretch up to each reply.
    fn note_floors(&mut self, records: Records<'_, D>) -> Result<(), NoMemory> {
        let mut near = 0;
        for index in 0..records.len() {
            let rec = No::new(index);
            let Some(heard) = records.of(rec).heard else {
                continue;
            };
            let mut stretch = self.begun.of(rec);
            if let Some(pair) = pair_found(heard.1) {
                stretch = find_near(&self.known, pair, &mut near).map(|known| known.1);
                self.given.set(rec, stretch);
            }
            if let Some(stretch) = stretch {
                self.floors.push(Bound {
                    at: heard.0,
                    stretch,
                })?;
            }
        }
        sort_nearly_ordered(&mut self.floors);
        for i in 1..self.floors.len() {
            let before = self.floors[i - 1].stretch;
            self.floors[i].stretch = before.max(self.floors[i].stretch);
        }
        Ok(())
    }

    /// Returns the stretch that begins with the write of this pair.
    pub fn of_pair(&self, pair: Pair) -> Option<No<S>> {
        Some(find(&self.known, pair)?.1)
    }

    /// Returns the stretch that ends with the record, if it is a write of the chain.
    pub fn before_write(&self, rec: No<D>) -> Option<No<S>> {
        self.begun.of(rec)?.before()
    }

    /// Returns the stretch of the record, if it is a get that found a pair or was given one.
    pub fn of_read(&self, rec: No<D>) -> Option<No<S>> {
        self.given.of(rec)
    }

    // The least stretch for a call there: the greatest one of what was answered before, if there is any. Calls must
    // be asked for from the last to the first.
    fn floor(&mut self, call_at: usize) -> Option<No<S>> {
        for _ in 0..self.floors.len() {
            match self.floors.last() {
                Some(entry) if entry.at < call_at => return Some(entry.stretch),
                _ => self.floors.pop(),
            };
        }
        None
    }

    // The greatest stretch for a reply there, if one of the last few calls that were noted comes after it.
    fn near_bound(&self, reply_at: usize) -> Option<No<S>> {
        let met = self.bounds.len();
        for back in 0..met.min(NEAR) {
            let bound = self.bounds[met - 1 - back];
            if bound.at > reply_at {
                return Some(bound.stretch);
            }
        }
        None
    }

    /// Returns the greatest stretch for a reply there, by the calls that were made after it; `last` if there
    /// is none.
    pub fn bound(&self, reply_at: usize, last: No<S>) -> No<S> {
        if let Some(bound) = self.near_bound(reply_at) {
            return bound;
        }
        let met = self.bounds.partition_point(|entry| entry.at > reply_at);
        match self.bounds[..met].last() {
            Some(latest) => latest.stretch,
            None => last,
        }
    }

    /// Notes that what was answered before this call stands at the stretch or earlier. Calls must come from
    /// the last to the first.
    pub fn meet(&mut self, call_at: usize, stretch: No<S>) -> Result<(), NoMemory> {
        let is_lower = match self.bounds.last() {
            Some(entry) => stretch < entry.stretch,
            None => true,
        };
        if is_lower {
            self.bounds.push(Bound {
                at: call_at,
                stretch,
            })?;
        }
        Ok(())
    }

    /// Gives the record outside the chain its stretch.
    pub fn give(&mut self, rec: No<D>, stretch: No<S>) {
        self.given.set(rec, Some(stretch));
    }

    /// Returns the index of the stretch of each record outside the chain.
    pub fn into_given(
        self,
        alloc: Global,
        records: Records<'_, D>,
    ) -> Result<Table<D, Option<usize>>, NoMemory> {
        let given = self.given;
        let mut stretches = Table::new(alloc, records.len(), None)?;
        for index in 0..records.len() {
            let rec = No::new(index);
            stretches.set(rec, given.of(rec).map(|stretch| stretch.index()));
        }
        Ok(stretches)
    }

    // The latest stretch up to the bound in which the state allows a missing or a conflict.
    fn latest_allowed(&self, plan: &RoundPlan<D, S>, found: Rec, bound: No<S>) -> Option<No<S>> {
        match found.op {
            Op::Get => self.latest.of(bound).absent,
            Op::Create { .. } => self.latest.of(bound).present,
            Op::Index { .. } | Op::Delete { .. } => {
                let pair = found.op.condition()?;
                if plan.stretch(bound).pair == Some(pair) {
                    bound.before()
                } else {
                    Some(bound)
                }
            }
        }
    }

    /// Returns the latest stretch of an answered record outside the chain that has none yet: up to the bound
    /// and not too early, if there is one.
    pub fn latest(&mut self, plan: &RoundPlan<D, S>, found: Rec, bound: No<S>) -> Option<No<S>> {
        if let Some((_, Reply::Found { .. })) = found.heard {
            return None;
        }
        let latest = self.latest_allowed(plan, found, bound)?;
        if Some(latest) < self.floor(found.call_at) {
            None
        } else {
            Some(latest)
        }
    }
}
