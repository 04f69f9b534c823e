ghost use Rattle.std.specs.Prelude.{◌≡◌, ◌+◌, length};

use crate::lost::{Ask, Lost};
use completing::{ChainWrite, Count, No, PairRange, Records, Table, leaves_it, needs};
use std::alloc::Global;
use version_pair::{NoMemory, Pair};

/// A part of an order between two writes of the chain, or before the first or after the last one.
#[derive(Clone, Copy)]
pub struct Stretch {
    /// The pair that the document has in it, if it exists and its pair is known.
    pub pair: Option<Pair>,
    /// Whether the document exists at its end, with what is inserted.
    pub live: bool,
    /// Whether the write at its end needs the document to exist or not to exist.
    pub needs: Option<bool>,
    /// Whether something is inserted in it.
    pub has_inserted: bool,
    // Whether a write may be inserted in it.
    is_open: bool,
    // The least reply of the writes after it.
    limit: usize,
    // The greatest call of the writes before it.
    latest_call: usize,
}

/// What a round knows of the chain, and what it inserts.
#[derive(Drop)]
pub struct RoundPlan<D: Count, S: Count> {
    pub writes: Vec<ChainWrite<D>>,
    stretches: Table<S, Stretch>,
    // The greatest call of what is inserted.
    inserted_call: usize,
    // All that is inserted.
    news: Vec<Insertion<D, S>>,
    ghost counted: { length writes.items + 1 ≡ S.number },
}

/// Where an insertion is in its stretch.
#[derive(Clone, Copy, PartialEq, Eq, PartialOrd, Ord)]
pub enum InStretch {
    /// Directly after the stretch's write.
    After,
    /// Directly before the next write.
    Before,
}

// A write that is inserted. They go into the chain by stretch, by side, and in the order in which they were
// inserted.
#[derive_where(Clone, Copy, PartialEq, Eq, PartialOrd, Ord)]
struct Insertion<D: Count, S: Count> {
    stretch: No<S>,
    side: InStretch,
    turn: usize,
    rec: No<D>,
}

impl Stretch {
    // The stretch before all writes, if no write comes after it.
    fn first() -> Stretch {
        Stretch {
            pair: None,
            live: false,
            needs: None,
            has_inserted: false,
            is_open: true,
            limit: usize::MAX,
            latest_call: 0,
        }
    }
}

impl<D: Count, S: Count> RoundPlan<D, S> {
    /// Returns the plan of a round over the chain.
    pub fn of(
        alloc: Global,
        records: Records<'_, D>,
        writes: Vec<ChainWrite<D>>,
    ) -> Result<RoundPlan<D, S>, NoMemory>
        // One stretch comes before all writes, and one after each.
        requires { length writes.items + 1 ≡ S.number }
    {
        let mut plan = RoundPlan {
            stretches: Table::new(alloc, writes.len() + 1, Stretch::first())?,
            inserted_call: 0,
            news: Vec::new(alloc),
            writes,
        };
        plan.note_writes(records);
        plan.close();
        plan.lower_limits();
        Ok(plan)
    }

    /// Returns the last stretch.
    pub fn last(&self) -> No<S> {
        No::new(self.writes.len())
    }

    // Sets what the writes say of the stretches. The limit of each is the reply of the write after it.
    fn note_writes(&mut self, records: Records<'_, D>) {
        let mut stretch = Stretch::first();
        for at in 0..self.writes.len() {
            let write = self.writes[at];
            let found = records.of(write.rec);
            let own = Stretch {
                needs: needs(found),
                limit: found.heard.map_or(usize::MAX, |heard| heard.0),
                ..stretch
            };
            self.stretches.set(No::new(at), own);
            let live = leaves_it(found.op);
            stretch = Stretch {
                pair: if live { write.pair } else { None },
                live,
                latest_call: stretch.latest_call.max(found.call_at),
                ..Stretch::first()
            };
        }
        let last = self.last();
        self.stretches.set(last, stretch);
    }

    // Closes the stretches between two pairs of one term, whose numbers other documents may need as well.
    fn close(&mut self) {
        let mut last = None;
        let mut from = 0;
        for at in 0..self.writes.len() {
            if let Some(pair) = self.writes[at].pair {
                if PairRange::between(last, pair).is_some() {
                    for stretch in from..at + 1 {
                        let mut own = self.stretches.of(No::new(stretch));
                        own.is_open = false;
                        self.stretches.set(No::new(stretch), own);
                    }
                }
                last = Some(pair);
                from = at + 1;
            }
        }
    }

    // Lowers each limit to the least of those from its stretch on.
    fn lower_limits(&mut self) {
        let mut least = usize::MAX;
        for back in 0..self.writes.len() + 1 {
            let stretch = No::new(self.writes.len() - back);
            let mut own = self.stretches.of(stretch);
            least = least.min(own.limit);
            own.limit = least;
            self.stretches.set(stretch, own);
        }
    }

    /// Inserts the record's write in the stretch, if one may be inserted there.
    pub fn insert(
        &mut self,
        records: Records<'_, D>,
        lost: &mut Lost<D>,
        stretch: No<S>,
        side: InStretch,
        rec: No<D>,
    ) -> Result<bool, NoMemory> {
        let found = records.of(rec);
        let mut own = self.stretches.of(stretch);
        if !own.is_open {
            return Ok(false);
        }
        own.has_inserted = true;
        own.live = leaves_it(found.op);
        self.stretches.set(stretch, own);
        self.news.push(Insertion {
            stretch,
            side,
            turn: self.news.len(),
            rec,
        })?;
        self.inserted_call = self.inserted_call.max(found.call_at);
        lost.take(rec);
        Ok(true)
    }

    /// Returns the stretch with the number.
    pub fn stretch(&self, stretch: No<S>) -> Stretch {
        self.stretches.of(stretch)
    }

    /// Returns the first stretch whose next write is called after the index.
    pub fn stretch_at(&self, place: usize) -> No<S> {
        let later = &self.stretches.values()[1..];
        No::new(later.partition_point(|stretch| stretch.latest_call <= place))
    }

    /// Returns the greatest call of the writes before the end of the stretch, if nothing is inserted after
    /// it.
    pub fn latest_call(&self, stretch: No<S>) -> usize {
        self.stretch(stretch).latest_call.max(self.inserted_call)
    }

    /// Returns what an insertion at the end of the stretch needs.
    pub fn ask(&self, stretch: No<S>, delete: bool, write: bool, limit: usize) -> Ask {
        let own = self.stretch(stretch);
        Ask {
            delete,
            write,
            live: own.live,
            on: if own.has_inserted { None } else { own.pair },
            limit: limit.min(own.limit),
        }
    }

    /// Returns whether nothing is inserted.
    pub fn is_done(&self) -> bool {
        self.news.is_empty()
    }

    /// Returns the chain with all that is inserted.
    pub fn merge(&mut self, alloc: Global) -> Result<Vec<ChainWrite<D>>, NoMemory> {
        self.news.sort_unstable();
        let mut merged = Vec::with_capacity(alloc, self.writes.len() + self.news.len())?;
        let mut next = 0;
        for write in 0..self.writes.len() {
            for i in next..self.news.len() {
                let Insertion { stretch, rec, .. } = self.news[i];
                if stretch.index() > write {
                    break;
                }
                merged.push(ChainWrite { pair: None, rec })?;
                next = i + 1;
            }
            merged.push(self.writes[write])?;
        }
        for i in next..self.news.len() {
            merged.push(ChainWrite {
                pair: None,
                rec: self.news[i].rec,
            })?;
        }
        Ok(merged)
    }
}
