use crate::queue::Queue;
use completing::{Count, No, Records, Table, Timed, earlier, leaves_it};
use doc_register::{Conflicts, Op};
use events::Rec;
use std::alloc::Global;
use version_pair::{NoMemory, Pair};

/// The unanswered writes that may be completed, each kind in the order of calls, and which records are taken.
#[derive(Drop)]
pub struct Lost<D: Count> {
    // The writes of which no reply says that they were performed.
    incomplete: Vec<No<D>>,
    // Whether the record is in the chain.
    taken: Table<D, bool>,
    // Those without a condition.
    deletes: Queue<D>,
    indexes: Queue<D>,
    creates: Queue<D>,
    // Those with a condition, by its pair.
    swaps: Vec<Swap<D>>,
}

// An unanswered write under the condition of a pair.
#[derive_where(Clone, Copy, PartialEq, Eq, PartialOrd, Ord)]
struct Swap<D: Count> {
    pair: Pair,
    write: Timed<D>,
    deletes: bool,
}

/// What an insertion needs.
#[derive(Clone, Copy)]
pub struct Ask {
    /// A delete will do.
    pub delete: bool,
    /// A write of the document will do.
    pub write: bool,
    /// Whether the document exists before it.
    pub live: bool,
    /// The pair that the document has before it, if it is known.
    pub on: Option<Pair>,
    /// It must be called before this index.
    pub limit: usize,
}

impl<D: Count> Lost<D> {
    /// Returns the unanswered writes of a document.
    pub fn of(alloc: Global, records: Records<'_, D>) -> Result<Lost<D>, NoMemory> {
        let mut lost = Lost {
            incomplete: Vec::new(alloc),
            taken: Table::new(alloc, records.len(), false)?,
            deletes: Queue::new(alloc),
            indexes: Queue::new(alloc),
            creates: Queue::new(alloc),
            swaps: Vec::new(alloc),
        };
        for index in 0..records.len() {
            let rec = No::new(index);
            if !records.of(rec).is_complete(Conflicts::Maybe) {
                lost.note(rec, records.of(rec))?;
            }
        }
        lost.deletes.sort();
        lost.indexes.sort();
        lost.creates.sort();
        lost.swaps.sort_unstable();
        Ok(lost)
    }

    // Adds a write of which no reply says that it was performed.
    fn note(&mut self, rec: No<D>, found: Rec) -> Result<(), NoMemory> {
        self.incomplete.push(rec)?;
        if found.heard.is_some() {
            return Ok(());
        }
        let write = Timed {
            at: found.call_at,
            rec,
        };
        match found.op {
            Op::Get => {}
            Op::Create { .. } => self.creates.push(write)?,
            Op::Index { cond: None, .. } => self.indexes.push(write)?,
            Op::Delete { cond: None } => self.deletes.push(write)?,
            Op::Index {
                cond: Some(pair),
                ..
            }
            | Op::Delete { cond: Some(pair) } => self.swaps.push(Swap {
                pair,
                write,
                deletes: !leaves_it(found.op),
            })?,
        }
        Ok(())
    }

    /// Returns the writes of which no reply says that they were performed, in their order.
    pub fn incomplete(&self) -> &[No<D>] {
        &self.incomplete
    }

    /// Takes the record into the chain.
    pub fn take(&mut self, rec: No<D>) {
        self.taken.set(rec, true);
    }

    /// Returns, for each record, whether it is in the chain.
    pub fn taken(&self) -> &Table<D, bool> {
        &self.taken
    }

    /// Returns the first, by call, of the writes that would be performed there. It must be called in time.
    pub fn candidate(&mut self, ask: Ask) -> Option<No<D>> {
        let mut first = None;
        if ask.delete {
            first = earlier(first, self.deletes.first(&self.taken));
        }
        if ask.write {
            first = earlier(first, self.indexes.first(&self.taken));
        }
        if ask.write && !ask.live {
            first = earlier(first, self.creates.first(&self.taken));
        }
        if let Some(pair) = ask.on {
            first = earlier(first, self.swap(pair, ask));
        }
        match first {
            Some(entry) if entry.at < ask.limit => Some(entry.rec),
            _ => None,
        }
    }

    // The first, by call, of the writes under the condition of the pair.
    fn swap(&self, pair: Pair, ask: Ask) -> Option<Timed<D>> {
        let start = self.swaps.partition_point(|entry| entry.pair < pair);
        for i in start..self.swaps.len() {
            let entry = self.swaps[i];
            if entry.pair != pair {
                return None;
            }
            let will_do = if entry.deletes { ask.delete } else { ask.write };
            if !self.taken.of(entry.write.rec) && will_do {
                return Some(entry.write);
            }
        }
        None
    }
}
