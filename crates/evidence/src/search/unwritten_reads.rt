ghost use Rattle.std.specs.Prelude.{◌<◌, IfOk, IfSome, length};
ghost use Rattle.evidence.specs.Evidence.{IsOfCalls};

use crate::refuted::Refuted;
use crate::search::calls_with_pairs::GetWithPair;
use doc_register::{Conflicts, Reply};
use events::{Event, HashKeys, History};
use indexmap::IndexMap;
use std::alloc::Global;
use version_pair::{NoMemory, Pair};

// The writes of a history that gave their document a number, or may have, by document and number.
#[derive(Drop)]
struct NumberWriters {
    // The position of the first call that was answered with this pair.
    shown: IndexMap<(usize, u64, Pair), usize, HashKeys>,
    // The position of the first call whose pair is not known.
    open: IndexMap<(usize, u64), usize, HashKeys>,
}

// Whether the position is known and before the end.
fn is_before(place: Option<&usize>, end: usize) -> bool {
    match place {
        Some(place) => *place < end,
        None => false,
    }
}

impl NumberWriters {
    // Returns the writers of the history.
    fn of(
        alloc: Global,
        history: &History,
        conflicts: Conflicts,
    ) -> Result<NumberWriters, NoMemory> {
        let mut writers = NumberWriters {
            shown: IndexMap::with_hasher(alloc, history.keys()),
            open: IndexMap::with_hasher(alloc, history.keys()),
        };
        for place in 0..history.len() {
            writers.note(history, place, conflicts)?;
        }
        Ok(writers)
    }

    // Adds the event at the position, if it is the call of a writer.
    fn note(
        &mut self,
        history: &History,
        place: usize,
        conflicts: Conflicts,
    ) -> Result<(), NoMemory>
        requires { place < length history.now }
    {
        let Event::Call { no, id, op, .. } = history.event(place) else {
            return Ok(());
        };
        let (Some(k), Some(doc)) = (op.value(), history.doc_of(id)) else {
            return Ok(());
        };
        match history.heard(*no) {
            Some((_, Reply::Indexed { pair, .. })) => self.note_shown(doc, k, pair, place),
            Some((_, Reply::Conflict)) if conflicts == Conflicts::Maybe => {
                self.note_open(doc, k, place)
            }
            None => self.note_open(doc, k, place),
            Some(_) => Ok(()),
        }
    }

    // Adds a write that was answered with the pair.
    fn note_shown(&mut self, doc: usize, k: u64, pair: Pair, place: usize) -> Result<(), NoMemory> {
        if !self.shown.contains_key(&(doc, k, pair)) {
            self.shown.insert((doc, k, pair), place)?;
        }
        Ok(())
    }

    // Adds a write whose pair is not known.
    fn note_open(&mut self, doc: usize, k: u64, place: usize) -> Result<(), NoMemory> {
        if !self.open.contains_key(&(doc, k)) {
            self.open.insert((doc, k), place)?;
        }
        Ok(())
    }

    // Returns whether one of them, called before the get was answered, may have given the document what the
    // get found.
    fn explain(&self, get: GetWithPair) -> bool {
        let found = get.found;
        is_before(
            self.shown.get(&(get.doc, found.k, found.pair)),
            found.replied,
        ) || is_before(self.open.get(&(get.doc, found.k)), found.replied)
    }
}

/// Returns the first get without a writer, by its number.
pub fn least_without_writer(
    alloc: Global,
    history: &History,
    gets: &[GetWithPair],
    conflicts: Conflicts,
) -> Result<Option<Refuted>, NoMemory>
    ensures { IfOk result (λ found. IfSome found IsOfCalls) }
{
    let writers = NumberWriters::of(alloc, history, conflicts)?;
    let least = gets
        .iter()
        .filter(|get| !writers.explain(**get))
        .map(|get| get.no)
        .min();
    Ok(least.map(Refuted::NoWriter))
}
