ghost use Rattle.std.specs.Prelude.{◌≡◌, ◌≤◌};
ghost use Rattle.history.specs.ByRules.{room_of as room_of_event, room_taken};

use crate::check_options::CheckOptions;
use crate::finding::find_alone;
use crate::progress::CheckProgress;
use compose::RulingOut;
use doc_check::{DocAnswer, answer};
use doc_register::Conflicts;
use events::{Event, History, MOST_EVENTS, Rec, Seen};
use history::{TextRead, Voids};
use places::DocWitness;
use readings::{Reading, Writes, is_repeatable_write};
use std::alloc::Global;
use story::OrderSearch;
use version_pair::{DocId, NoMemory};

/// What an explanation has searched: an order of one document alone, and the answers under other readings.
#[derive(Clone, Copy)]
pub struct Searches<'l> {
    /// Whether documents are checked for being provably not linearizable.
    pub ruling_out: RulingOut,
    /// The line of a check by the strict reading that looks also for documents that are provably not linearizable.
    pub strict_line: &'l str,
}

// Returns the room that an event takes.
fn room_of(writes: Writes, event: &Event) -> usize
    ensures room { result ≡ room_of_event writes event.now }
    ensures within { result ≤ 2 }
{
    match (writes, event) {
        (Writes::Repeated, Event::Call { op, .. }) if is_repeatable_write(op) => 2,
        _ => 1,
    }
}

// Returns the room that the events take.
fn room_taken(writes: Writes, history: &History) -> usize
    ensures { result ≡ room_taken writes history.now }
{
    let mut room = 0;
    for place in 0..history.len() {
        room += room_of(writes, history.event(place));
    }
    room
}

impl OrderSearch for Searches<'_> {
    fn order(
        &self,
        alloc: Global,
        id: DocId,
        records: Vec<Rec>,
        seen: Seen,
        conflicts: Conflicts,
    ) -> Result<Option<DocWitness>, NoMemory> {
        match answer(alloc, id, records, seen, conflicts)? {
            DocAnswer::Found(witness) => Ok(Some(witness)),
            DocAnswer::NotFound(_) => Ok(None),
        }
    }

    fn line(
        &self,
        alloc: Global,
        text: &History,
        reading: Reading,
        ruling_out: RulingOut,
    ) -> Result<Option<Vec<u8>>, NoMemory> {
        let history = text.prefix(text.len())?;
        if room_taken(reading.writes, &history) > MOST_EVENTS {
            return Ok(None);
        }
        let options = CheckOptions {
            workers: 1,
            reading,
            ruling_out,
        };
        let voids = Voids::new(alloc, Vec::new(alloc))?;
        let read = TextRead { history, voids };
        let found = find_alone(alloc, read, options, &CheckProgress::new())?;
        let line = found.answer(reading).reported.line(alloc)?;
        Ok(Some(line.into_bytes()))
    }

    fn ruling_out(&self) -> RulingOut {
        self.ruling_out
    }

    fn is_strict(&self, line: &[u8]) -> bool {
        self.strict_line.as_bytes() == line
    }
}
