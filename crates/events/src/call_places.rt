ghost use Rattle.std.specs.Prelude.{◌≡◌, ◌==◌, ◌<◌, ◌+◌, [], IfSome, IsTrue, None, Some, OnErr, OnOk, length, position};
ghost use Rattle.std.specs.Map.{lookup};
ghost use Rattle.events.specs.Events.{is_same, with_document};
ghost use Rattle.events.specs.Refusal.{most_events};
ghost use Rattle.events.specs.aids.CallPlaces.{AreBelow, AreFoundAlike, AreRising};
ghost use Rattle.events.specs.aids.Indexes.{IsNotedAt, with_listed};

use crate::documents::Documents;
use std::alloc::Global;
use std::collections::BTreeMap;
use std::marker::Model;
use version_pair::{DocId, NoMemory};

/// The position of each call among the events, by its number.
///
/// Recorders give rising numbers: these are in a list, which is searched by bisection. A call whose number is
/// not above all numbers in the list goes to an ordered map. So no choice of numbers makes a look-up cost
/// more than the logarithm of how many there are.
#[derive(Debug, Drop)]
pub struct CallPlaces {
    rising: Vec<(u64, usize)>,
    others: BTreeMap<u64, usize>,
}

impl Model for CallPlaces {
    ghost use Rattle.std.specs.Prelude.{ℕ, List, ◌++◌};
    ghost use Rattle.events.specs.aids.CallPlaces.{AreRising};

    ghost Value = { List (ℕ × ℕ) };

    ghost view = { λ p. p.rising.items ++ p.others.entries };

    ghost invariant = { λ p. AreRising p.rising.items };
}

// Whether the number is above all of these, whose numbers rise.
fn is_above_all(calls: &[(u64, usize)], no: u64) -> bool
    requires { AreRising calls.now }
    ensures { IsTrue result → AreBelow calls.now no }
{
    match calls.last() {
        Some((last, _)) => *last < no,
        None => true,
    }
}

// The position of the call with this number among calls with rising numbers, if no number is left out from it
// to the last: most recorders count.
fn counted_place(calls: &[(u64, usize)], no: u64) -> Option<usize>
    requires { AreRising calls.now }
    ensures { IfSome result (λ place. lookup (◌==◌ no) calls.now ≡ Some place) }
{
    let Some((last, _)) = calls.last() else {
        return None;
    };
    let behind = last.saturating_sub(no) as usize;
    if behind >= calls.len() {
        return None;
    }
    let (number, place) = calls[calls.len() - 1 - behind];
    if number == no { Some(place) } else { None }
}

// The position of the call with this number among calls with rising numbers.
fn rising_place(calls: &[(u64, usize)], no: u64) -> Option<usize>
    requires { AreRising calls.now }
    ensures { result ≡ lookup (◌==◌ no) calls.now }
{
    if is_above_all(calls, no) {
        return None;
    }
    if let Some(place) = counted_place(calls, no) {
        return Some(place);
    }
    match calls.binary_search_by_key(&no, |&(number, _)| number) {
        Ok(at) => Some(calls[at].1),
        Err(_) => None,
    }
}

impl CallPlaces {
    /// Returns a map without calls. It allocates nothing.
    pub fn new(alloc: Global) -> CallPlaces
        ensures { result ≡ [] }
    {
        CallPlaces {
            rising: Vec::new(alloc),
            others: BTreeMap::new(alloc),
        }
    }

    /// Returns the position of the call with this number.
    pub fn get(&self, no: u64) -> Option<usize>
        ensures { result ≡ lookup (◌==◌ no) self.now }
    {
        match rising_place(self.rising.as_slice(), no) {
            Some(place) => Some(place),
            None => self.others.get(&no).copied(),
        }
    }

    /// Adds the position of a call under its number, and to those of its document. The document has the index
    /// `doc`, or is new and goes to the end of the documents. If memory is refused, nothing is added.
    pub fn note_call(
        &mut self,
        documents: &mut Documents,
        doc: Option<usize>,
        no: u64,
        id: &DocId,
        shard: u32,
        place: usize,
    ) -> Result<(), NoMemory>
        requires fresh { lookup (◌==◌ no) self.old ≡ None }
        requires sizes { length documents.old.lists ≡ length documents.old.entries }
        requires stands { doc ≡ position (λ d. is_same id.now d.0) documents.old.entries }
        requires place { place < most_events }
        requires few { documents.old.calls < most_events }
        ensures noted { OnOk result (IsNotedAt no place self.old self.new) }
        ensures counted { OnOk result (documents.new.calls ≡ documents.old.calls + 1) }
        ensures kept { OnErr result (AreFoundAlike self.old self.new) }
        ensures ok { OnOk result (documents.new.entries ≡ with_document documents.old.entries id.now shard) }
        ensures listed { OnOk result (documents.new.lists
            ≡ with_listed documents.old.entries documents.old.lists id.now place) }
        ensures err { OnErr result (documents.new ≡ documents.old) }
    {
        if is_above_all(self.rising.as_slice(), no) {
            self.rising.reserve(1)?;
            documents.note_call(doc, id, shard, place)?;
            self.rising.push_reserved((no, place));
            return Ok(());
        }
        self.others.insert(no, place)?;
        let noted = documents.note_call(doc, id, shard, place);
        if noted.is_err() {
            self.others.remove(&no);
        }
        noted
    }
}
