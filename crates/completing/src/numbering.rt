use crate::chain_write::{Chain, ChainWrite};
use crate::count::{Count, No};
use crate::records::Records;
use crate::table::Table;
use events::{Rec, Seen};
use places::Place;
use std::alloc::Global;
use version_pair::{NoMemory, Pair};
use write_chain::sort_nearly_ordered;

// How far apart the numbers of two places are. Each index of a call is below it, so that a place and a call
// determine a number.
const APART: u64 = 1_048_576;

// An answered record outside the chain. They are in the order by stretch, then in response order.
#[derive_where(Clone, Copy, PartialEq, Eq, PartialOrd, Ord)]
struct Outside<D: Count> {
    stretch: usize,
    reply_at: usize,
    rec: No<D>,
}

// The pair of an invented write with no greater pair after it.
fn last_pair(seen: Seen, place: usize, call_at: usize) -> Option<Pair> {
    let place = u64::try_from(place).ok()?;
    let call_at = u64::try_from(call_at).ok()?;
    let term = seen.term.checked_add(1)?.checked_add(place)?;
    Pair::new(term, call_at)
}

// The pair of an invented write before a pair of a greater term.
fn term_pair(term: u64, seen: Seen, place: usize, call_at: usize) -> Option<Pair> {
    let place = u64::try_from(place).ok()?;
    let call_at = u64::try_from(call_at).ok()?;
    let far = place.checked_mul(APART)?;
    let seq = seen
        .seq
        .checked_add(1)?
        .checked_add(far)?
        .checked_add(call_at)?;
    Pair::new(term, seq)
}

// The next known pair after each invented write, from the last to the first.
fn pairs_behind<D: Count>(
    alloc: Global,
    writes: &[ChainWrite<D>],
) -> Result<Vec<Option<Pair>>, NoMemory> {
    let mut behind = Vec::new(alloc);
    let mut next = None;
    for write in writes.iter().rev() {
        match write.pair {
            Some(_) => next = write.pair,
            None => behind.push(next)?,
        }
    }
    Ok(behind)
}

// The answered records outside the chain, by stretch, then in response order.
fn reads_in_order<D: Count>(
    alloc: Global,
    records: Records<'_, D>,
    stretches: &Table<D, Option<usize>>,
) -> Result<Vec<Outside<D>>, NoMemory> {
    let mut reads = Vec::with_capacity(alloc, records.len())?;
    for index in 0..records.len() {
        let rec = No::new(index);
        if let Some(stretch) = stretches.of(rec) {
            if let Some(heard) = records.of(rec).heard {
                reads.push(Outside {
                    stretch,
                    reply_at: heard.0,
                    rec,
                })?;
            }
        }
    }
    sort_nearly_ordered(&mut reads);
    Ok(reads)
}

// The pairs of the writes of the chain, which are assigned from the first to the last.
#[derive(Drop)]
struct PairNumbering {
    seen: Seen,
    // The next known pair after each invented write that is left, from the last to the first.
    behind: Vec<Option<Pair>>,
    // The pair of the write before the next one.
    last: Option<Pair>,
}

impl PairNumbering {
    // The pair of an invented write after the last pair and before one of a greater term, if one comes.
    fn invented_pair(&mut self, found: Rec, place: usize) -> Option<Pair> {
        let Some(next) = self.behind.pop()? else {
            return last_pair(self.seen, place, found.call_at);
        };
        let term = self.last.map_or(1, |last| last.term());
        if term < next.term() {
            term_pair(term, self.seen, place, found.call_at)
        } else {
            None
        }
    }

    // The place of the next write of the chain, with this index in the order. `None` if its pair would be
    // between two pairs of one term, or out of range.
    fn place_of<D: Count>(
        &mut self,
        write: ChainWrite<D>,
        found: Rec,
        place: usize,
    ) -> Option<Place> {
        self.last = match write.pair {
            Some(pair) => Some(pair),
            None => self.invented_pair(found, place),
        };
        let own = self.last?;
        Some(Place {
            rec: write.rec.index(),
            // A reply that shows the pair needs no pair at its place.
            pair: match found.pair_taken() {
                Some(_) => None,
                None => Some(own),
            },
        })
    }
}

// Adds the places of the reads, from one of them on, up to a stretch; and which one is next.
fn push_reads<D: Count>(
    places: &mut Vec<Place>,
    reads: &[Outside<D>],
    next: usize,
    last: usize,
) -> Result<usize, NoMemory> {
    for i in next..reads.len() {
        let Outside { stretch, rec, .. } = reads[i];
        if stretch > last {
            return Ok(i);
        }
        places.push(Place {
            rec: rec.index(),
            pair: None,
        })?;
    }
    Ok(reads.len())
}

/// Returns the places of the order, by stretch, its write first, then in response order. Writes without a
/// pair are numbered: if no pair comes after them, with a new term, and before a greater term, with a
/// sequence number that was not seen. Returns `None` if there is no such number; so for a write between two
/// pairs of one term.
pub fn places_with_pairs<D: Count>(
    alloc: Global,
    records: Records<'_, D>,
    chain: &Chain<D>,
    seen: Seen,
) -> Result<Option<Vec<Place>>, NoMemory> {
    let writes = chain.writes.as_slice();
    let mut numbering = PairNumbering {
        seen,
        behind: pairs_behind(alloc, writes)?,
        last: None,
    };
    let reads = reads_in_order(alloc, records, &chain.stretches)?;
    let mut places = Vec::with_capacity(alloc, writes.len() + reads.len())?;
    let mut next = 0;
    for stretch in 0..writes.len() {
        next = push_reads(&mut places, &reads, next, stretch)?;
        let write = writes[stretch];
        match numbering.place_of(write, records.of(write.rec), places.len()) {
            Some(place) => places.push(place)?,
            None => return Ok(None),
        }
    }
    push_reads(&mut places, &reads, next, usize::MAX)?;
    Ok(Some(places))
}
