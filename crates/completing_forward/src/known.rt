use completing::{Count, HasPair, No, Records, WritesByNumber, find, find_near};
use doc_register::Reply;
use events::Rec;
use std::alloc::Global;
use version_pair::{NoMemory, Pair};
use write_chain::sort_nearly_ordered;

/// A pair that some write must have.
#[derive_where(Clone, Copy)]
pub struct KnownPair<D: Count> {
    pub pair: Pair,
    /// The answered write that has it.
    pub writer: Option<No<D>>,
    /// The number that it was written with, if that is known.
    pub number: Option<u64>,
    /// How many writes may be inserted before it.
    pub room: u64,
}

/// The pairs that some write must have, rising: those of the performed answered writes, those that their
/// conditions or gets name, and those that unanswered writes which must be performed ask for. Also the pairs
/// that other conditions name.
#[derive(Drop)]
pub struct KnownPairs<D: Count> {
    pub entries: Vec<KnownPair<D>>,
    /// The pairs that conditions name and that no write is known to have, rising.
    pub named: Vec<Pair>,
}

// How a record shows a pair.
#[derive(Clone, Copy, PartialEq, Eq, PartialOrd, Ord)]
enum ShownBy {
    // It is the answered write that has the pair, with this number.
    Write(Option<u64>),
    // It is a get that found the pair with this number.
    Get(u64),
    // Its condition names the pair.
    Condition,
}

// A pair that a record shows.
#[derive_where(Clone, Copy, PartialEq, Eq, PartialOrd, Ord)]
struct ShownPair<D: Count> {
    pair: Pair,
    rec: No<D>,
    by: ShownBy,
}

impl<D: Count> HasPair for KnownPair<D> {
    fn pair(&self) -> Pair {
        self.pair
    }
}

impl ShownBy {
    // How the record shows the pair.
    fn of(found: Rec, pair: Pair) -> ShownBy {
        if found.pair_taken() == Some(pair) {
            return ShownBy::Write(found.op.value());
        }
        match found.heard {
            Some((_, Reply::Found { pair: own, k })) if own == pair => ShownBy::Get(k),
            _ => ShownBy::Condition,
        }
    }
}

// Adds a pair that the record shows.
fn note_pair<D: Count>(
    shown: &mut Vec<ShownPair<D>>,
    rec: No<D>,
    found: Rec,
    pair: Pair,
) -> Result<(), NoMemory> {
    shown.push(ShownPair {
        pair,
        rec,
        by: ShownBy::of(found, pair),
    })?;
    Ok(())
}

// Adds the pairs that the record makes known.
fn note_pairs<D: Count>(
    shown: &mut Vec<ShownPair<D>>,
    rec: No<D>,
    found: Rec,
) -> Result<(), NoMemory> {
    if let Some(pair) = found.pair_taken() {
        note_pair(shown, rec, found, pair)?;
        if let Some(named) = found.op.condition() {
            note_pair(shown, rec, found, named)?;
        }
    }
    if let Some((_, Reply::Found { pair, .. })) = found.heard {
        note_pair(shown, rec, found, pair)?;
    }
    Ok(())
}

impl<D: Count> KnownPair<D> {
    // Adds what a record shows of the pair. Returns `false` if it contradicts the others: another write has
    // the pair, or it has another number, or none.
    fn note(&mut self, shown: ShownPair<D>) -> bool {
        match shown.by {
            ShownBy::Write(number) => {
                if self.writer.is_some() || self.number.is_some() && self.number != number {
                    return false;
                }
                self.writer = Some(shown.rec);
                self.number = number;
                true
            }
            ShownBy::Get(k) => {
                if self.writer.is_none() && self.number.is_none() {
                    self.number = Some(k);
                }
                self.number == Some(k)
            }
            ShownBy::Condition => true,
        }
    }

    /// Returns the only write that can have the pair, if no answered write has it.
    pub fn only_writer(&self, numbers: &WritesByNumber<D>) -> Option<No<D>> {
        match self.writer {
            Some(_) => None,
            None => numbers.only(self.number?),
        }
    }

    // The pair that the only unanswered write asks for that can have this one, and that write.
    fn asked(&self, records: Records<'_, D>, numbers: &WritesByNumber<D>) -> Option<ShownPair<D>> {
        let rec = self.only_writer(numbers)?;
        Some(ShownPair {
            pair: records.of(rec).op.condition()?,
            rec,
            by: ShownBy::Condition,
        })
    }
}

impl<D: Count> KnownPairs<D> {
    /// Returns the known pairs of a document. Returns `None` if two writes or gets contradict each other:
    /// they show two writes with one pair, or two numbers, or a deleted document that is found.
    pub fn of(
        alloc: Global,
        records: Records<'_, D>,
        numbers: &WritesByNumber<D>,
    ) -> Result<Option<KnownPairs<D>>, NoMemory> {
        let mut shown = Vec::with_capacity(alloc, records.len())?;
        for index in 0..records.len() {
            let rec = No::new(index);
            note_pairs(&mut shown, rec, records.of(rec))?;
        }
        sort_nearly_ordered(&mut shown);
        let Some(known) = KnownPairs::of_shown(alloc, records, &shown)? else {
            return Ok(None);
        };
        if known.note_asked(&mut shown, records, numbers)? {
            sort_nearly_ordered(&mut shown);
            KnownPairs::of_shown(alloc, records, &shown)
        } else {
            Ok(Some(known))
        }
    }

    // The pairs with what is known of each, by the records that show them, in order. `None` if records
    // contradict each other.
    fn of_shown(
        alloc: Global,
        records: Records<'_, D>,
        shown: &[ShownPair<D>],
    ) -> Result<Option<KnownPairs<D>>, NoMemory> {
        let mut known = KnownPairs {
            entries: Vec::with_capacity(alloc, shown.len())?,
            named: Vec::new(alloc),
        };
        for next in shown {
            if !known.note(*next)? {
                return Ok(None);
            }
        }
        known.note_named(records)?;
        Ok(Some(known))
    }

    // Adds what a record shows of a pair, after all that is shown of lesser pairs. Returns `false` if records
    // contradict each other.
    fn note(&mut self, shown: ShownPair<D>) -> Result<bool, NoMemory> {
        if let Some(last) = self.entries.last_mut() {
            if last.pair == shown.pair {
                return Ok(last.note(shown));
            }
        }
        let mut known = KnownPair {
            pair: shown.pair,
            writer: None,
            number: None,
            room: u64::MAX,
        };
        let agrees = known.note(shown);
        self.entries.push(known)?;
        Ok(agrees)
    }

    // Adds the pairs that unanswered writes which must be performed ask for: each such write is the only one
    // with the number of a known pair that no answered write has. Returns whether one was added.
    fn note_asked(
        &self,
        shown: &mut Vec<ShownPair<D>>,
        records: Records<'_, D>,
        numbers: &WritesByNumber<D>,
    ) -> Result<bool, NoMemory> {
        let mut is_new = false;
        for entry in &self.entries {
            if let Some(asked) = entry.asked(records, numbers) {
                if find(&self.entries, asked.pair).is_none() {
                    shown.push(asked)?;
                    is_new = true;
                }
            }
        }
        Ok(is_new)
    }

    // Adds the pairs that conditions name and no write is known to have.
    fn note_named(&mut self, records: Records<'_, D>) -> Result<(), NoMemory> {
        let mut near = 0;
        for found in records.all() {
            if let Some(pair) = found.op.condition() {
                if self.place_near(pair, &mut near).is_none() {
                    self.named.push(pair)?;
                }
            }
        }
        self.named.sort_unstable();
        self.named.dedup();
        Ok(())
    }

    /// Returns the known pair at an index of their order; `None` after the last one.
    pub fn entry(&self, at: usize) -> Option<KnownPair<D>> {
        self.entries.get(at).copied()
    }

    /// Returns the index of the first of the named pairs that is not below a pair.
    pub fn first_named(&self, from: Pair) -> usize {
        self.named.partition_point(|pair| *pair < from)
    }

    /// Returns the index of a pair among the named ones.
    pub fn named_place(&self, pair: Pair) -> Option<usize> {
        self.named.binary_search(&pair).ok()
    }

    /// Returns the index of a pair, if it is known. It is searched for near another index first, which
    /// becomes that of the pair.
    pub fn place_near(&self, pair: Pair, near: &mut usize) -> Option<usize> {
        find_near(&self.entries, pair, near)?;
        Some(*near)
    }
}
