ghost use Rattle.std.specs.Prelude.{◌<◌, All};

use crate::lost::Lost;
use crate::queue::Queue;
use completing::{ChainWrite, ConflictOrder, Count, No, Records, Timed, WritesByNumber, find_near};
use doc_register::{Conflicts, Op, Reply};
use std::alloc::Global;
use std::collections::BTreeSet;
use version_pair::{NoMemory, Pair};
use write_chain::{chain_of, rises, sort_nearly_ordered};

// The pairs and numbers that gets found and that no write of the chain has, by pair.
fn unwritten<D: Count>(
    alloc: Global,
    records: Records<'_, D>,
    chain: &[(Pair, usize)],
) -> Result<Vec<(Pair, u64)>, NoMemory> {
    let mut unwritten = Vec::new(alloc);
    let mut near = 0;
    for found in records.all() {
        if let Some((_, Reply::Found { pair, k })) = found.heard {
            if find_near(chain, pair, &mut near).is_none() {
                unwritten.push((pair, k))?;
            }
        }
    }
    sort_nearly_ordered(&mut unwritten);
    Ok(unwritten)
}

// The unanswered indexes in the order of calls.
fn unanswered_indexes<D: Count>(
    alloc: Global,
    records: Records<'_, D>,
    incomplete: &[No<D>],
) -> Result<Queue<D>, NoMemory> {
    let mut indexes = Queue::new(alloc);
    for rec in incomplete {
        let found = records.of(*rec);
        if found.heard.is_none() && matches!(found.op, Op::Index { .. }) {
            indexes.push(Timed {
                at: found.call_at,
                rec: *rec,
            })?;
        }
    }
    indexes.sort();
    Ok(indexes)
}

// The chain that is being named.
#[derive(Drop)]
struct Naming<'a, D: Count> {
    // The performed answered writes, by pair.
    chain: &'a [(Pair, usize)],
    // The writes that are given pairs.
    named: Vec<(Pair, No<D>)>,
    // The pairs that they are given.
    given: BTreeSet<Pair>,
    // The conditions of the writes that are not pairs of the writes, or were not when they were added.
    asked: BTreeSet<Pair>,
    ghost within: { All (λ link. link.1 < D.number) chain.now },
}

impl<D: Count> Naming<'_, D> {
    // Whether a write has the pair, which is searched for near an index of the chain first.
    fn has(&self, pair: Pair, mut near: usize) -> bool {
        find_near(self.chain, pair, &mut near).is_some() || self.given.contains(&pair)
    }

    // Takes the record, whose pair is near an index of the chain.
    fn take(
        &mut self,
        records: Records<'_, D>,
        lost: &mut Lost<D>,
        rec: No<D>,
        near: usize,
    ) -> Result<(), NoMemory> {
        lost.take(rec);
        if let Some(named) = records.of(rec).op.condition() {
            if !self.has(named, near) {
                self.asked.insert(named)?;
            }
        }
        Ok(())
    }

    // Gives the record the pair.
    fn give(
        &mut self,
        records: Records<'_, D>,
        lost: &mut Lost<D>,
        pair: Pair,
        rec: No<D>,
    ) -> Result<(), NoMemory> {
        self.given.insert(pair)?;
        self.named.push((pair, rec))?;
        let mut near = 0;
        let _ = find_near(self.chain, pair, &mut near);
        self.take(records, lost, rec, near)
    }

    // Takes the performed answered writes.
    fn take_chain(&mut self, records: Records<'_, D>, lost: &mut Lost<D>) -> Result<(), NoMemory> {
        let chain = self.chain;
        for place in 0..chain.len() {
            self.take(records, lost, No::new(chain[place].1), place)?;
        }
        Ok(())
    }

    // Gives a pair that a get found and no write of the chain has to the first unanswered write of its
    // number, by call; under Maybe otherwise to that of a conflict. Returns `false` if none is left.
    fn name_shown(
        &mut self,
        alloc: Global,
        records: Records<'_, D>,
        lost: &mut Lost<D>,
        conflicts: Conflicts,
    ) -> Result<bool, NoMemory> {
        let unwritten = unwritten(alloc, records, self.chain)?;
        if unwritten.is_empty() {
            return Ok(true);
        }
        let mut writes = WritesByNumber::of(alloc, records, conflicts, ConflictOrder::Last)?;
        for (pair, k) in &unwritten {
            if !self.given.contains(pair) {
                match writes.first(*k, lost.taken()) {
                    Some(entry) => self.give(records, lost, *pair, entry.rec)?,
                    None => return Ok(false),
                }
            }
        }
        Ok(true)
    }

    // Gives a pair that the condition of a write of the chain names and no write of the chain has to the
    // first unanswered index, by call, the least pair first. Returns `false` if none is left.
    fn name_asked(
        &mut self,
        alloc: Global,
        records: Records<'_, D>,
        lost: &mut Lost<D>,
    ) -> Result<bool, NoMemory> {
        let mut indexes = unanswered_indexes(alloc, records, lost.incomplete())?;
        // Each write asks for at most one pair.
        for _ in 0..records.len() {
            let Some(pair) = self.asked.pop_first() else {
                return Ok(true);
            };
            if !self.has(pair, 0) {
                match indexes.first(lost.taken()) {
                    Some(entry) => self.give(records, lost, pair, entry.rec)?,
                    None => return Ok(false),
                }
            }
        }
        Ok(true)
    }

    // All writes, by pair.
    fn writes(&mut self, alloc: Global) -> Result<Vec<ChainWrite<D>>, NoMemory> {
        self.named.sort_unstable();
        let room = self.chain.len() + self.named.len();
        let mut writes = Vec::with_capacity(alloc, room)?;
        let mut next = 0;
        for at in 0..self.chain.len() {
            let (pair, rec) = self.chain[at];
            for i in next..self.named.len() {
                if self.named[i].0 > pair {
                    break;
                }
                writes.push(with_pair(self.named[i].0, self.named[i].1))?;
                next = i + 1;
            }
            writes.push(with_pair(pair, No::new(rec)))?;
        }
        for i in next..self.named.len() {
            writes.push(with_pair(self.named[i].0, self.named[i].1))?;
        }
        Ok(writes)
    }
}

// A write that has this pair.
fn with_pair<D: Count>(pair: Pair, rec: No<D>) -> ChainWrite<D> {
    ChainWrite {
        pair: Some(pair),
        rec,
    }
}

/// Returns the chain with a write for each pair that is named, by a get that found it or by the condition of
/// a write in the chain. Returns `None` if none is left to complete, or if two performed answered writes have
/// the same pair.
pub fn named_chain<D: Count>(
    alloc: Global,
    records: Records<'_, D>,
    lost: &mut Lost<D>,
    conflicts: Conflicts,
) -> Result<Option<Vec<ChainWrite<D>>>, NoMemory> {
    let chain = chain_of(alloc, records.all())?;
    if !rises(&chain) {
        return Ok(None);
    }
    let mut naming = Naming {
        chain: &chain,
        named: Vec::new(alloc),
        given: BTreeSet::new(alloc),
        asked: BTreeSet::new(alloc),
    };
    naming.take_chain(records, lost)?;
    if !naming.name_shown(alloc, records, lost, conflicts)?
        || !naming.name_asked(alloc, records, lost)?
    {
        return Ok(None);
    }
    Ok(Some(naming.writes(alloc)?))
}
