ghost use Rattle.std.specs.Prelude.{◌≡◌, length};

use crate::failed::Failed;
use crate::limit::Limit;
use crate::moves::{NextTry, is_dead_end, next_write};
use crate::state::SearchState;
use crate::walk::{ForwardWalk, Placed};
use completing::{Chain, ChainWrite, Count, Records, Table, places_with_pairs};
use doc_register::Conflicts;
use events::{Rec, Seen};
use places::Place;
use std::alloc::Global;
use std::marker::Brand;
use version_pair::{NoMemory, Pair};

// A point that the walk reached, and what is tried there next.
#[derive(Clone, Copy)]
struct Choice {
    state: SearchState,
    // The number of records that were placed.
    placed: usize,
    next: NextTry,
}

// What a step of the search came to.
#[derive(Clone, Copy, PartialEq, Eq)]
enum StepOutcome {
    // All answered records are placed.
    Done,
    // The search goes on.
    More,
    // Nothing is left to try.
    Stuck,
}

// A search, and the points to which it may come back.
#[derive(Drop)]
struct Search<'a, D: Count> {
    walk: ForwardWalk<'a, D>,
    choices: Vec<Choice>,
    failed: Failed,
    // The latest of the replies that were the first left at some point.
    furthest: Option<usize>,
}

impl<D: Count> Search<'_, D> {
    // The search before its first step; `None` if the records contradict each other.
    fn of<'a>(
        alloc: Global,
        records: Records<'a, D>,
        conflicts: Conflicts,
        used: &'a [Pair],
        limits: &[Limit],
    ) -> Result<Option<Search<'a, D>>, NoMemory> {
        let steps = most_steps(records.all(), limits);
        let Some(walk) = ForwardWalk::of(alloc, records, conflicts, used, limits, steps)? else {
            return Ok(None);
        };
        Ok(Some(Search {
            walk,
            choices: Vec::with_capacity(alloc, records.len())?,
            failed: Failed::of(alloc, records.all())?,
            furthest: None,
        }))
    }

    // Places the reads, and records the point if it can lead anywhere; otherwise goes back to the last one.
    fn arrive(&mut self) -> Result<(), NoMemory> {
        self.walk.place_reads()?;
        self.furthest = self.furthest.max(self.walk.next_reply());
        if self.failed.has(self.walk.state.key()) || is_dead_end(&mut self.walk) {
            self.go_back();
        } else {
            let choice = Choice {
                state: self.walk.state,
                placed: self.walk.order.len(),
                next: NextTry::Next(None),
            };
            self.choices.push(choice)?;
        }
        Ok(())
    }

    // Takes back what was placed since the last point.
    fn go_back(&mut self) {
        if let Some(last) = self.choices.last() {
            self.walk.take_back(last.state, last.placed);
        }
    }

    // Leaves the last point, at which nothing is left to try. At the beginning of a stretch this happens only
    // after all numbers of insertions were tried.
    fn leave(&mut self) {
        let room = self.walk.room();
        if let Some(last) = self.choices.last_mut() {
            if let Some(more) = last.state.with_more(room) {
                last.state = more;
                last.next = NextTry::Next(None);
                self.walk.state = more;
                return;
            }
        }
        if let Some(last) = self.choices.pop() {
            self.failed.note(last.state.key());
            self.go_back();
        }
    }

    // One step.
    fn step(&mut self) -> Result<StepOutcome, NoMemory> {
        if self.walk.is_done() {
            return Ok(StepOutcome::Done);
        }
        let Some(last) = self.choices.last_mut() else {
            return Ok(StepOutcome::Stuck);
        };
        match next_write(&mut self.walk, &mut last.next) {
            Some(write) => {
                self.walk.perform(write)?;
                self.arrive()?;
            }
            None => self.leave(),
        }
        Ok(StepOutcome::More)
    }

    // Whether an order is found in the steps that the walk may take.
    fn run(&mut self) -> Result<bool, NoMemory> {
        let most = self.walk.steps_left;
        self.arrive()?;
        for _ in 0..most {
            match self.step()? {
                StepOutcome::Done => return Ok(true),
                StepOutcome::More if self.walk.steps_left > 0 => {}
                StepOutcome::More | StepOutcome::Stuck => return Ok(false),
            }
        }
        Ok(false)
    }

    // The chain of the order that was found. (The points to which the search could have come back are given up
    // before it is made.)
    fn into_chain(self, alloc: Global) -> Result<Chain<D>, NoMemory> {
        let Search { walk, choices, .. } = self;
        drop(choices);
        chain_of(alloc, &walk)
    }
}

// The chain of the walk.
fn chain_of<D: Count>(alloc: Global, walk: &ForwardWalk<'_, D>) -> Result<Chain<D>, NoMemory> {
    let mut writes = Vec::new(alloc);
    let mut stretches = Table::new(alloc, walk.records.len(), None)?;
    for placed in &walk.order {
        match *placed {
            Placed::Read(rec) => stretches.set(rec, Some(writes.len())),
            Placed::Freed(rec) => stretches.set(rec, None),
            Placed::Known(rec, pair) => writes.push(ChainWrite {
                pair: Some(pair),
                rec,
            })?,
            Placed::Inserted(rec, pair) => writes.push(ChainWrite { pair, rec })?,
            Placed::KnownTurned(rec, pair) => {
                stretches.set(rec, None);
                writes.push(ChainWrite {
                    pair: Some(pair),
                    rec,
                })?;
            }
            Placed::InsertedTurned(rec, pair) => {
                stretches.set(rec, None);
                writes.push(ChainWrite { pair, rec })?;
            }
        }
    }
    Ok(Chain { writes, stretches })
}

// The number of steps that a search of these records may take. A search with limits may have nothing to find,
// and takes fewer.
fn most_steps(records: &[Rec], limits: &[Limit]) -> usize {
    if limits.is_empty() {
        records.len() * 2 + 100_000
    } else {
        records.len() + 20_000
    }
}

/// What the search forward comes to.
#[derive(Drop)]
pub enum ForwardSearch {
    /// The places of an order, which is a guess.
    Found(Vec<Place>),
    /// It found none, and came as far as this reply: the latest one such that all answered calls with an earlier
    /// reply had a place. `None` if it wasn't begun, since the records contradict each other, or if there are no
    /// pairs for what it found.
    Stuck(Option<usize>),
}

/// Looks for an order that completes unanswered writes, by a search forward in time. It has room for an
/// invented pair only if a number is left that none of the pairs in use has, and within the limits. It gives up
/// after a number of steps in proportion to the records.
///
/// What is found is a guess that `DocWitness::check` must check.
pub fn search_forward(
    alloc: Global,
    records: &[Rec],
    seen: Seen,
    conflicts: Conflicts,
    used: &[Pair],
    limits: &[Limit],
) -> Result<ForwardSearch, NoMemory> {
    search_counted::<Brand>(alloc, records, seen, conflicts, used, limits)
}

// The same. `D` counts the records.
fn search_counted<D: Count>(
    alloc: Global,
    records: &[Rec],
    seen: Seen,
    conflicts: Conflicts,
    used: &[Pair],
    limits: &[Limit],
) -> Result<ForwardSearch, NoMemory>
    requires { length records.now ≡ D.number }
{
    let records = Records::<D>::new(records);
    let Some(mut search) = Search::of(alloc, records, conflicts, used, limits)? else {
        return Ok(ForwardSearch::Stuck(None));
    };
    if !search.run()? {
        return Ok(ForwardSearch::Stuck(search.furthest));
    }
    // (What the search keeps is given up here, so that memory doesn't have the places beside it.)
    let chain = search.into_chain(alloc)?;
    match places_with_pairs(alloc, records, &chain, seen)? {
        Some(places) => Ok(ForwardSearch::Found(places)),
        None => Ok(ForwardSearch::Stuck(None)),
    }
}
