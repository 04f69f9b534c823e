ghost use Rattle.std.specs.Prelude.{◌≡◌, ◌+◌, length};

use crate::asking::ask;
use crate::flags::fit_flags;
use crate::lost::Lost;
use crate::performing::perform_refused;
use crate::plan::RoundPlan;
use crate::refused::{RefusedWalk, RefusedWrite};
use crate::stand::Stand;
use completing::{Chain, ChainWrite, Count, No, Records, is_free_conflict};
use doc_register::Conflicts;
use events::Rec;
use std::alloc::Global;
use version_pair::NoMemory;

/// The result of a round.
#[derive(Drop)]
pub enum Round<D: Count> {
    /// Writes were inserted: the chain with them.
    More(Vec<ChainWrite<D>>),
    /// All answered records have a stretch.
    Done(Chain<D>),
    /// A rule found no write to take.
    Stuck,
}

// Gives a record outside the chain, answered there, its stretch, if needed with a write that is inserted for
// it. Returns `false` if it gets none.
fn place_read<D: Count, S: Count>(
    records: Records<'_, D>,
    plan: &mut RoundPlan<D, S>,
    stand: &mut Stand<D, S>,
    lost: &mut Lost<D>,
    conflicts: Conflicts,
    rec: No<D>,
    found: Rec,
    reply_at: usize,
) -> Result<bool, NoMemory> {
    let bound = stand.bound(reply_at, plan.last());
    let stretch = match stand.latest(plan, found, bound) {
        Some(stretch) => Some(stretch),
        None => ask(
            records, plan, stand, lost, conflicts, bound, rec, found, reply_at,
        )?,
    };
    match stretch {
        Some(stretch) => {
            stand.give(rec, stretch);
            stand.meet(found.call_at, stretch)?;
            Ok(true)
        }
        None => Ok(false),
    }
}

// Gives the answered records outside the chain their stretches, each as late as it may be, by falling call.
// Conflicts without a condition are left out. Returns `false` if one has none and there is no write to insert
// for it.
fn place_reads<D: Count, S: Count>(
    records: Records<'_, D>,
    plan: &mut RoundPlan<D, S>,
    stand: &mut Stand<D, S>,
    lost: &mut Lost<D>,
    conflicts: Conflicts,
) -> Result<bool, NoMemory> {
    let count = records.len();
    for back in 0..count {
        let rec = No::new(count - 1 - back);
        let found = records.of(rec);
        if let Some(before) = stand.before_write(rec) {
            // What was answered before a write's call comes before the write's own stretch.
            stand.meet(found.call_at, before)?;
            continue;
        }
        if let Some(stretch) = stand.of_read(rec) {
            stand.meet(found.call_at, stretch)?;
            continue;
        }
        let Some(heard) = found.heard else {
            continue;
        };
        if !is_free_conflict(found)
            && !place_read(records, plan, stand, lost, conflicts, rec, found, heard.0)?
        {
            return Ok(false);
        }
    }
    Ok(true)
}

/// Runs one round. The flags that do not fit ask for their writes; if all fit, the calls that find no stretch
/// do; if all of these have one, the conflicts without a condition that are left become writes. What is
/// inserted goes into the chain together. `S` counts the stretches.
pub fn next_round<D: Count, S: Count>(
    alloc: Global,
    records: Records<'_, D>,
    writes: Vec<ChainWrite<D>>,
    lost: &mut Lost<D>,
    refused: &[RefusedWrite<D>],
    conflicts: Conflicts,
) -> Result<Round<D>, NoMemory>
    // One stretch comes before all writes, and one after each.
    requires { length writes.items + 1 ≡ S.number }
{
    let mut walk = RefusedWalk::new(refused);
    let mut plan = RoundPlan::<D, S>::of(alloc, records, writes)?;
    if !fit_flags(records, &mut plan, lost, &mut walk)? {
        return Ok(Round::Stuck);
    }
    if !plan.is_done() {
        return Ok(Round::More(plan.merge(alloc)?));
    }
    let mut stand = Stand::of(alloc, records, &plan)?;
    if !place_reads(records, &mut plan, &mut stand, lost, conflicts)? {
        return Ok(Round::Stuck);
    }
    if plan.is_done() && !perform_refused(records, &mut plan, lost, &mut walk)? {
        return Ok(Round::Stuck);
    }
    if plan.is_done() {
        let stretches = stand.into_given(alloc, records)?;
        Ok(Round::Done(Chain {
            writes: plan.writes,
            stretches,
        }))
    } else {
        Ok(Round::More(plan.merge(alloc)?))
    }
}
