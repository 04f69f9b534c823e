use crate::lost::Lost;
use crate::performing::perform;
use crate::plan::{InStretch, RoundPlan};
use crate::stand::Stand;
use completing::{Count, No, Records, is_conflict};
use doc_register::{Conflicts, Op};
use events::Rec;
use version_pair::NoMemory;

// Inserts a write after the stretch for a call that finds no stretch: for a missing, a delete; for a create's
// conflict, a write of the document; and for a conflict on a pair, any write after which the flag of the next
// write still fits.
fn serve<D: Count, S: Count>(
    records: Records<'_, D>,
    plan: &mut RoundPlan<D, S>,
    lost: &mut Lost<D>,
    found: Rec,
    reply_at: usize,
    stretch: No<S>,
) -> Result<bool, NoMemory> {
    let (delete, write) = match found.op {
        Op::Get => (true, false),
        Op::Create { .. } => (false, true),
        Op::Index { .. } | Op::Delete { .. } => {
            let next = plan.stretch(stretch).needs;
            (next != Some(true), next != Some(false))
        }
    };
    let ask = plan.ask(stretch, delete, write, reply_at);
    match lost.candidate(ask) {
        Some(rec) => plan.insert(records, lost, stretch, InStretch::After, rec),
        None => Ok(false),
    }
}

/// Returns the stretch of a missing or a conflict that no stretch up to the bound allows, after a write is
/// inserted for it: for a conflict on a pair directly after the write of that pair, otherwise after the last
/// write that may come before it. Under Maybe a conflict for which there is nothing to insert becomes a write
/// itself. Returns `None` if nothing is inserted.
pub fn ask<D: Count, S: Count>(
    records: Records<'_, D>,
    plan: &mut RoundPlan<D, S>,
    stand: &Stand<D, S>,
    lost: &mut Lost<D>,
    conflicts: Conflicts,
    bound: No<S>,
    rec: No<D>,
    found: Rec,
    reply_at: usize,
) -> Result<Option<No<S>>, NoMemory> {
    let stretch = match found.op.condition() {
        Some(pair) => stand.of_pair(pair),
        None => Some(bound),
    };
    if let Some(stretch) = stretch {
        // What is inserted there already may serve it: the next round decides.
        if plan.stretch(stretch).has_inserted
            || serve(records, plan, lost, found, reply_at, stretch)?
        {
            return Ok(Some(stretch));
        }
    }
    if conflicts == Conflicts::Maybe && is_conflict(found) {
        perform(records, plan, stand, lost, found, reply_at, rec)
    } else {
        Ok(None)
    }
}
