use crate::flags::fit_flag;
use crate::lost::Lost;
use crate::plan::{InStretch, RoundPlan};
use crate::refused::RefusedWalk;
use crate::stand::Stand;
use completing::{Count, No, Records};
use events::Rec;
use version_pair::NoMemory;

/// Makes a conflict a write: with a condition directly after the write of its pair, a create directly before
/// the first write whose call comes after its reply. Returns its stretch, if there is one with a number left.
pub fn perform<D: Count, S: Count>(
    records: Records<'_, D>,
    plan: &mut RoundPlan<D, S>,
    stand: &Stand<D, S>,
    lost: &mut Lost<D>,
    found: Rec,
    reply_at: usize,
    rec: No<D>,
) -> Result<Option<No<S>>, NoMemory> {
    let (stretch, side) = match found.op.condition() {
        Some(pair) => (stand.of_pair(pair), InStretch::After),
        None => (Some(plan.stretch_at(reply_at)), InStretch::Before),
    };
    let Some(stretch) = stretch else {
        return Ok(None);
    };
    if plan.insert(records, lost, stretch, side, rec)? {
        Ok(Some(stretch))
    } else {
        Ok(None)
    }
}

/// Makes the conflicts without a condition that are left writes, in response order: each directly before the
/// first write whose call comes after its reply, or at the end of the chain. Returns `false` if one finds no
/// number, or if there is no write to insert for the flag that follows it.
pub fn perform_refused<D: Count, S: Count>(
    records: Records<'_, D>,
    plan: &mut RoundPlan<D, S>,
    lost: &mut Lost<D>,
    refused: &mut RefusedWalk<'_, D>,
) -> Result<bool, NoMemory> {
    for entry in refused.all {
        if lost.taken().of(entry.rec) {
            continue;
        }
        let stretch = plan.stretch_at(entry.reply_at);
        let has_place = plan.insert(records, lost, stretch, InStretch::Before, entry.rec)?;
        if !has_place || !fit_flag(records, plan, lost, refused, stretch)? {
            return Ok(false);
        }
    }
    Ok(true)
}
