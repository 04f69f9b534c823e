use crate::lost::Lost;
use crate::plan::{InStretch, RoundPlan};
use crate::refused::RefusedWalk;
use completing::{Count, No, Records};
use version_pair::NoMemory;

/// Fits the flag of the write at the end of a stretch. If it asks for the document, or for its absence, and
/// that is not so, one write is inserted before it: the first conflict without a condition that has no place
/// yet, otherwise the first unanswered write. Returns `false` if there is none to insert.
pub fn fit_flag<D: Count, S: Count>(
    records: Records<'_, D>,
    plan: &mut RoundPlan<D, S>,
    lost: &mut Lost<D>,
    refused: &mut RefusedWalk<'_, D>,
    stretch: No<S>,
) -> Result<bool, NoMemory> {
    let own = plan.stretch(stretch);
    let Some(live) = own.needs else {
        return Ok(true);
    };
    if own.live == live {
        return Ok(true);
    }
    let ask = plan.ask(stretch, !live, live, usize::MAX);
    let first = refused.first(lost.taken(), ask, plan.latest_call(stretch));
    let taken = match first {
        Some(rec) => Some(rec),
        None => lost.candidate(ask),
    };
    match taken {
        Some(rec) => plan.insert(records, lost, stretch, InStretch::Before, rec),
        None => Ok(false),
    }
}

/// Fits the flags of all writes of the chain. Returns `false` if there is no write to insert for one.
pub fn fit_flags<D: Count, S: Count>(
    records: Records<'_, D>,
    plan: &mut RoundPlan<D, S>,
    lost: &mut Lost<D>,
    refused: &mut RefusedWalk<'_, D>,
) -> Result<bool, NoMemory> {
    for stretch in 0..plan.writes.len() {
        if !fit_flag(records, plan, lost, refused, No::new(stretch))? {
            return Ok(false);
        }
    }
    Ok(true)
}
