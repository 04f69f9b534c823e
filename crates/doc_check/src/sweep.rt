ghost use Rattle.std.specs.Prelude.{◌≡◌, ◌<◌, ◌≤◌, Some, IfOk, IfSome, IfNone, MatchOption, List, length, slice_get};
ghost use Rattle.events.specs.declared.record.Rec.{Rec as Call};
ghost use Rattle.places.specs.declared.place.Place.{Place};
ghost use Rattle.events.specs.Heard.{pair_of};
ghost use Rattle.doc_check.specs.aids.Stretches.{AreStretches, cap};
ghost use Rattle.doc_check.specs.aids.Sweep.{AreGiven, AreSpread, IsMet, IsStuck};

use crate::moments::{Moment, moments_of};
use crate::stretches::Stretches;
use events::Rec;
use std::alloc::Global;
use version_pair::NoMemory;

// The last stretch for what comes before a record in this stretch: a write is the first of its own stretch.
fn last_before(found: &Rec, stretch: usize) -> usize
    ensures { result ≡ cap (pair_of found.now.heard) stretch }
{
    match found.pair_taken() {
        Some(_) => stretch.saturating_sub(1),
        None => stretch,
    }
}

// The record's stretch after the moment is met, and the bound for all moments that are met later.
fn meet(
    records: &[Rec],
    stretches: &Stretches,
    given: &[Option<usize>],
    bound: usize,
    moment: Moment,
) -> Option<(usize, usize)>
    requires laid_out { AreStretches records.now stretches.now }
    requires rec { moment.rec < length records.now }
    requires size { length given.now ≡ length records.now }
    requires bound { bound ≤ length stretches.now.chain.items }
    ensures some { IfSome result (λ met. (r : Call) → slice_get records.now moment.rec ≡ Some r
        → IsMet records.now stretches.now.chain.items given.now bound moment r met.0 met.1) }
    ensures none { IfNone result ((r : Call) → slice_get records.now moment.rec ≡ Some r
        → IsStuck records.now stretches.now.chain.items given.now bound moment r) }
{
    let found = &records[moment.rec];
    match given[moment.rec] {
        Some(stretch) => {
            if moment.is_reply {
                Some((stretch, bound))
            } else {
                Some((stretch, bound.min(last_before(found, stretch))))
            }
        }
        None => {
            if moment.is_reply {
                match stretches.latest(moment.rec, found, bound) {
                    Some(stretch) => Some((stretch, bound)),
                    None => None,
                }
            } else {
                None
            }
        }
    }
}

/// Returns, for each answered record, the latest stretch that any order allows it; `None` if some record has
/// no stretch.
pub fn sweep(
    alloc: Global,
    records: &[Rec],
    stretches: &Stretches,
) -> Result<Option<Vec<Option<usize>>>, NoMemory>
    requires { AreStretches records.now stretches.now }
    ensures { IfOk result (λ swept. MatchOption swept ((places : List Place)
        → ¬ AreSpread records.now stretches.now.chain.items places)
        (λ given. AreGiven records.now stretches.now.chain.items given.items)) }
{
    let moments = moments_of(alloc, records)?;
    let mut given = vec![in alloc; None; records.len()]?;
    let mut bound = stretches.last();
    for i in 0..moments.len() {
        let moment = moments[i];
        match meet(records, stretches, &given, bound, moment) {
            Some((stretch, lowered)) => {
                given[moment.rec] = Some(stretch);
                bound = lowered;
            }
            None => return Ok(None),
        }
    }
    Ok(Some(given))
}
