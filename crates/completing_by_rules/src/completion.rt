ghost use Rattle.std.specs.Prelude.{◌≡◌, length};

use crate::lost::Lost;
use crate::named::named_chain;
use crate::refused::refused_writes;
use crate::round::{Round, next_round};
use completing::{Count, Records, places_with_pairs};
use doc_register::Conflicts;
use events::{Rec, Seen};
use places::Place;
use std::alloc::Global;
use std::marker::Brand;
use version_pair::NoMemory;

/// Returns an order that completes unanswered writes, by rules. First the pairs that are named get their
/// writes. Then, in rounds, the flags that do not fit ask for writes, then the calls that find no stretch,
/// and then the conflicts that nothing refuses become writes. Returns `None` if a rule finds no write to
/// take, or needs one between two pairs of one term: the search forward chooses the number of such a write.
/// The records must be in the order of their calls. The result is a guess that must be checked.
pub fn complete_by_rules(
    alloc: Global,
    records: &[Rec],
    seen: Seen,
    conflicts: Conflicts,
) -> Result<Option<Vec<Place>>, NoMemory> {
    complete::<Brand>(alloc, records, seen, conflicts)
}

// The same. `D` counts the records.
fn complete<D: Count>(
    alloc: Global,
    records: &[Rec],
    seen: Seen,
    conflicts: Conflicts,
) -> Result<Option<Vec<Place>>, NoMemory>
    requires { length records.now ≡ D.number }
{
    let records = Records::<D>::new(records);
    let mut lost = Lost::of(alloc, records)?;
    let Some(mut writes) = named_chain(alloc, records, &mut lost, conflicts)? else {
        return Ok(None);
    };
    let refused = refused_writes(alloc, records, &lost)?;
    if conflicts == Conflicts::Plain && !refused.is_empty() {
        return Ok(None);
    }
    for _ in 0..records.len() + 1 {
        match next_round::<D, Brand>(alloc, records, writes, &mut lost, &refused, conflicts)? {
            Round::More(more) => writes = more,
            Round::Done(chain) => return places_with_pairs(alloc, records, &chain, seen),
            Round::Stuck => return Ok(None),
        }
    }
    Ok(None)
}
