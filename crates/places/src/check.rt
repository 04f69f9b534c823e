ghost use Rattle.std.specs.Prelude.{◌≡◌, [], IfOk, IfSome, IfNone, length};
ghost use Rattle.doc_register.specs.declared.state.Conflicts.{Conflicts as Reading};
ghost use Rattle.places.specs.Places.{AreValid};
ghost use Rattle.places.specs.Faults.{IsFirstFault};
ghost use Rattle.places.specs.aids.Walks.{AllNamedBelow, IsAbsent, IsWalked};

use crate::broken::Broken;
use crate::place::Place;
use crate::walk::{Walk, next_step};
use doc_register::{Conflicts, DocState};
use events::Rec;
use std::alloc::Global;
use version_pair::NoMemory;

/// Returns the walk over no place.
pub fn start(alloc: Global, records: &[Rec]) -> Result<Walk, NoMemory>
    ensures { IfOk result
        (λ walk. (conflicts : Reading)
        → IsWalked conflicts records.now [] walk.marks.items walk.latest walk.state) }
{
    let marks = vec![in alloc; false; records.len()]?;
    Ok(Walk {
        marks,
        latest: 0,
        state: DocState::Never,
    })
}

// The first answered record that is not marked.
fn absent(records: &[Rec], marks: &[bool]) -> Option<usize>
    requires { length marks.now ≡ length records.now }
    ensures some { IfSome result
        (λ k. IsAbsent records.now marks.now k × AllNamedBelow records.now marks.now k) }
    ensures none { IfNone result (AllNamedBelow records.now marks.now (length records.now)) }
{
    for k in 0..records.len() {
        if records[k].heard.is_some() && !marks[k] {
            return Some(k);
        }
    }
    None
}

/// Returns the first fault of the places, or `None` if they are valid. The walk must be the one over no
/// place.
pub fn first_fault(
    start: Walk,
    records: &[Rec],
    places: &[Place],
    conflicts: Conflicts,
) -> Option<Broken>
    requires { (conflicts : Reading)
        → IsWalked conflicts records.now [] start.marks.items start.latest start.state }
    ensures some { IfSome result (IsFirstFault conflicts records.now places.now) }
    ensures none { IfNone result (AreValid conflicts records.now places.now) }
{
    let mut walk = start;
    for i in 0..places.len() {
        match next_step(records, places, &walk, i, conflicts) {
            Ok((found, state)) => walk.advance(places[i], found, state),
            Err(fault) => return Some(fault),
        }
    }
    match absent(records, &walk.marks) {
        Some(k) => Some(Broken::Absent(k)),
        None => None,
    }
}
