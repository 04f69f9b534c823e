use crate::past::Past;
use doc_register::{Conflicts, DocState, Reply, exceeds};
use events::Rec;
use std::alloc::Global;
use version_pair::NoMemory;

// The answered write that brings the document to this state, before all other calls.
fn change_to(state: DocState) -> Option<Rec> {
    let (op, reply) = state.making()?;
    Some(Rec {
        no: 0,
        op,
        call_at: 0,
        heard: Some((1, reply)),
    })
}

// The call that reaches into the window, with what is heard of it there; `None` if it can't change the
// document.
fn reaching(found: Rec, state: DocState, conflicts: Conflicts) -> Option<Rec> {
    match found.heard {
        None => Some(found),
        Some((_, Reply::Indexed { pair, .. } | Reply::Deleted { pair, .. }))
            if exceeds(pair, state) => { Some(found) }
        Some((_, Reply::Conflict)) if conflicts == Conflicts::Maybe => Some(Rec {
            heard: None,
            ..found
        }),
        Some(_) => None,
    }
}

/// Returns the index so many events later. (No history has as many events as there are indices.)
pub fn later(place: usize, by: usize) -> usize {
    place.saturating_add(by)
}

// Adds the call, with two indices left free before all others for the change that brings the document to its
// state.
fn push_later(window: &mut Vec<Rec>, found: Rec) -> Result<(), NoMemory> {
    window.push(Rec {
        call_at: later(found.call_at, 2),
        heard: found.heard.map(|heard| (later(heard.0, 2), heard.1)),
        ..found
    })?;
    Ok(())
}

/// Returns the calls of a document from the past up to this index, those of the past that reach into them,
/// and before all of them a write that brings the document to the state that it had. What was heard after the
/// index is left out.
pub fn window_of(
    alloc: Global,
    past: &Past,
    records: &[Rec],
    place: usize,
    conflicts: Conflicts,
) -> Result<Vec<Rec>, NoMemory> {
    let after = later(place, 1);
    let mut window = Vec::new(alloc);
    if let Some(change) = change_to(past.state) {
        window.push(change)?;
    }
    for found in &past.open {
        if let Some(found) = reaching(found.known_before(after), past.state, conflicts) {
            push_later(&mut window, found)?;
        }
    }
    for rec in past.calls..records.len() {
        let found = records[rec];
        if found.call_at > place {
            break;
        }
        push_later(&mut window, found.known_before(after))?;
    }
    Ok(window)
}
