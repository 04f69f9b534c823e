ghost use Rattle.std.specs.Prelude.{◌≡◌, ◌↔◌, IsTrue, IfSome, IfNone, slice_get};
ghost use Rattle.doc_register.specs.declared.state.DocState.{DocState as State};
ghost use Rattle.places.specs.Places.{GivesAsMay, StepsAt};

use crate::place::Place;
use doc_register::{Conflicts, DocState, Op, Reply, performed_reply, step};
use events::Rec;
use version_pair::Pair;

/// Returns the record that the place names.
pub fn named_record(records: &[Rec], place: Place) -> Option<Rec>
    ensures { result ≡ slice_get records.now place.rec }
{
    records.get(place.rec).copied()
}

/// Returns whether the place of such a call gives a pair if it must, and gives none if it must not.
pub fn gives_as_may(conflicts: Conflicts, heard: Option<(usize, Reply)>, pair: Option<Pair>) -> bool
    ensures { IsTrue result ↔ GivesAsMay conflicts heard pair }
{
    match (heard, pair) {
        (None, pair) => pair.is_some(),
        (Some(_), None) => true,
        (Some((_, Reply::Conflict)), Some(_)) => matches!(conflicts, Conflicts::Maybe),
        (Some(_), Some(_)) => false,
    }
}

// The document after an unanswered write is performed with the pair.
fn complete(state: DocState, op: &Op, pair: Pair) -> Option<DocState>
    ensures some { IfSome result (StepsAt state op.now None (Some pair)) }
    ensures none { IfNone result ((after : State) → ¬ StepsAt state op.now None (Some pair) after) }
{
    step(state, op, &performed_reply(state, *op, pair), None)
}

/// Returns the document after the call of a place, or `None` if the call can't have its reply there.
pub fn step_at(state: DocState, found: Rec, pair: Option<Pair>) -> Option<DocState>
    ensures some { IfSome result (StepsAt state found.op found.heard pair) }
    ensures none { IfNone result ((after : State)
        → ¬ StepsAt state found.op found.heard pair after) }
{
    match (found.heard, pair) {
        (Some(heard), pair) => step(state, &found.op, &heard.1, pair),
        (None, Some(pair)) => complete(state, &found.op, pair),
        (None, None) => None,
    }
}
