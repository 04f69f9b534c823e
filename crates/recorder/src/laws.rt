//! Laws of the definitions. Each is the contract of a function that does nothing.

ghost use Rattle.recorder.specs.Laws.{RecordingsAreByNumber};

/// Shows that in a recording of pens each entry's event is at its number, that there is no other event, and
/// that the pens have no other recording.
#[tactic(auto, using(crate::proofs::RecordingLaws::recordings_are_by_number))]
pub fn recordings()
    ensures { RecordingsAreByNumber }
{}
