//! Laws of readings. Each is the contract of a function that does nothing.

ghost use Rattle.readings.specs.Laws.{EvidenceRefutesReadings, ReadingsKeepHistories};

/// Shows that what a reading makes of a history is a history of the same documents, and that it has no more events
/// than the room that the events take.
#[tactic(auto, using(crate::proofs::ReadingLaws::readings_keep_histories))]
pub fn histories_stay()
    ensures { ReadingsKeepHistories }
{}

/// Shows that evidence under a reading refutes it: nothing explains a history in which it holds.
#[tactic(auto, using(crate::proofs::ReadingLaws::evidence_refutes_readings))]
pub fn evidence_refutes()
    ensures { EvidenceRefutesReadings }
{}
