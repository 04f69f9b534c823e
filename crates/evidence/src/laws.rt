//! The law of evidence. It is the contract of a function that does nothing.

ghost use Rattle.evidence.specs.Evidence.{EvidenceRefutes};

/// Shows that a history in which evidence holds is not linearizable, however its pending calls are completed.
#[tactic(auto, using(crate::proofs::EvidenceLaws::evidence_refutes))]
pub fn evidence_refutes()
    ensures { EvidenceRefutes }
{}
