//! Laws of the definitions. Each is the contract of a function that does nothing.

ghost use Rattle.doc_register.specs.Laws.{AcceptedAreLegal, LeavingOut, Locality, NoPairTwice, OneDocument, PairsRise, RunIsDecided, StepIsDecided};
ghost use Rattle.doc_register.specs.WorkedSteps.{WorkedSteps};

/// Shows that the definitions of a step and of a legal run allow and refuse what they should, by worked
/// cases: each kind of answer, legal and illegal, and eight whole runs.
#[tactic(auto, using(crate::proofs::WorkedSteps::worked_steps))]
pub fn worked_steps()
    ensures { WorkedSteps }
{}

/// Shows that the document before a call, the call, its reply and the pair that the reply hides determine at
/// most one document after it.
#[tactic(auto, using(crate::proofs::RunLaws::step_decided))]
pub fn step_decided()
    ensures { StepIsDecided }
{}

/// Shows that in a run of one document each pair that is taken is below those that are taken later.
pub fn pairs_rise()
    ensures { PairsRise }
{}

/// Shows that a run of one document alone, in one shard, is a legal run: the pairs of a document rise, so
/// none is taken twice.
#[tactic(auto, using(crate::proofs::RunLaws::one_document))]
pub fn one_document()
    ensures { OneDocument }
{}

/// Shows that a run determines the state of each document after it, and which pairs are used.
#[tactic(auto, using(crate::proofs::RunLaws::run_decided))]
pub fn run_decided()
    ensures { RunIsDecided }
{}

/// Shows that in a legal run no two performed calls of a shard carry the same pair, whether their replies
/// show it or hide it.
#[tactic(auto, using(crate::proofs::RunLaws::no_pair_twice))]
pub fn no_pair_twice()
    ensures { NoPairTwice }
{}

/// Shows that a legal run stays legal without a get, and without a conflict that was not performed.
pub fn leaving_out()
    ensures { LeavingOut }
{}

/// Shows that calls are a legal run if and only if each document's part of them is a run of that document
/// alone, and no pair of a shard is taken twice.
pub fn locality()
    ensures { Locality }
{}

/// Shows that, of any list of calls on a `DocMap`, the accepted ones are a legal run of one shard.
#[tactic(auto, using(crate::proofs::DocumentLemmas::accepted_legal))]
pub fn accepted_are_legal()
    ensures { AcceptedAreLegal }
{}
