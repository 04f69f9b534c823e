//! Laws of the definitions. Each is the contract of a function that does nothing.

ghost use Rattle.repl_group.specs.Honest.{HonestGroups};

/// Shows that an honest group, whatever steps it takes from its start, gives no pair to two tickets, and that
/// each of its copies in sync holds each write that is answered `Indexed` or `Deleted`.
#[tactic(auto, using(crate::proofs::RunLemmas::honest_groups))]
pub fn honest_groups()
    ensures { HonestGroups }
{}
