//! Laws of covers and of shards. Each is the contract of a function that does nothing.

ghost use Rattle.compose.specs.Laws.{CoversExplain, FaultyAreNoCover, OrdersAreCovers, LegalInResponseOrderAreCovered, CompleteHaveNoOrder};
ghost use Rattle.compose.specs.Shards.{LocalByShard};

/// Shows that entries that cover a history make it linearizable, by an order of exactly their places.
#[tactic(auto, using(crate::proofs::Locality::covers_explain))]
pub fn covers_explain()
    ensures { CoversExplain }
{}

/// Shows that an order that explains a history, restricted to each document without its unanswered calls that
/// change nothing, gives valid places of the document, and that all of them together are a cover.
#[tactic(auto, using(crate::proofs::Restriction::orders_are_covers))]
pub fn orders_are_covers()
    ensures { OrdersAreCovers }
{}

/// Shows that a complete history that no entries without a given pair cover is not linearizable.
#[tactic(auto, using(crate::proofs::Restriction::complete_have_no_order))]
pub fn complete_have_no_order()
    ensures { CompleteHaveNoOrder }
{}

/// Shows that a history that is legal in response order is covered by entries without a given pair.
#[tactic(auto, using(crate::proofs::Restriction::legal_in_response_order_are_covered))]
pub fn legal_in_response_order_are_covered()
    ensures { LegalInResponseOrderAreCovered }
{}

/// Shows that entries that have a first fault are no cover.
#[tactic(auto, using(crate::proofs::FaultLaws::faulty_are_no_cover))]
pub fn faulty_are_no_cover()
    ensures { FaultyAreNoCover }
{}

/// Shows that each event of a history concerns just one shard, that the part of each shard is a history, and
/// that a history is linearizable exactly if the part of each shard is, with pending calls and in both
/// readings of conflicts.
#[tactic(auto, using(crate::proofs::ShardLocality::local_by_shard))]
pub fn local_by_shard()
    ensures { LocalByShard }
{}
