//! Laws of the definitions. Each is the contract of a function that does nothing.

ghost use Rattle.places.specs.Laws.{PlacesAreOrders};

/// Shows that valid places of a document's records are an order of its calls that explains the document, and
/// that each such order without unanswered calls that change nothing is one of valid places.
#[tactic(auto, using(crate::proofs::DocumentLaws::places_are_orders))]
pub fn valid_places()
    ensures { PlacesAreOrders }
{}
