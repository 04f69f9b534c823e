//! Laws of the definitions. Each is the contract of a function that does nothing.

ghost use Rattle.doc_check.specs.NoOrders.{CompleteHaveNone};

/// Shows that complete records for which no places without a given pair are valid have no valid
/// places at all.
pub fn complete_have_none()
    ensures { CompleteHaveNone }
{}
