//! The law of documents that are ruled out. It is the contract of a function that does nothing.

ghost use Rattle.deciding.specs.Laws.{RuledOutHaveNoOrder};

/// Shows that a history with a document that is ruled out is not linearizable, however its pending calls are
/// completed, in both readings of conflicts.
pub fn ruled_out_have_no_order()
    ensures { RuledOutHaveNoOrder }
{}
