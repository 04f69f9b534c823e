//! Laws of the definitions. Each is the contract of a function that does nothing.

ghost use Rattle.events.specs.Laws.{LateCallsChangeNothing, LegalInResponseOrderIsLinearizable, PrecedenceIsStrict, PrefixesStay, SplitByDocument, UnansweredLeftOut};

/// Shows that no call of a history precedes itself, that precedence is transitive, and that a pending call
/// precedes none.
#[tactic(auto, using(crate::proofs::OrderLaws::precedence_is_strict))]
pub fn precedence()
    ensures { PrecedenceIsStrict }
{}

/// Shows that a history is linearizable if its answered calls, in response order, are a legal run.
#[tactic(auto, using(crate::proofs::OrderLaws::legal_in_response_order_is_linearizable))]
pub fn legal_in_response_order()
    ensures { LegalInResponseOrderIsLinearizable }
{}

/// Shows that an order that explains a history still explains it without a pending call that changes nothing:
/// a get, or a write that was not performed and whose reply is a conflict.
#[tactic(auto, using(crate::proofs::LeavingLaws::unanswered_left_out))]
pub fn leaving_out()
    ensures { UnansweredLeftOut }
{}

/// Shows that a prefix of a history is a history, and that it is linearizable if the whole history is.
#[tactic(auto, using(crate::proofs::PrefixLaws::prefixes_stay))]
pub fn prefixes()
    ensures { PrefixesStay }
{}

/// Shows that calls after the last reply, and events of lost calls, keep a history legal in response order.
pub fn late_calls()
    ensures { LateCallsChangeNothing }
{}

/// Shows that each call of a history has its record among those of its document, and nowhere else; that a
/// record says what was heard of its call; and that precedence between two calls of a document shows in their
/// records.
#[tactic(auto, using(crate::proofs::RecordLaws::split_by_document))]
pub fn split_by_document()
    ensures { SplitByDocument }
{}
