//! Laws of the definitions. Each is the contract of a function that does nothing. Those of histories are in
//! `events`, and exported here too.

ghost use Rattle.history.specs.Laws.{HistoriesLineByLine, ReadLineByLineByRules, TextOfOneHistory, TextsAreRead, TextsAreReadByRules};

pub use events::laws::{
    late_calls, leaving_out, legal_in_response_order, precedence, prefixes, split_by_document,
};

/// Shows that a text is the text of one history only.
#[tactic(auto, using(crate::proofs::TextLaws::text_of_one_history))]
pub fn one_history()
    ensures { TextOfOneHistory }
{}

/// Shows that a text is read as the history that it is a text of, and as no other; and that the line reported
/// of a refused text is the first at which it is not a history text.
#[tactic(auto, using(crate::proofs::TextLaws::texts_are_read))]
pub fn texts_are_read()
    ensures { TextsAreRead }
{}

/// Shows that a reader's result for its next line is that of reading the text of the lines before it with
/// this line, ended by a line feed or by the end of the text; that a refused line is refused in the same way
/// whatever follows it; and that a line that is too long is refused in the same way however it continues.
pub fn line_by_line()
    ensures { HistoriesLineByLine }
{}

/// Shows that a text is read by the strict rules as it is read; and that by any rules it is a history text of
/// what is read, the calls of which it says that nothing was performed are lost, and its events have room.
#[tactic(auto, using(crate::proofs::RuledTexts::texts_are_read_by_rules))]
pub fn texts_are_read_by_rules()
    ensures { TextsAreReadByRules }
{}

/// Shows of reading by rules what `line_by_line` shows of reading.
pub fn line_by_line_by_rules()
    ensures { ReadLineByLineByRules }
{}
