//! Laws of the definitions. Each is the contract of a function that does nothing.

ghost use Rattle.api_lines.specs.Laws.{FieldsAreHeard, TableReportsOne, WrittenIsHeard};

/// Shows that the reply table gives at most one reply for an operation, a status and a body.
#[tactic(auto, using(crate::proofs::TableLaws::reports_one))]
pub fn table_reports_one()
    ensures { TableReportsOne }
{}

/// Shows that what is heard of a call by the fields of a body is a stranger's if and only if the body names
/// another document; otherwise it is the reply that the table gives, and unknown if the table gives none.
pub fn fields_are_heard()
    ensures { FieldsAreHeard }
{}

/// Shows that what `write_reply` writes of a reply is read back as that reply, and as no stranger's, for each
/// operation that the reply fits.
pub fn written_is_heard()
    ensures { WrittenIsHeard }
{}
