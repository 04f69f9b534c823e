//! Laws of the definitions. Each is the contract of a function that does nothing. That of valid places is in
//! `places`, and exported here too.

ghost use Rattle.witness.specs.Laws.{WitnessesLineByLine};

pub use places::laws::valid_places;

/// Shows that a reader's result for its next line is that of reading the text of the lines before it with
/// this line, ended by a line feed or by the end of the text; that a refused line is refused in the same way
/// whatever follows it; and that a line that is too long is refused in the same way however it continues.
pub fn line_by_line()
    ensures { WitnessesLineByLine }
{}
