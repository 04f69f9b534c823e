ghost use Rattle.std.specs.Prelude.{◌≡◌, string_bytes};

use crate::status::Status;

/// A text to write, with the status that it states.
#[derive(Drop)]
pub struct AnswerText {
    pub status: Status,
    pub text: Vec<u8>,
}

impl AnswerText {
    /// Returns the answer of a line.
    pub fn of(status: Status, line: String) -> AnswerText
        ensures status { result.status ≡ status }
        ensures text { result.text.items ≡ string_bytes line }
    {
        AnswerText {
            status,
            text: line.into_bytes(),
        }
    }
}
