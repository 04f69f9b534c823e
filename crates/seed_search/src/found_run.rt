use stream_io::AnswerText;

/// A run for whose history no order was found.
#[derive(Drop)]
pub struct FoundRun {
    /// The seed that it was made with.
    pub seed: u64,
    /// The text of the history.
    pub text: Vec<u8>,
    /// The answer of a check of the text, with documents checked for being ruled out.
    pub answer: AnswerText,
}
