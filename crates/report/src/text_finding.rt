use compose::Finding;
use history::TextRead;
use readings::UnexplainedGet;

/// What was found of a text that was read.
#[derive(Debug, Drop)]
pub struct TextFinding {
    /// What was found of the history that was judged: the text's, as the reading reads it.
    pub finding: Finding,
    /// The first get that nothing explains, if gets are judged one by one, and there is no other evidence.
    pub get: Option<UnexplainedGet>,
    /// What was read of the text; `None` if that is the history that was judged.
    pub text: Option<TextRead>,
}
