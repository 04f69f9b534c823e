use crate::drawing::Drawing;
use crate::head::Head;
use crate::reported_line::ReportedLine;

/// How a call stands out among the others.
#[derive(Clone, Copy)]
pub enum Mark {
    /// It doesn't.
    Plain,
    /// It is one of the calls of the evidence or of the reasons.
    Evidence,
    /// Its reply is the one at which the search first fails.
    Broken,
}

/// A call in words.
#[derive(Drop)]
pub struct CallReported {
    pub mark: Mark,
    /// The line of the call.
    pub line: ReportedLine,
    /// The number of the call.
    pub no: u64,
    /// Who asked, as far as that is known.
    pub client: String,
    /// What was asked.
    pub asked: String,
    /// The line of the reply, if there is one.
    pub replied: Option<ReportedLine>,
    /// What was answered.
    pub answered: String,
    /// Which of the calls that are shown were open at the same time.
    pub open_with: String,
}

/// A note as it can be shown.
#[derive(Drop)]
pub struct NoteReported {
    pub line: ReportedLine,
    pub text: String,
}

/// A row of a table of calls: a call, or a note on a line before the next call.
#[derive(Drop)]
pub enum CallRow {
    Call(CallReported),
    Note(NoteReported),
}

/// A table of calls.
#[derive(Drop)]
pub struct CallTable {
    /// Whether some call's line says who asked.
    pub has_clients: bool,
    pub rows: Vec<CallRow>,
}

/// A place of an order in words.
#[derive(Drop)]
pub struct PlaceReported {
    /// The number of the call.
    pub no: u64,
    /// What was asked.
    pub asked: String,
    /// The state of the document after it.
    pub after: String,
}

/// A block of an explanation.
#[derive(Drop)]
pub enum Block {
    Heading(&'static str),
    Paragraph(String),
    Items(Vec<String>),
    Calls(CallTable),
    Order(Vec<PlaceReported>),
    Drawing(Drawing),
    /// What follows, up to `FoldEnd`, is less important; this is its title.
    FoldStart(&'static str),
    FoldEnd,
}

/// The explanation of an answer.
#[derive(Drop)]
pub struct Story {
    /// What it is about, in a sentence.
    pub title: String,
    /// What it is of, which a page has at its top.
    pub head: Head,
    pub blocks: Vec<Block>,
}
