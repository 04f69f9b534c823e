use crate::lost_calls::{LostCall, LostEnding};
use crate::reported_line::ReportedLine;
use doc_register::{Conflicts, DocState, Op, Reply};
use events::Rec;
use evidence::Stage;
use version_pair::{DocId, NoMemory, Pair};

/// How a version is written.
pub const NOTATION: &str = "1/0 is the version with _primary_term 1 and _seq_no 0.";

/// What stands at a place of a sentence.
#[derive(Clone, Copy)]
pub enum Word<'a> {
    Text(&'static str),
    Phrase(&'a str),
    Number(u64),
    Count(usize),
    Line(ReportedLine),
    /// A text of the history, as it can be shown.
    Shown(&'a str),
    /// A document's id in quotes, as it can be shown.
    Id(&'a DocId),
    /// A version: its term and its sequence number; nothing if there is none.
    Version(Option<Pair>),
    /// What was asked.
    Asked(Op),
    /// The state of a document.
    State(DocState),
    /// How far a document has come, behind `it had`.
    Reached(Stage),
    /// A call, of which the place names a part.
    Call(LinedCall),
}

/// A call with its lines.
#[derive(Clone, Copy)]
pub struct LinedCall {
    pub record: Rec,
    pub called: ReportedLine,
    /// The line of the reply; that of the call if there is no reply.
    pub replied: ReportedLine,
    /// How it ended, if its outcome is lost and that is known.
    pub lost: Option<LostCall>,
}

// Adds a version after what it is about.
fn add_version(text: &mut String, before: &str, pair: Pair) -> Result<(), NoMemory> {
    let term = pair.term();
    let seq = pair.seq();
    write!(text, "{before}{term}/{seq}")
}

// Adds a number.
fn add_number(text: &mut String, number: u64) -> Result<(), NoMemory> {
    write!(text, "{number}")
}

// Adds a line.
fn add_line(text: &mut String, line: ReportedLine) -> Result<(), NoMemory> {
    write!(text, "{line}")
}

// Adds what was asked.
fn add_asked(text: &mut String, op: Op) -> Result<(), NoMemory> {
    match op {
        Op::Get => text.push_str("get")?,
        Op::Index { k, .. } => write!(text, "index k={k}")?,
        Op::Delete { .. } => text.push_str("delete")?,
        Op::Create { k } => write!(text, "create k={k}")?,
    }
    match op.condition() {
        Some(pair) => add_version(text, " if at ", pair),
        None => Ok(()),
    }
}

// Adds what was answered.
fn add_reply(text: &mut String, reply: Reply) -> Result<(), NoMemory> {
    let before = match reply {
        Reply::Indexed { created: true, .. } => "created as ",
        Reply::Indexed { created: false, .. } => "updated as ",
        Reply::Deleted { found: true, .. } => "deleted as ",
        Reply::Deleted { found: false, .. } => "nothing to delete, as ",
        Reply::Found { k, .. } => {
            write!(text, "k={k}")?;
            " at "
        }
        Reply::Missing => "not found",
        Reply::Conflict => "conflict",
    };
    match reply.pair() {
        Some(pair) => add_version(text, before, pair),
        None => text.push_str(before),
    }
}

// Adds the state of a document.
fn add_state(text: &mut String, state: DocState) -> Result<(), NoMemory> {
    match state {
        DocState::Never => text.push_str("never written"),
        DocState::Gone(pair) => {
            add_version(text, "", pair)?;
            text.push_str(" deleted")
        }
        DocState::Here(pair, k) => {
            add_version(text, "", pair)?;
            write!(text, " k={k}")
        }
    }
}

// Adds how far a document has come.
fn add_reached(text: &mut String, stage: Stage) -> Result<(), NoMemory> {
    match stage {
        Stage::Never => text.push_str("not been written"),
        Stage::At(pair) => add_version(text, "reached ", pair),
        Stage::Behind(Some(pair)) => {
            add_version(text, "been changed after ", pair)?;
            text.push_str(" by a write of unknown outcome")
        }
        Stage::Behind(None) => text.push_str(
            "been changed by a write of unknown outcome, before each version that a reply shows",
        ),
    }
}

// Whether a character changes how its neighbours are shown, or is not shown itself.
fn is_unshown(c: char) -> bool {
    c.is_control()
        || matches!(c, '\u{200b}'..='\u{200f}' | '\u{2028}'..='\u{202e}' | '\u{2060}'..='\u{206f}' | '\u{feff}')
}

/// Adds a text as it can be shown: control characters, and those that change the direction of writing, by
/// their numbers.
pub fn add_shown(shown: &mut String, text: &str) -> Result<(), NoMemory> {
    for c in text.chars() {
        if is_unshown(c) {
            let number = u32::from(c);
            write!(shown, "\\u{{{number:x}}}")?;
        } else {
            shown.push(c)?;
        }
    }
    Ok(())
}

// Adds a document's id.
fn add_id(text: &mut String, id: &DocId) -> Result<(), NoMemory> {
    text.push('"')?;
    add_shown(text, id.as_str())?;
    text.push('"')
}

// Adds how a call ended whose outcome is lost, in short.
fn add_ending(text: &mut String, ending: LostEnding) -> Result<(), NoMemory> {
    match ending {
        LostEnding::Answered(status) => write!(text, "HTTP {status}"),
        LostEnding::Void => text.push_str("nothing was performed"),
    }
}

// Returns what doesn't follow from how a call ended, or who says what does.
fn ending_words(ending: LostEnding, op: Op) -> &'static str {
    match (ending, op) {
        (LostEnding::Answered(_), Op::Get) => ", which doesn't say what was read",
        (LostEnding::Answered(_), _) => ", which doesn't say whether the write was performed",
        (LostEnding::Void, _) => ", as the recorder states",
    }
}

// Adds what was heard of a call: in short, or with what that leaves open.
fn add_heard(text: &mut String, call: &LinedCall, is_short: bool) -> Result<(), NoMemory> {
    match (call.record.heard, call.lost) {
        (Some(heard), _) => add_reply(text, heard.1),
        (None, None) => text.push_str("no reply"),
        (None, Some(lost)) => {
            add_ending(text, lost.ending)?;
            if is_short {
                Ok(())
            } else {
                text.push_str(ending_words(lost.ending, call.record.op))
            }
        }
    }
}

// Adds a call whose reply shows a version, in brackets behind the version.
fn add_shower(text: &mut String, call: &LinedCall) -> Result<(), NoMemory> {
    let no = call.record.no;
    let line = call.replied;
    write!(text, " (call {no}, line {line})")
}

// Returns the number that a reply shows.
fn number_in(heard: Option<(usize, Reply)>) -> u64 {
    match heard {
        Some((_, Reply::Found { k, .. })) => k,
        _ => 0,
    }
}

// Returns the version that a reply shows, if it shows one.
fn version_in(heard: Option<(usize, Reply)>) -> Option<Pair> {
    match heard {
        Some(heard) => heard.1.pair(),
        None => None,
    }
}

// Adds a version if there is one.
fn add_version_if(text: &mut String, pair: Option<Pair>) -> Result<(), NoMemory> {
    match pair {
        Some(pair) => add_version(text, "", pair),
        None => Ok(()),
    }
}

// Adds the part of a call that has this name.
fn add_part(text: &mut String, call: &LinedCall, name: &str) -> Result<(), NoMemory> {
    let heard = call.record.heard;
    match name {
        "asked" => add_asked(text, call.record.op),
        "condition" => add_version_if(text, call.record.op.condition()),
        "called" => add_line(text, call.called),
        "replied" => add_line(text, call.replied),
        "heard" => add_heard(text, call, false),
        "reply" => add_heard(text, call, true),
        "version" => add_version_if(text, version_in(heard)),
        "k" => add_number(text, number_in(heard)),
        "shown" => add_shower(text, call),
        _ => add_number(text, call.record.no),
    }
}

// Adds a word; of a call the part that has this name.
fn add_word(text: &mut String, word: &Word<'_>, part: &str) -> Result<(), NoMemory> {
    match *word {
        Word::Text(words) => text.push_str(words),
        Word::Phrase(words) => text.push_str(words),
        Word::Number(number) => add_number(text, number),
        Word::Count(count) => add_number(text, count as u64),
        Word::Line(line) => add_line(text, line),
        Word::Shown(words) => add_shown(text, words),
        Word::Id(id) => add_id(text, id),
        Word::Version(pair) => add_version_if(text, pair),
        Word::Asked(op) => add_asked(text, op),
        Word::State(state) => add_state(text, state),
        Word::Reached(stage) => add_reached(text, stage),
        Word::Call(call) => add_part(text, &call, part),
    }
}

// Adds what stands at a place: the word of its number, or, if it has none, the next one.
fn add_at(text: &mut String, words: &[Word<'_>], place: &str, next: usize) -> Result<(), NoMemory> {
    let (number, part) = match place.split_once(".") {
        Some((number, part)) => (number, part),
        None => (place, ""),
    };
    match words.get(number.parse::<usize>().unwrap_or(next)) {
        Some(word) => add_word(text, word, part),
        None => Ok(()),
    }
}

/// Adds sentences, one after the other, as templates with words at their places. A place is `{}` for the next word,
/// `{2}` for the word of this number, from 0, or `{2.asked}` for a part of a call: its number `no`, `asked`, `heard`
/// and, in short, `reply`, its lines `called` and `replied`, its `condition`, `version` and `k` in its reply, or, in brackets, that its reply
/// is where a version is `shown`. That there is a word for each place is tested, not proved.
pub fn add_sentences(
    text: &mut String,
    templates: &[&str],
    words: &[Word<'_>],
) -> Result<(), NoMemory> {
    let mut next = 0usize;
    for template in templates {
        for piece in template.split('{') {
            match piece.split_once("}") {
                Some((place, after)) => {
                    add_at(text, words, place, next)?;
                    text.push_str(after)?;
                    if place.is_empty() {
                        next = next.saturating_add(1);
                    }
                }
                None => text.push_str(piece)?,
            }
        }
    }
    Ok(())
}

/// Returns, in words, which writes have no reply that says whether they were performed.
pub fn unreported_kind(conflicts: Conflicts) -> Word<'static> {
    Word::Text(match conflicts {
        Conflicts::Plain => "without a reply",
        Conflicts::Maybe => "without a reply or answered with a conflict",
    })
}
