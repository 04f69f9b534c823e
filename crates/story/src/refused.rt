use api_lines::{RefusedLine, TextCause};
use std::alloc::Global;
use story_blocks::Word::Number;
use story_blocks::{Draft, add_shown};
use version_pair::NoMemory;

// The greatest number of bytes of a refused line that are shown.
const SHOWN: usize = 200;

// What a text begins with that gzip compressed.
const COMPRESSED: [u8; 2] = [0x1f, 0x8b];

// Returns what the cause means, in a sentence.
fn cause_words(cause: TextCause) -> &'static str {
    match cause {
        TextCause::Long => "The line has more than 65,536 bytes.",
        TextCause::Lines => "A text has at most 4,194,304 lines, and this one is past them.",
        TextCause::Json => {
            "The line is not JSON: it may have been cut off, or two lines may have been written into one."
        }
        TextCause::Shape => {
            "The line is JSON but not an event: it is not an object, a required field is missing or of another kind, or its \"e\" or \"op\" is unknown."
        }
        TextCause::Id => "The document's id is empty or has more than 512 bytes.",
        TextCause::Range => {
            "A number of the line is not whole, not written by digits alone, or outside its range."
        }
        TextCause::Half => {
            "One of the two conditions if_seq_no and if_primary_term is given without the other."
        }
        TextCause::Stranger => {
            "The body of the reply names another document than its call: the replies of two calls may have been mixed up."
        }
        TextCause::SecondCall => {
            "An earlier call has the same number; each call of a history needs a number of its own."
        }
        TextCause::NoCall => {
            "No call before this line has its number: the call is missing, or was recorded after its reply."
        }
        TextCause::Ended => { "The call of this number already has a reply, or was already lost." }
        TextCause::Full => "A history has at most 1,048,576 events, and this one is past them.",
        TextCause::ShardMoved => {
            "An earlier call of the same document names another shard; a document stays on one shard."
        }
    }
}

// Returns how many lines are before the refused one, if that begins like an object and has no end. If none is,
// nothing is left to judge.
fn lines_before_cut(refused: &RefusedLine) -> Option<u64> {
    let line = &refused.line;
    let number = refused.fault.line;
    if number > 1
        && refused.fault.cause == TextCause::Json
        && line.starts_with(b"{")
        && !line.ends_with(b"}")
    {
        Some(number - 1)
    } else {
        None
    }
}

/// Adds why a line was refused, and what to do if the text was compressed or cut off.
pub fn add_refusal(draft: &mut Draft<'_>, refused: &RefusedLine) {
    if refused.fault.line == 1 && refused.line.starts_with(&COMPRESSED) {
        return draft.paragraph(
            "The text is compressed by gzip: `zcat FILE | casbench check` judges it.",
            &[],
        );
    }
    draft.paragraph(cause_words(refused.fault.cause), &[]);
    if let Some(before) = lines_before_cut(refused) {
        draft.paragraph(
            "It begins like an object and has no end. If no line comes after it, it was cut off, as by a full disk or a recorder that was killed: `head -n {} FILE | casbench check` judges what was recorded before it.",
            &[Number(before)],
        );
    }
}

// Adds a byte as it can be shown: as its character, or in hexadecimal digits.
fn add_byte(text: &mut String, byte: u8) -> Result<(), NoMemory> {
    if byte.is_ascii_graphic() || byte == b' ' {
        text.push(char::from(byte))
    } else {
        write!(text, "\\x{byte:02x}")
    }
}

// Returns the first bytes of the line, at most 200, as a text that doesn't cut through a character; `None` if
// they are no text.
fn text_front(line: &[u8]) -> Option<&str> {
    for cut in 0..4usize {
        let end = line.len().min(SHOWN - cut);
        if let Ok(text) = str::from_utf8(&line[..end]) {
            return Some(text);
        }
    }
    None
}

/// Returns the first 200 bytes of a line as they can be shown: as text, or, if they are no text, with the
/// bytes that aren't printable ASCII by their numbers.
pub fn line_shown(alloc: Global, line: &[u8]) -> Result<String, NoMemory> {
    let mut text = String::new(alloc);
    if let Some(front) = text_front(line) {
        add_shown(&mut text, front)?;
        return Ok(text);
    }
    for byte in line.iter().take(SHOWN) {
        add_byte(&mut text, *byte)?;
    }
    Ok(text)
}
