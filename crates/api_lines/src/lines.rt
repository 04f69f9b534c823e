ghost use Rattle.std.specs.Prelude.{◌≡◌, ◌<◌, ◌∷◌, MatchResult, Some, None, length};
ghost use Rattle.serde_json.specs.View.{view};
ghost use Rattle.api_lines.specs.Faults.{IfReported};
ghost use Rattle.api_lines.specs.Json.{json_value};
ghost use Rattle.api_lines.specs.Lines.{HasNoLineFeed, is_blank as blank, is_space as space, lines_of};
ghost use Rattle.api_lines.specs.declared.text_fault.TextCause.TheVariants.{Json};

use crate::text_fault::{LineFault, TextCause};
use memchr::memchr;
use serde_json::Value;
use std::alloc::Global;

/// The greatest number of bytes of a line, without its line feed.
pub const LONGEST_LINE: usize = 65_536;

/// The greatest number of lines of a text.
pub const MOST_LINES: u64 = 4_194_304;

// A space, a tab or a carriage return.
#[inline(always)]
pub(crate) fn is_space(byte: u8) -> bool
    ensures { result ≡ space byte }
{
    byte == b' ' || byte == b'\t' || byte == b'\r'
}

/// Returns whether a line has only spaces, tabs and carriage returns. An empty line is blank.
pub fn is_blank(line: &[u8]) -> bool
    ensures { result ≡ blank line.now }
{
    line.iter().all(|byte| is_space(*byte))
}

/// Returns the first line of a text, without its line feed, and the text after it.
pub fn first_line(text: &[u8]) -> (&[u8], &[u8])
    // The text is not empty.
    requires { 0 < length text.now }
    // The lines of the text are this one and those of the rest.
    ensures lines { lines_of text.now ≡ result.0.now ∷ lines_of result.1.now }
    // The line has no line feed in it.
    ensures feed { HasNoLineFeed result.0.now }
    // The rest is shorter than the text.
    ensures shorter { length result.1.now < length text.now }
{
    match memchr(b'\n', text) {
        Some(end) => (&text[..end], &text[end + 1..]),
        None => (text, &text[text.len()..]),
    }
}

/// Returns the value that a line spells. Errors: `Json` if it spells none; `NoMemory`, which says nothing of
/// the line.
pub fn line_value(alloc: Global, line: &[u8]) -> Result<Value, LineFault>
    // The value is that which the line spells; the error is `Json` only if it spells none.
    ensures { MatchResult result (λ value. json_value line.now ≡ Some (view value))
        (λ fault. IfReported fault (λ cause. (json_value line.now ≡ None) × (cause ≡ Json))) }
{
    match Value::from_slice(alloc, line) {
        Ok(value) => Ok(value),
        Err(error) if error.is_memory() => Err(LineFault::NoMemory),
        Err(_) => Err(LineFault::Reported(TextCause::Json)),
    }
}
