ghost use Rattle.std.specs.Prelude.{◌≡◌, IsTrue, MatchResult, Some, Ok, Err, option_map};
ghost use Rattle.serde_json.specs.Data.{Data, null};
ghost use Rattle.serde_json.specs.View.{view};
ghost use Rattle.api_lines.specs.Faults.{IfReported};
ghost use Rattle.api_lines.specs.Fields.{line_seen, line_values};
ghost use Rattle.api_lines.specs.Json.{json_value};
ghost use Rattle.api_lines.specs.Texts.{line_given};

use crate::fields::LineFields;
use crate::lines::{LONGEST_LINE, MOST_LINES, is_blank, line_value};
use crate::text_fault::{LineFault, TextCause};
use crate::token_fields::{quick_fields, unescaped_fields};
use crate::unescaped::LineRoom;
use serde_json::Value;
use std::alloc::Global;

/// Returns what the line of a text with this number, from 1, gives: nothing if it is blank, otherwise its
/// value.
///
/// Errors, in this order: `Lines` after line 4,194,304, `Long` for more than 65,536 bytes, `Json`. `NoMemory`
/// may come before any of them, and says nothing of the line.
pub fn given_line(alloc: Global, number: u64, line: &[u8]) -> Result<Option<Value>, LineFault>
    // The result, unless it is `NoMemory`, is that of the definition, in both directions.
    ensures { MatchResult result
        (λ given. line_given number line.now ≡ Ok (option_map view given))
        (λ fault. IfReported fault (λ cause. line_given number line.now ≡ Err cause)) }
{
    if number > MOST_LINES {
        return Err(LineFault::Reported(TextCause::Lines));
    }
    if line.len() > LONGEST_LINE {
        return Err(LineFault::Reported(TextCause::Long));
    }
    if is_blank(line) {
        return Ok(None);
    }
    match line_value(alloc, line) {
        Ok(value) => Ok(Some(value)),
        Err(fault) => Err(fault),
    }
}

// Whether the line of a text with this number, from 1, is one whose value counts: it is within the limits and
// not blank.
fn is_given(number: u64, line: &[u8]) -> bool
    ensures { IsTrue result → ((v : Data) → (json_value line.now ≡ Some v)
        → (line_given number line.now ≡ Ok (Some v))) }
{
    number <= MOST_LINES && line.len() <= LONGEST_LINE && !is_blank(line)
}

/// Returns whether the fields of the line of a text with this number, from 1, are found without a tree of
/// values: by `quick_fields`, or else by `unescaped_fields` in a borrowed room. If they are, they are put in
/// `fields`. Nothing is said of another line, nor of `fields` after it: it may be blank, or refused, or have
/// a value of another form, or memory was refused. For it, ask `given_line`.
pub fn given_fields<'v>(
    number: u64,
    line: &'v [u8],
    room: &'v mut LineRoom,
    fields: &mut LineFields<'v>,
) -> bool
    // `fields` has none yet.
    requires { line_seen fields.old ≡ line_values null }
    // If the result is true, the line is taken with some value, and `fields` are the fields of this value.
    ensures { IsTrue result → ((v : Data)
        × (line_given number line.now ≡ Ok (Some v))
        × (line_seen fields.new ≡ line_values v)) }
{
    if !is_given(number, line) {
        return false;
    }
    let Ok(text) = str::from_utf8(line) else {
        return false;
    };
    if quick_fields(text, fields) {
        return true;
    }
    *fields = LineFields::absent();
    unescaped_fields(text, room, fields)
}
