//! A field taken from the tokens of its value.
ghost use Rattle.std.specs.Prelude.{◌≡◌, ◌<◌, OnSome, Some, length};
ghost use Rattle.serde_json.specs.Data.{Data};
ghost use Rattle.api_lines.specs.Fields.{value_of};
ghost use Rattle.api_lines.specs.Json.{field_value, other};
ghost use Rattle.api_lines.specs.aids.Scanning.{tokens_left};
ghost use Rattle.api_lines.specs.aids.Tokens.{BeginsWithValue};

use crate::field::Field;
use crate::keys::Key;
use crate::scanner::Scanner;
use crate::token_reader::TokenReader;

/// Takes the next value, nested no deeper than `depth`, and writes it as a field to `found`. It is written
/// where it stays: to return a field and to copy it costs more than to read it.
#[inline(never)]
#[cycle(field)]
pub fn field<'a>(scanner: &mut Scanner<'a>, depth: usize, found: &mut Field<'a>) -> Option<()>
    ensures read { OnSome result ((v : Data)
        × BeginsWithValue depth (tokens_left scanner.old) v (tokens_left scanner.new)
        × (value_of found.new ≡ field_value (Some v))) }
    ensures shorter { OnSome result
        (length (tokens_left scanner.new) < length (tokens_left scanner.old)) }
{
    match scanner.first()? {
        b'"' => {
            *found = Field::Text(scanner.text()?);
            Some(())
        }
        b't' | b'f' => {
            *found = Field::of_bool(scanner.truth()?);
            Some(())
        }
        b'n' => {
            scanner.null()?;
            *found = Field::Other;
            Some(())
        }
        b'[' => {
            pass_array(scanner, depth)?;
            *found = Field::Other;
            Some(())
        }
        b'{' => {
            pass_object(scanner, depth)?;
            *found = Field::Other;
            Some(())
        }
        _ => {
            *found = Field::Whole(scanner.whole()?);
            Some(())
        }
    }
}

// Passes an array, including each number in it.
#[inline(never)]
#[cycle(field)]
fn pass_array(scanner: &mut Scanner<'_>, depth: usize) -> Option<()>
    ensures read { OnSome result ((v : Data)
        × BeginsWithValue depth (tokens_left scanner.old) v (tokens_left scanner.new)
        × (other ≡ field_value (Some v))) }
    ensures shorter { OnSome result
        (length (tokens_left scanner.new) < length (tokens_left scanner.old)) }
{
    if depth == 0 {
        return None;
    }
    scanner.open_array()?;
    let mut passed = Field::Absent;
    'items: while !scanner.close_array() {
        field(scanner, depth - 1, &mut passed)?;
    }
    Some(())
}

// Passes an object, including each number in it.
#[inline(never)]
#[cycle(field)]
fn pass_object(scanner: &mut Scanner<'_>, depth: usize) -> Option<()>
    ensures read { OnSome result ((v : Data)
        × BeginsWithValue depth (tokens_left scanner.old) v (tokens_left scanner.new)
        × (other ≡ field_value (Some v))) }
    ensures shorter { OnSome result
        (length (tokens_left scanner.new) < length (tokens_left scanner.old)) }
{
    if depth == 0 {
        return None;
    }
    scanner.open_object()?;
    let mut passed = Field::Absent;
    'members: while let Some(_) = scanner.key()? {
        field(scanner, depth - 1, &mut passed)?;
    }
    Some(())
}

// The same for a value that is most often a text.
#[inline(always)]
fn text_field<'a>(scanner: &mut Scanner<'a>, depth: usize, found: &mut Field<'a>) -> Option<()>
    ensures read { OnSome result ((v : Data)
        × BeginsWithValue depth (tokens_left scanner.old) v (tokens_left scanner.new)
        × (value_of found.new ≡ field_value (Some v))) }
    ensures shorter { OnSome result
        (length (tokens_left scanner.new) < length (tokens_left scanner.old)) }
{
    match scanner.text() {
        Some(text) => {
            *found = Field::Text(text);
            Some(())
        }
        None => field(scanner, depth, found),
    }
}

// The same for a value that is most often a whole number.
#[inline(always)]
fn number_field<'a>(scanner: &mut Scanner<'a>, depth: usize, found: &mut Field<'a>) -> Option<()>
    ensures read { OnSome result ((v : Data)
        × BeginsWithValue depth (tokens_left scanner.old) v (tokens_left scanner.new)
        × (value_of found.new ≡ field_value (Some v))) }
    ensures shorter { OnSome result
        (length (tokens_left scanner.new) < length (tokens_left scanner.old)) }
{
    match scanner.whole() {
        Some(number) => {
            *found = Field::Whole(number);
            Some(())
        }
        None => field(scanner, depth, found),
    }
}

impl<'a> TokenReader<'a> for Scanner<'a> {
    ghost left = { tokens_left };

    #[inline(always)]
    fn open_object(&mut self) -> Option<()> {
        Scanner::open_object(self)
    }

    #[inline(always)]
    fn field(&mut self, depth: usize, found: &mut Field<'a>) -> Option<()> {
        field(self, depth, found)
    }

    #[inline(always)]
    fn text_field(&mut self, depth: usize, found: &mut Field<'a>) -> Option<()> {
        text_field(self, depth, found)
    }

    #[inline(always)]
    fn number_field(&mut self, depth: usize, found: &mut Field<'a>) -> Option<()> {
        number_field(self, depth, found)
    }

    #[inline(always)]
    fn key(&mut self) -> Option<Option<Key<'a>>> {
        Scanner::key(self)
    }

    #[inline(always)]
    fn is_over(&mut self) -> bool {
        Scanner::is_over(self)
    }
}
