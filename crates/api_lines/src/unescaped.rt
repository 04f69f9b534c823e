//! The tokens of a line by the kit's reader, which unescapes texts into a borrowed room.
ghost use Rattle.std.specs.Prelude.{◌≡◌, ◌<◌, IfSome, OnSome, Some, length, option_map};
ghost use Rattle.json.specs.Json.{read_key};
ghost use Rattle.serde_json.specs.Data.{Data, Items, Members, unsigned};
ghost use Rattle.serde_json.specs.Read.{number_of};
ghost use Rattle.api_lines.specs.Fields.{value_of};
ghost use Rattle.api_lines.specs.Json.{field_value};
ghost use Rattle.api_lines.specs.aids.Keys.{key_text};
ghost use Rattle.api_lines.specs.aids.Tokens.{BeginsWithItems, BeginsWithMembers, BeginsWithValue};

use crate::field::Field;
use crate::keys::Key;
use crate::token_reader::TokenReader;
use fast_float::parse_u64;
use json::{Reader, Scratch, Token};
use std::alloc::Global;
use std::fmt::{self, Debug, Formatter};

/// Room for texts with escapes, which is kept from line to line and grows to the longest of them.
#[derive(Drop)]
pub struct LineRoom {
    pub(crate) scratch: Scratch,
}

impl LineRoom {
    /// Returns a room without memory yet. It allocates nothing. What the room holds has no meaning between
    /// lines.
    pub fn new(alloc: Global) -> LineRoom {
        LineRoom {
            scratch: Scratch::new(alloc),
        }
    }
}

// The contents of the room mean nothing between lines, and are not shown.
impl Debug for LineRoom {
    fn fmt<W: fmt::Write>(&self, f: &mut Formatter<W>) -> fmt::Result {
        f.debug_struct("LineRoom").finish_non_exhaustive()
    }
}

// A whole number below 2^64 that is digits alone.
fn whole(text: &str) -> Option<u64>
    ensures { IfSome result (λ n. number_of text.now ≡ Some (unsigned n)) }
{
    let bytes = text.as_bytes();
    if bytes.is_empty() || bytes[0] == b'+' {
        return None;
    }
    parse_u64(bytes).ok()
}

// The next value as a field, nested no deeper than `depth`.
#[cycle(field)]
fn field<'a>(reader: &mut Reader<'a>, depth: usize) -> Option<Field<'a>>
    ensures read { IfSome result (λ found. (v : Data)
        × BeginsWithValue depth reader.old v reader.new
        × (value_of found ≡ field_value (Some v))) }
    ensures shorter { OnSome result (length reader.new < length reader.old) }
{
    match reader.next()? {
        Token::String(text) => Some(Field::Text(text)),
        Token::Number(text) => Some(Field::Whole(whole(text)?)),
        Token::Bool(truth) => Some(Field::of_bool(truth)),
        Token::Null => Some(Field::Other),
        Token::BeginArray => {
            if depth == 0 {
                return None;
            }
            pass_items(reader, depth - 1)?;
            Some(Field::Other)
        }
        Token::BeginObject => {
            if depth == 0 {
                return None;
            }
            pass_members(reader, depth - 1)?;
            Some(Field::Other)
        }
        Token::Key(_) | Token::EndObject | Token::EndArray | Token::Bad => None,
    }
}

// Passes the items of an array to its end, including each number in them.
#[cycle(field)]
fn pass_items(reader: &mut Reader<'_>, depth: usize) -> Option<()>
    ensures read { OnSome result ((vs : Items) × BeginsWithItems depth reader.old vs reader.new) }
    ensures shorter { OnSome result (length reader.new < length reader.old) }
{
    'items: while !reader.take_end_array() {
        field(reader, depth)?;
    }
    Some(())
}

// Passes the members of an object to its end, including each number in them.
#[cycle(field)]
fn pass_members(reader: &mut Reader<'_>, depth: usize) -> Option<()>
    ensures read { OnSome result ((ms : Members) × BeginsWithMembers depth reader.old ms reader.new) }
    ensures shorter { OnSome result (length reader.new < length reader.old) }
{
    'members: while let Some(_) = key(reader)? {
        field(reader, depth)?;
    }
    Some(())
}

// The next key of an object, or nothing at its closing brace.
fn key<'a>(reader: &mut Reader<'a>) -> Option<Option<Key<'a>>>
    ensures read { IfSome result (λ name. read_key reader.old
        ≡ Some (option_map key_text name, reader.new)) }
    ensures shorter { OnSome result (length reader.new < length reader.old) }
{
    match reader.next()? {
        Token::Key(name) => Some(Some(Key::Other(name))),
        Token::EndObject => Some(None),
        _ => None,
    }
}

impl<'a> TokenReader<'a> for Reader<'a> {
    ghost left = { λ reader. reader };

    fn open_object(&mut self) -> Option<()> {
        match self.next()? {
            Token::BeginObject => Some(()),
            _ => None,
        }
    }

    fn field(&mut self, depth: usize, found: &mut Field<'a>) -> Option<()> {
        *found = field(self, depth)?;
        Some(())
    }

    fn text_field(&mut self, depth: usize, found: &mut Field<'a>) -> Option<()> {
        *found = field(self, depth)?;
        Some(())
    }

    fn number_field(&mut self, depth: usize, found: &mut Field<'a>) -> Option<()> {
        *found = field(self, depth)?;
        Some(())
    }

    fn key(&mut self) -> Option<Option<Key<'a>>> {
        key(self)
    }

    fn is_over(&mut self) -> bool {
        self.next().is_none()
    }
}
