//! A line's fields taken from its tokens, with no tree of values.
ghost use Rattle.std.specs.Prelude.{◌≡◌, ◌<◌, ◌∷◌, [], IsTrue, List, OnSome, Some, length};
ghost use Rattle.json.specs.Token.{Token, begin_object};
ghost use Rattle.serde_json.specs.Data.{Data, Members, null, object};
ghost use Rattle.serde_json.specs.Read.{read as read_text};
ghost use Rattle.api_lines.specs.Fields.{body_seen, body_values, line_seen, line_values, value_of};
ghost use Rattle.api_lines.specs.Json.{field as field_of_value, field_value};
ghost use Rattle.api_lines.specs.aids.Keys.{key_text};
ghost use Rattle.api_lines.specs.aids.MoreFields.{body_with, line_with, rare_field_put};
ghost use Rattle.api_lines.specs.aids.Tokens.{BeginsWithMembers, BeginsWithValue};

use crate::field::Field;
use crate::fields::{BodyFields, LineFields, no_body};
use crate::keys::Key;
use crate::scanner::Scanner;
use crate::token_reader::TokenReader;
use crate::unescaped::LineRoom;
use json::Reader;

// How deep the values of a line's members may nest: a line nests to 127.
const IN_LINE: usize = 126;

// The same for a member of a line's body.
const IN_BODY: usize = 125;

// The same for a member of a body's `_source` or `error`.
const IN_PART: usize = 124;

impl<'v> BodyFields<'v> {
    // Takes the member of this name, whose value is next.
    fn take_named<T: TokenReader<'v>>(&mut self, name: &str, tokens: &mut T) -> Option<()>
        ensures read { OnSome result ((d : Data)
            × BeginsWithValue IN_BODY (T.left tokens.old) d (T.left tokens.new)
            × (body_seen self.new ≡ body_with name.now d (body_seen self.old))) }
        ensures shorter { OnSome result (length (T.left tokens.new) < length (T.left tokens.old)) }
    {
        match name {
            "_id" => tokens.field(IN_BODY, &mut self.id),
            "result" => tokens.field(IN_BODY, &mut self.outcome),
            "_seq_no" => tokens.field(IN_BODY, &mut self.seq_no),
            "_primary_term" => tokens.field(IN_BODY, &mut self.primary_term),
            "found" => tokens.field(IN_BODY, &mut self.found),
            "_source" => part(tokens, "k", &mut self.source_k),
            "error" => part(tokens, "type", &mut self.error_type),
            _ => pass(tokens, IN_BODY),
        }
    }

    // Takes the member with this key, whose value is next.
    #[inline(always)]
    fn take_member<T: TokenReader<'v>>(&mut self, key: Key<'v>, tokens: &mut T) -> Option<()>
        ensures read { OnSome result ((d : Data)
            × BeginsWithValue IN_BODY (T.left tokens.old) d (T.left tokens.new)
            × (body_seen self.new ≡ body_with (key_text key.entry) d (body_seen self.old))) }
        ensures shorter { OnSome result (length (T.left tokens.new) < length (T.left tokens.old)) }
    {
        match key {
            Key::BodyId => tokens.text_field(IN_BODY, &mut self.id),
            Key::Outcome => tokens.text_field(IN_BODY, &mut self.outcome),
            Key::SeqNo => tokens.number_field(IN_BODY, &mut self.seq_no),
            Key::PrimaryTerm => tokens.number_field(IN_BODY, &mut self.primary_term),
            _ => self.take_named(key.text(), tokens),
        }
    }

    // Takes all members up to the brace. There must be none yet.
    #[inline(always)]
    fn take_members<T: TokenReader<'v>>(&mut self, tokens: &mut T) -> Option<()>
        requires { body_seen self.old ≡ body_values null }
        ensures read { OnSome result ((ms : Members)
            × BeginsWithMembers IN_BODY (T.left tokens.old) ms (T.left tokens.new)
            × (body_seen self.new ≡ body_values (object ms))) }
        ensures shorter { OnSome result (length (T.left tokens.new) < length (T.left tokens.old)) }
    {
        'members: while let Some(key) = tokens.key()? {
            self.take_member(key, tokens)?;
        }
        Some(())
    }

    // Takes the object that is next, a line's body, in place of what was there.
    #[inline(always)]
    fn take<T: TokenReader<'v>>(&mut self, tokens: &mut T) -> Option<()>
        ensures read { OnSome result ((d : Data)
            × BeginsWithValue IN_LINE (T.left tokens.old) d (T.left tokens.new)
            × (body_seen self.new ≡ body_values d)) }
        ensures shorter { OnSome result (length (T.left tokens.new) < length (T.left tokens.old)) }
    {
        tokens.open_object()?;
        *self = no_body();
        self.take_members(tokens)
    }
}

impl<'v> LineFields<'v> {
    // Takes the member of this name, whose value is next: a part of a condition, a shard, a status, what a lost
    // line says of being void, or a field that isn't one of the line.
    fn take_rare<T: TokenReader<'v>>(&mut self, name: &str, tokens: &mut T) -> Option<()>
        ensures read { OnSome result ((d : Data)
            × BeginsWithValue IN_LINE (T.left tokens.old) d (T.left tokens.new)
            × (line_seen self.new ≡ rare_field_put name.now (field_value (Some d)) (line_seen self.old))) }
        ensures shorter { OnSome result (length (T.left tokens.new) < length (T.left tokens.old)) }
    {
        match name {
            "if_seq_no" => tokens.field(IN_LINE, &mut self.if_seq_no),
            "if_primary_term" => tokens.field(IN_LINE, &mut self.if_primary_term),
            "shard" => tokens.field(IN_LINE, &mut self.shard),
            "status" => tokens.field(IN_LINE, &mut self.status),
            "void" => tokens.field(IN_LINE, &mut self.void),
            _ => pass(tokens, IN_LINE),
        }
    }

    // Takes the member of this name, whose value is next.
    fn take_named<T: TokenReader<'v>>(&mut self, name: &str, tokens: &mut T) -> Option<()>
        ensures read { OnSome result ((d : Data)
            × BeginsWithValue IN_LINE (T.left tokens.old) d (T.left tokens.new)
            × (line_seen self.new ≡ line_with name.now d (line_seen self.old))) }
        ensures shorter { OnSome result (length (T.left tokens.new) < length (T.left tokens.old)) }
    {
        match name {
            "e" => tokens.field(IN_LINE, &mut self.e),
            "n" => tokens.field(IN_LINE, &mut self.n),
            "id" => tokens.field(IN_LINE, &mut self.id),
            "op" => tokens.field(IN_LINE, &mut self.op),
            "k" => tokens.field(IN_LINE, &mut self.k),
            "body" => self.body.take(tokens),
            _ => self.take_rare(name, tokens),
        }
    }

    // Takes the member with this key, whose value is next.
    #[inline(always)]
    fn take_member<T: TokenReader<'v>>(&mut self, key: Key<'v>, tokens: &mut T) -> Option<()>
        ensures read { OnSome result ((d : Data)
            × BeginsWithValue IN_LINE (T.left tokens.old) d (T.left tokens.new)
            × (line_seen self.new ≡ line_with (key_text key.entry) d (line_seen self.old))) }
        ensures shorter { OnSome result (length (T.left tokens.new) < length (T.left tokens.old)) }
    {
        match key {
            Key::E => tokens.text_field(IN_LINE, &mut self.e),
            Key::N => tokens.number_field(IN_LINE, &mut self.n),
            Key::Id => tokens.text_field(IN_LINE, &mut self.id),
            Key::Op => tokens.text_field(IN_LINE, &mut self.op),
            Key::K => tokens.number_field(IN_LINE, &mut self.k),
            Key::Status => tokens.number_field(IN_LINE, &mut self.status),
            Key::Body => self.body.take(tokens),
            _ => self.take_named(key.text(), tokens),
        }
    }

    // Takes all members up to the brace. There must be none yet.
    #[inline(always)]
    fn take_members<T: TokenReader<'v>>(&mut self, tokens: &mut T) -> Option<()>
        requires { line_seen self.old ≡ line_values null }
        ensures read { OnSome result ((ms : Members)
            × BeginsWithMembers IN_LINE (T.left tokens.old) ms (T.left tokens.new)
            × (line_seen self.new ≡ line_values (object ms))) }
        ensures shorter { OnSome result (length (T.left tokens.new) < length (T.left tokens.old)) }
    {
        'members: while let Some(key) = tokens.key()? {
            self.take_member(key, tokens)?;
        }
        Some(())
    }
}

// Takes a value that is not a field of the line.
#[inline(never)]
fn pass<'a, T: TokenReader<'a>>(tokens: &mut T, depth: usize) -> Option<()>
    ensures read { OnSome result ((d : Data)
        × BeginsWithValue depth (T.left tokens.old) d (T.left tokens.new)) }
    ensures shorter { OnSome result (length (T.left tokens.new) < length (T.left tokens.old)) }
{
    let mut passed = Field::Absent;
    tokens.field(depth, &mut passed)
}

// Takes the object that is next, in a line's body, and writes its field of this key to `found`.
#[inline(never)]
fn part<'a, T: TokenReader<'a>>(tokens: &mut T, wanted: &str, found: &mut Field<'a>) -> Option<()>
    ensures read { OnSome result ((d : Data)
        × BeginsWithValue IN_BODY (T.left tokens.old) d (T.left tokens.new)
        × (value_of found.new ≡ field_of_value wanted.now d)) }
    ensures shorter { OnSome result (length (T.left tokens.new) < length (T.left tokens.old)) }
{
    tokens.open_object()?;
    *found = Field::Absent;
    let mut next = Field::Absent;
    'members: while let Some(key) = tokens.key()? {
        tokens.field(IN_PART, &mut next)?;
        if key.text() == wanted {
            *found = next;
        }
    }
    Some(())
}

// Takes all members of the object that a line is, to its end. There must be none yet.
#[inline(always)]
fn take_line<'v, T: TokenReader<'v>>(tokens: &mut T, fields: &mut LineFields<'v>) -> Option<()>
    requires { line_seen fields.old ≡ line_values null }
    ensures { OnSome result ((rest : List Token) × (ms : Members)
        × (T.left tokens.old ≡ begin_object ∷ rest)
        × BeginsWithMembers IN_LINE rest ms []
        × (line_seen fields.new ≡ line_values (object ms))) }
{
    tokens.open_object()?;
    fields.take_members(tokens)?;
    if tokens.is_over() { Some(()) } else { None }
}

/// Puts the fields of a line in `fields` if the line has the usual form, and returns whether it did.
///
/// The line is then an object whose texts have no escape and no byte outside ASCII, with no space between a
/// key and its colon, whose numbers are all digits alone, at most 19, and whose `body`, the body's `_source`
/// and its `error` are objects if they are present. Nothing is promised of `false`: neither that the line has
/// another form, nor what is in `fields`.
pub fn quick_fields<'v>(line: &'v str, fields: &mut LineFields<'v>) -> bool
    // `fields` has none yet.
    requires { line_seen fields.old ≡ line_values null }
    // If the result is true, the text is JSON of some value, as `serde_json` reads it, and `fields` are the
    // fields of this value; of a repeated key the last one counts.
    ensures { IsTrue result → ((v : Data)
        × (read_text line.now ≡ Some v)
        × (line_seen fields.new ≡ line_values v)) }
{
    let mut scanner = Scanner::new(line.as_bytes());
    match take_line(&mut scanner, fields) {
        Some(()) => true,
        None => false,
    }
}

/// Puts the fields of a line in `fields` if the line has the usual form but for its texts, and returns
/// whether it did. Texts may have escapes, which are read in a borrowed room, and bytes outside ASCII.
///
/// The line is then an object whose numbers are all digits alone and below 2^64, and whose `body`, the body's
/// `_source` and its `error` are objects if they are present. Nothing is promised of `false`, which is also
/// returned if memory is refused.
pub fn unescaped_fields<'v>(
    line: &'v str,
    room: &'v mut LineRoom,
    fields: &mut LineFields<'v>,
) -> bool
    // `fields` has none yet.
    requires { line_seen fields.old ≡ line_values null }
    // If the result is true, the text is JSON of some value, as `serde_json` reads it, and `fields` are the
    // fields of this value; of a repeated key the last one counts.
    ensures { IsTrue result → ((v : Data)
        × (read_text line.now ≡ Some v)
        × (line_seen fields.new ≡ line_values v)) }
{
    let Ok(mut reader) = Reader::new(line, &mut room.scratch) else {
        return false;
    };
    match take_line(&mut reader, fields) {
        Some(()) => true,
        None => false,
    }
}
