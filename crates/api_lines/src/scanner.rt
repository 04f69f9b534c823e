//! The tokens of a line, read a byte at a time. Only lines are taken whose texts have no escape and no byte
//! outside ASCII, and whose numbers are digits alone. Spaces may be around values, but not between a key and
//! its colon. Anything else is left to the tokens of `json`.
ghost use Rattle.std.specs.Prelude.{◌≡◌, ◌<◌, ◌∷◌, ◌++◌, ℕ, [], IfSome, List, MatchOption, None as Nothing, OnSome, Some, length, not, option_map, take, true};
ghost use Rattle.std.specs.Bool.{MatchBool};
ghost use Rattle.std.specs.List.{list_all};
ghost use Rattle.json.specs.Json.{after_end_array, read_key};
ghost use Rattle.json.specs.Lex.{Place as LexPlace, after_value, between, fresh, lex, may_begin as begins, may_close as closes, tokens};
ghost use Rattle.json.specs.Print.{IsNumber};
ghost use Rattle.json.specs.Word.{ends_word};
ghost use Rattle.json.specs.Token.{begin_array, begin_object, boolean, end_object, null, number, string};
ghost use Rattle.serde_json.specs.Data.{unsigned};
ghost use Rattle.serde_json.specs.Read.{number_of};
ghost use Rattle.api_lines.specs.Lines.{is_space as space};
ghost use Rattle.api_lines.specs.aids.Keys.{key_text};
ghost use Rattle.api_lines.specs.aids.PlainTexts.{EndsValue, is_ended as ended, is_stop as stop};

use crate::keys::{Key, known_key};
use crate::lines::is_space;

// The greatest number of digits that are read: a number of that many digits is below 2^64.
const MOST_DIGITS: usize = 19;

// Whether this byte may end a plain text: a quote, a byte that a text doesn't hold as it is, or one outside
// ASCII.
#[inline(always)]
fn is_stop(byte: u8) -> bool
    ensures { result ≡ stop byte }
{
    byte == b'"' || byte == b'\\' || byte < 0x20 || byte >= 0x80
}

// The end of the plain text that begins here.
#[inline(always)]
fn plain_end(bytes: &[u8]) -> Option<usize>
    ensures within { IfSome result (λ end. end < length bytes.now) }
    ensures plain { IfSome result (λ end. list_all (λ b. not (stop b)) (take end bytes.now) ≡ true) }
{
    for (at, byte) in bytes.iter().enumerate() {
        if is_stop(*byte) {
            return Some(at);
        }
    }
    None
}

// The plain text up to its closing quote, and the bytes after that.
#[inline(always)]
fn plain_text(bytes: &[u8]) -> Option<(&str, &[u8])>
    ensures { IfSome result (λ parts. (bytes.now ≡ parts.0.now ++ 34 ∷ parts.1.now)
        × (list_all (λ b. not (stop b)) parts.0.now ≡ true)) }
{
    let end = plain_end(bytes)?;
    if bytes[end] != b'"' {
        return None;
    }
    let text = unsafe { str::from_utf8_unchecked(&bytes[..end]) };
    Some((text, &bytes[end + 1..]))
}

// The bytes after this one, if it is next.
#[inline(always)]
fn after(bytes: &[u8], byte: u8) -> Option<&[u8]>
    ensures { IfSome result (λ rest. bytes.now ≡ byte ∷ rest.now) }
{
    match bytes {
        [first, rest @ ..] if *first == byte => Some(rest),
        _ => None,
    }
}

// The key that comes next after its quote, with its colon; and the bytes after that.
#[inline(always)]
fn named_key(quoted: &[u8]) -> Option<(Key<'_>, &[u8])>
    ensures { IfSome result (λ parts. (quoted.now ≡ key_text parts.0 ++ 34 ∷ 58 ∷ parts.1.now)
        × (list_all (λ b. not (stop b)) (key_text parts.0) ≡ true)) }
{
    match known_key(quoted) {
        Some(known) => Some(known),
        None => {
            let (name, colon) = plain_text(quoted)?;
            let rest = after(colon, b':')?;
            Some((Key::Other(name), rest))
        }
    }
}

// The bytes after the spaces that are next. Most often there is none.
#[inline(always)]
fn after_spaces(bytes: &[u8]) -> &[u8]
    ensures same { lex between result.now ≡ lex between bytes.now }
    ensures word { ended result.now ≡ true → ends_word bytes.now ≡ true }
{
    match bytes {
        [first, ..] if *first > b' ' => bytes,
        _ => after_all_spaces(bytes),
    }
}

// The bytes after the spaces that are next, one by one.
#[inline(never)]
fn after_all_spaces(bytes: &[u8]) -> &[u8]
    ensures same { lex between result.now ≡ lex between bytes.now }
    ensures word { ended result.now ≡ true → ends_word bytes.now ≡ true }
{
    let mut rest = bytes;
    'spaces: while let Some(next) = after_space(rest) {
        rest = next;
    }
    rest
}

// The bytes after a space, if one is next.
#[inline(always)]
fn after_space(bytes: &[u8]) -> Option<&[u8]>
    ensures { IfSome result (λ rest. (b : ℕ) × (space b ≡ true) × (bytes.now ≡ b ∷ rest.now)) }
{
    match bytes {
        [first, rest @ ..] if is_space(*first) => Some(rest),
        _ => None,
    }
}

// Whether a comma or a closing bracket is next.
#[inline(always)]
fn is_ended(bytes: &[u8]) -> bool
    ensures { result ≡ ended bytes.now }
{
    match bytes {
        [byte, ..] => *byte == b',' || *byte == b'}' || *byte == b']',
        [] => false,
    }
}

// The number of the first 1 to 19 digits, and the bytes after them, which may begin with a twentieth digit:
// the caller checks where the number ends. `None` without a digit, or if a zero comes before other digits.
#[inline(always)]
fn digits(bytes: &[u8]) -> Option<(u64, &[u8])>
    ensures { IfSome result (λ parts. (ds : List ℕ) × (bytes.now ≡ ds ++ parts.1.now)
        × IsNumber ds × (number_of ds ≡ Some (unsigned parts.0))) }
{
    let mut number: u64 = 0;
    let mut at = 0;
    'digits: while at < bytes.len() && at < MOST_DIGITS {
        let byte = bytes[at];
        if byte < b'0' || byte > b'9' {
            break;
        }
        number = number * 10 + u64::from(byte - b'0');
        at += 1;
    }
    if at == 0 || (bytes[0] == b'0' && at > 1) {
        return None;
    }
    Some((number, &bytes[at..]))
}

/// Whether a comma, a value or neither comes before the remaining bytes.
#[derive(Clone, Copy)]
pub enum CommaState {
    Fresh,
    AfterComma,
    AfterValue,
}

impl CommaState {
    ghost use Rattle.api_lines.specs.aids.Scanning.{place_of};

    #[inline(always)]
    fn may_begin(self) -> bool
        ensures { result ≡ begins (place_of self) }
    {
        matches!(self, CommaState::Fresh | CommaState::AfterComma)
    }

    #[inline(always)]
    fn may_close(self) -> bool
        ensures { result ≡ closes (place_of self) }
    {
        matches!(self, CommaState::Fresh | CommaState::AfterValue)
    }
}

/// The tokens of a line that are still to be taken. After a refusal nothing is said of them.
#[derive(Drop)]
pub struct Scanner<'a> {
    rest: &'a [u8],
    place: CommaState,
}

impl<'a> Scanner<'a> {
    ghost use Rattle.api_lines.specs.aids.Scanning.{tokens_at, tokens_left};

    /// Returns the tokens of a line.
    #[inline(always)]
    pub fn new(line: &'a [u8]) -> Scanner<'a>
        ensures { tokens_left result ≡ tokens line.now }
    {
        Scanner {
            rest: after_spaces(line),
            place: CommaState::Fresh,
        }
    }

    /// Returns whether no token is left, after a value.
    #[inline(always)]
    pub fn is_over(&self) -> bool
        ensures { result ≡ true → tokens_left self.now ≡ [] }
    {
        self.rest.is_empty() && self.place.may_close()
    }

    // Moves to these bytes, where a value or a key may begin, or a bracket may close.
    #[inline(always)]
    fn begin(&mut self, rest: &'a [u8])
        ensures { tokens_left self.new ≡ tokens_at fresh rest.now }
    {
        self.rest = after_spaces(rest);
        self.place = CommaState::Fresh;
    }

    // Moves to these bytes after a value, and passes the comma if it is next.
    #[inline(always)]
    fn pass_comma(&mut self, rest: &'a [u8])
        ensures { tokens_left self.new ≡ tokens_at after_value rest.now }
    {
        match after(rest, b',') {
            Some(next) => {
                self.rest = after_spaces(next);
                self.place = CommaState::AfterComma;
            }
            None => {
                self.rest = rest;
                self.place = CommaState::AfterValue;
            }
        }
    }

    // Moves to these bytes after a value, and passes the comma that may be next.
    #[inline(always)]
    fn end_value(&mut self, rest: &'a [u8])
        ensures { tokens_left self.new ≡ tokens_at after_value rest.now }
    {
        self.pass_comma(after_spaces(rest));
    }

    // Moves past a value if it ends here: at a comma or at a closing bracket. Otherwise nothing changes.
    #[inline(always)]
    fn end_scalar(&mut self, rest: &'a [u8]) -> Option<()>
        ensures ended { OnSome result (EndsValue rest.now) }
        ensures left { OnSome result (tokens_left self.new ≡ tokens_at after_value rest.now) }
        ensures kept { result ≡ Nothing → tokens_left self.new ≡ tokens_left self.old }
    {
        let next = after_spaces(rest);
        if !is_ended(next) {
            return None;
        }
        self.pass_comma(next);
        Some(())
    }

    // The remaining bytes, if a value or a key may begin there.
    #[inline(always)]
    fn beginning(&self) -> Option<&'a [u8]>
        ensures { IfSome result (λ bytes. (p : LexPlace) × (begins p ≡ true)
            × (tokens_left self.now ≡ tokens_at p bytes.now)) }
    {
        if self.place.may_begin() {
            Some(self.rest)
        } else {
            None
        }
    }

    /// Takes the brace that opens an object.
    #[inline(always)]
    pub fn open_object(&mut self) -> Option<()>
        ensures { OnSome result (tokens_left self.old ≡ begin_object ∷ tokens_left self.new) }
    {
        let rest = after(self.beginning()?, b'{')?;
        self.begin(rest);
        Some(())
    }

    /// Takes the bracket that opens an array.
    #[inline(always)]
    pub fn open_array(&mut self) -> Option<()>
        ensures { OnSome result (tokens_left self.old ≡ begin_array ∷ tokens_left self.new) }
    {
        let rest = after(self.beginning()?, b'[')?;
        self.begin(rest);
        Some(())
    }

    /// Takes the bracket that closes an array, if it is next.
    #[inline(always)]
    pub fn close_array(&mut self) -> bool
        ensures { MatchBool result (after_end_array (tokens_left self.old) ≡ Some (tokens_left self.new))
            (tokens_left self.new ≡ tokens_left self.old) }
    {
        if !self.place.may_close() {
            return false;
        }
        match after(self.rest, b']') {
            Some(rest) => {
                self.end_value(rest);
                true
            }
            None => false,
        }
    }

    // Takes the brace that closes an object.
    #[inline(always)]
    fn close_object(&mut self) -> Option<()>
        ensures { OnSome result (tokens_left self.old ≡ end_object ∷ tokens_left self.new) }
    {
        if !self.place.may_close() {
            return None;
        }
        let rest = after(self.rest, b'}')?;
        self.end_value(rest);
        Some(())
    }

    /// Takes the next key of an object, or nothing at its closing brace.
    #[inline(always)]
    pub fn key(&mut self) -> Option<Option<Key<'a>>>
        ensures read { IfSome result (λ name. read_key (tokens_left self.old)
            ≡ Some (option_map key_text name, tokens_left self.new)) }
        ensures shorter { OnSome result
            (length (tokens_left self.new) < length (tokens_left self.old)) }
    {
        match after(self.rest, b'"') {
            Some(quoted) => {
                if !self.place.may_begin() {
                    return None;
                }
                let (name, rest) = named_key(quoted)?;
                self.begin(rest);
                Some(Some(name))
            }
            None => {
                self.close_object()?;
                Some(None)
            }
        }
    }

    /// Takes a text. If it takes none, the same tokens are left.
    #[inline(always)]
    pub fn text(&mut self) -> Option<&'a str>
        ensures { MatchOption result (tokens_left self.new ≡ tokens_left self.old)
            (λ s. tokens_left self.old ≡ string s.now ∷ tokens_left self.new) }
    {
        let quoted = after(self.beginning()?, b'"')?;
        let (text, rest) = plain_text(quoted)?;
        self.end_scalar(rest)?;
        Some(text)
    }

    /// Takes a whole number. If it takes none, the same tokens are left.
    #[inline(always)]
    pub fn whole(&mut self) -> Option<u64>
        ensures { MatchOption result (tokens_left self.new ≡ tokens_left self.old)
            (λ n. (ds : List ℕ)
            × (tokens_left self.old ≡ number ds ∷ tokens_left self.new)
            × (number_of ds ≡ Some (unsigned n))) }
    {
        let (number, rest) = digits(self.beginning()?)?;
        self.end_scalar(rest)?;
        Some(number)
    }

    /// Takes true or false.
    #[inline(always)]
    pub fn truth(&mut self) -> Option<bool>
        ensures { IfSome result (λ b. tokens_left self.old ≡ boolean b ∷ tokens_left self.new) }
    {
        let bytes = self.beginning()?;
        match bytes.strip_prefix(b"true") {
            Some(rest) => {
                self.end_scalar(rest)?;
                Some(true)
            }
            None => {
                let rest = bytes.strip_prefix(b"false")?;
                self.end_scalar(rest)?;
                Some(false)
            }
        }
    }

    /// Takes null.
    #[inline(always)]
    pub fn null(&mut self) -> Option<()>
        ensures { OnSome result (tokens_left self.old ≡ null ∷ tokens_left self.new) }
    {
        let rest = self.beginning()?.strip_prefix(b"null")?;
        self.end_scalar(rest)?;
        Some(())
    }

    /// Returns the byte with which the next value begins.
    #[inline(always)]
    pub fn first(&self) -> Option<u8> {
        self.rest.first().copied()
    }
}
