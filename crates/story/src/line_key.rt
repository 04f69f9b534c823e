use api_lines::{LineFault, given_line};
use memchr::memchr;
use memchr::memmem::{Finder, rfind};
use serde_json::Value;
use std::alloc::{AllocError, Global};
use version_pair::NoMemory;

/// A key under which a line may say something beside its event.
#[derive(Drop)]
pub struct LineKey {
    name: &'static str,
    // Finds the key as it is spelled in quotes: most texts don't have it.
    quoted: Finder<'static>,
    // How its member begins behind another one.
    begin: &'static [u8],
}

// Returns the value of a line; `None` if it has none.
fn value_of(alloc: Global, line: &[u8]) -> Result<Option<Value>, NoMemory> {
    match given_line(alloc, 1, line) {
        Ok(value) => Ok(value),
        Err(LineFault::Reported(_)) => Ok(None),
        Err(LineFault::NoMemory) => Err(AllocError),
    }
}

// Returns the number that these bytes begin with, if its member ends behind it.
fn leading_number(bytes: &[u8]) -> Option<i64> {
    let end = bytes.iter().position(|byte| !byte.is_ascii_digit())?;
    if !matches!(bytes.get(end), Some(b',' | b'}')) {
        return None;
    }
    let digits = str::from_utf8(bytes.get(..end)?).ok()?;
    digits.parse::<i64>().ok()
}

impl LineKey {
    /// Returns the key under which a line says when it was written.
    pub fn time() -> LineKey {
        LineKey {
            name: "t",
            quoted: Finder::new(b"\"t\""),
            begin: b",\"t\":",
        }
    }

    /// Returns the key under which a line names who asked.
    pub fn client() -> LineKey {
        LineKey {
            name: "client",
            quoted: Finder::new(b"\"client\""),
            begin: b",\"client\":",
        }
    }

    /// Returns the key under which a line has a note.
    pub fn note() -> LineKey {
        LineKey {
            name: "note",
            quoted: Finder::new(b"\"note\""),
            begin: b",\"note\":",
        }
    }

    /// Returns the key under which a line has the HTTP status of a reply.
    pub fn status() -> LineKey {
        LineKey {
            name: "status",
            quoted: Finder::new(b"\"status\""),
            begin: b",\"status\":",
        }
    }

    /// Returns the key under which a lost line says whether nothing was performed.
    pub fn void() -> LineKey {
        LineKey {
            name: "void",
            quoted: Finder::new(b"\"void\""),
            begin: b",\"void\":",
        }
    }

    /// Returns whether the line may have the member.
    pub fn may_be_in(&self, line: &[u8]) -> bool {
        self.quoted.find(line).is_some()
    }

    // Returns what follows the key in the line where it stands last, if it surely is one of the line's own object
    // there: no other object and no list begins between the start of the line and it.
    fn own_member<'l>(&self, line: &'l [u8]) -> Option<&'l [u8]> {
        let place = rfind(line, self.begin)?;
        let before = line.get(1..place)?;
        if memchr(b'{', before).is_some() || memchr(b'[', before).is_some() {
            return None;
        }
        line.get(place.saturating_add(self.begin.len())..)
    }

    // Returns the number that the member is where it stands first, if it surely is one of the line's own object there.
    fn first_number(&self, line: &[u8]) -> Option<i64> {
        let place = self.quoted.find(line)?;
        let before = line.get(1..place)?;
        if memchr(b'{', before).is_some() || memchr(b'[', before).is_some() {
            return None;
        }
        let rest = line.get(place..)?;
        // What the member begins with but for the comma.
        let rest = rest.strip_prefix(self.begin.get(1..)?)?;
        leading_number(rest)
    }

    // Returns the number that the member is, if the line ends with it: then it surely is one of the line's own object.
    fn last_number(&self, line: &[u8]) -> Option<i64> {
        let Some((b'}', rest)) = line.split_last() else {
            return None;
        };
        let count = rest.iter().rev().position(|byte| !byte.is_ascii_digit())?;
        let (before, digits) = rest.split_at(rest.len().saturating_sub(count));
        if !before.ends_with(self.begin) {
            return None;
        }
        str::from_utf8(digits).ok()?.parse::<i64>().ok()
    }

    // Returns the number that the member is, if it can be read without the line's value.
    fn plain_number(&self, line: &[u8]) -> Option<i64> {
        leading_number(self.own_member(line)?)
    }

    /// Returns the text that the member is, if it can be read without the line's value.
    pub fn plain_text<'l>(&self, line: &'l [u8]) -> Option<&'l str> {
        let rest = self.own_member(line)?;
        if !matches!(rest.first(), Some(b'"')) {
            return None;
        }
        let rest = rest.get(1..)?;
        let text = rest.get(..memchr(b'"', rest)?)?;
        if memchr(b'\\', text).is_some() {
            return None;
        }
        str::from_utf8(text).ok()
    }

    /// Returns the text that the member is; an empty one if the line has none, or one that is no text.
    pub fn text(&self, alloc: Global, line: &[u8]) -> Result<String, NoMemory> {
        let value = value_of(alloc, line)?;
        let member = value.as_ref().and_then(|value| value.get(self.name));
        match member.and_then(|it| it.as_str()) {
            Some(text) => String::from_str(alloc, text),
            None => Ok(String::new(alloc)),
        }
    }

    /// Returns the number that the member is, of several the first one; `None` if the line has none, or one that is
    /// no integer.
    pub fn number_in_front(&self, alloc: Global, line: &[u8]) -> Result<Option<i64>, NoMemory> {
        match self.first_number(line) {
            Some(number) => Ok(Some(number)),
            None => self.number(alloc, line),
        }
    }

    /// Returns the number that the member is, of several the last one; `None` if the line has none, or one that is
    /// no integer.
    pub fn number(&self, alloc: Global, line: &[u8]) -> Result<Option<i64>, NoMemory> {
        if let Some(number) = self.last_number(line) {
            return Ok(Some(number));
        }
        if !self.may_be_in(line) {
            return Ok(None);
        }
        if let Some(number) = self.plain_number(line) {
            return Ok(Some(number));
        }
        let value = value_of(alloc, line)?;
        let member = value.as_ref().and_then(|value| value.get(self.name));
        Ok(member.and_then(|it| it.as_i64()))
    }
}
