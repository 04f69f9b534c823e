//! Objects of JSON that are written as lines, built member by member.
ghost use Rattle.std.specs.Prelude.{◌≡◌, IfOk};
ghost use Rattle.serde_json.specs.Data.{no_members, object, put as with_member};
ghost use Rattle.serde_json.specs.View.{view};
ghost use Rattle.api_lines.specs.Objects.{members_of, with_number, with_text};

use serde_json::{Map, Value};
use std::alloc::Global;
use std::string::String;
use version_pair::NoMemory;

/// An object of JSON that is built member by member.
#[derive(Drop)]
pub struct LineObject {
    alloc: Global,
    /// The members so far.
    pub members: Map<String, Value>,
}

impl LineObject {
    /// Returns an object without members. It allocates nothing.
    pub fn new(alloc: Global) -> LineObject
        ensures { members_of result ≡ no_members }
    {
        LineObject {
            alloc,
            members: Map::new(alloc),
        }
    }

    /// Returns the object with a member: the value of this key, in place of one that it may have.
    pub fn with(self, key: &str, value: Value) -> Result<LineObject, NoMemory>
        ensures { IfOk result (λ made. members_of made ≡ with_member key.now (view value) (members_of self)) }
    {
        let LineObject { alloc, mut members } = self;
        serde_json::put(&mut members, alloc, key, value)?;
        Ok(LineObject { alloc, members })
    }

    /// Returns the object with a text as the value of this key.
    pub fn text(self, key: &str, text: &str) -> Result<LineObject, NoMemory>
        ensures { IfOk result (λ made. members_of made ≡ with_text key.now text.now (members_of self)) }
    {
        let text = String::from_str(self.alloc, text)?;
        self.with(key, Value::String(text))
    }

    /// Returns the object with a number as the value of this key.
    pub fn number(self, key: &str, number: u64) -> Result<LineObject, NoMemory>
        ensures { IfOk result (λ made. members_of made ≡ with_number key.now number (members_of self)) }
    {
        self.with(key, Value::from(number))
    }

    /// Returns the object as a value.
    pub fn into_value(self) -> Value
        ensures { view result ≡ object (members_of self) }
    {
        Value::Object(self.members)
    }
}
