ghost use Rattle.std.specs.Prelude.{◌≡◌, MatchResult, Some, Ok, Err};
ghost use Rattle.serde_json.specs.Data.{boolean};
ghost use Rattle.serde_json.specs.View.{view};
ghost use Rattle.api_lines.specs.Fields.{inner_field, value_of};
ghost use Rattle.api_lines.specs.Json.{field, field_value};
ghost use Rattle.api_lines.specs.Kinds.{is_text, is_truth, optional_number, optional_truth, required_number, required_text};

use crate::number::Number;
use crate::text_fault::TextCause;
use serde_json::Value;

/// The value of a field of a line, by its kind.
#[derive(Clone, Copy, Debug, PartialEq, Eq)]
pub enum Field<'v> {
    /// The field is absent.
    Absent,
    /// A whole number below 2^64, spelled by digits alone.
    Whole(u64),
    /// A number that is not whole, not below 2^64, or not spelled by digits alone.
    NotWhole,
    /// A text.
    Text(&'v str),
    /// True.
    True,
    /// False. (Each has a variant of its own: a variant that holds a byte makes all the others slower to
    /// copy.)
    False,
    /// A value of another kind, such as null.
    Other,
}

impl<'v> Field<'v> {
    /// Returns a number that may be absent. Errors: `Shape` for another kind.
    pub fn optional_number(self) -> Result<Option<Number>, TextCause>
        // It is the number of the field, or `None` if the field is absent; the error is `Shape`, exactly if
        // the field is of another kind.
        ensures { result ≡ optional_number (value_of self.entry) }
    {
        match self {
            Field::Absent => Ok(None),
            Field::Whole(n) => Ok(Some(Number::Whole(n))),
            Field::NotWhole => Ok(Some(Number::NotWhole)),
            Field::Text(_) | Field::True | Field::False | Field::Other => Err(TextCause::Shape),
        }
    }

    /// Returns a number, which must be present. Errors: `Shape` if it is not.
    pub fn required_number(self) -> Result<Number, TextCause>
        // It is the number of the field; the error is `Shape`, exactly if the field is no number.
        ensures { result ≡ required_number (value_of self.entry) }
    {
        match self {
            Field::Whole(n) => Ok(Number::Whole(n)),
            Field::NotWhole => Ok(Number::NotWhole),
            Field::Absent | Field::Text(_) | Field::True | Field::False | Field::Other => Err(
                TextCause::Shape,
            ),
        }
    }

    /// Returns a text, which must be present. Errors: `Shape` if it is not.
    pub fn required_text(self) -> Result<&'v str, TextCause>
        // It is the text of the field; the error is `Shape`, exactly if the field is no text.
        ensures { MatchResult result (λ text. required_text (value_of self.entry) ≡ Ok text.now) (λ cause. required_text (value_of self.entry) ≡ Err cause) }
    {
        match self {
            Field::Text(text) => Ok(text),
            _ => Err(TextCause::Shape),
        }
    }

    /// Returns a truth value that may be absent. Errors: `Shape` for another kind.
    pub fn optional_bool(self) -> Result<Option<bool>, TextCause>
        // It is the truth value of the field, or `None` if the field is absent; the error is `Shape`, exactly
        // if the field is of another kind.
        ensures { result ≡ optional_truth (value_of self.entry) }
    {
        match self {
            Field::Absent => Ok(None),
            Field::True => Ok(Some(true)),
            Field::False => Ok(Some(false)),
            Field::Whole(_) | Field::NotWhole | Field::Text(_) | Field::Other => Err(
                TextCause::Shape,
            ),
        }
    }

    /// Returns whether it is this text.
    pub fn is_text(self, text: &str) -> bool
        ensures { result ≡ is_text text.now (value_of self.entry) }
    {
        match self {
            Field::Text(found) => found == text,
            _ => false,
        }
    }

    /// Returns whether it is this truth value.
    pub fn is_bool(self, wanted: bool) -> bool
        ensures { result ≡ is_truth wanted (value_of self.entry) }
    {
        match self {
            Field::True => wanted,
            Field::False => !wanted,
            _ => false,
        }
    }

    /// Returns the field for true or false.
    pub fn of_bool(truth: bool) -> Field<'v>
        // The field is that of the truth value.
        ensures { value_of result ≡ field_value (Some (boolean truth)) }
    {
        if truth { Field::True } else { Field::False }
    }
}

// The field for a value.
fn kind_of(value: &Value) -> Field<'_>
    ensures { value_of result ≡ field_value (Some (view value.now)) }
{
    match value {
        Value::Bool(truth) => Field::of_bool(*truth),
        Value::Number(number) => match number.as_u64() {
            Some(n) => Field::Whole(n),
            None => Field::NotWhole,
        },
        Value::String(text) => Field::Text(text.as_str()),
        Value::Null | Value::Array(_) | Value::Object(_) => Field::Other,
    }
}

/// Returns the field of a value with this key; absent if the value is not an object.
pub fn field_of<'v>(value: &'v Value, key: &str) -> Field<'v>
    // The field is that of the definition, which is the last one if a key is repeated.
    ensures { value_of result ≡ field key.now (view value.now) }
{
    match value.get(key) {
        Some(found) => kind_of(found),
        None => Field::Absent,
    }
}

/// Returns the field with the key `key` of the field with the key `outer`; absent if that is not an object.
pub fn inner_field_of<'v>(value: &'v Value, outer: &str, key: &str) -> Field<'v>
    // The field is that of the definition.
    ensures { value_of result ≡ inner_field outer.now key.now (view value.now) }
{
    match value.get(outer) {
        Some(inner) => field_of(inner, key),
        None => Field::Absent,
    }
}
