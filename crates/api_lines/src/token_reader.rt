//! Readers that take the tokens of a line one after the other: a scanner of plain bytes, or the kit's reader,
//! which unescapes.
ghost use Rattle.std.specs.Prelude.{◌≡◌, ◌<◌, ◌∷◌, [], IfSome, OnSome, Some, length, option_map, true};
ghost use Rattle.json.specs.Json.{read_key};
ghost use Rattle.json.specs.Token.{begin_object};
ghost use Rattle.serde_json.specs.Data.{Data};
ghost use Rattle.api_lines.specs.Fields.{value_of};
ghost use Rattle.api_lines.specs.Json.{field_value};
ghost use Rattle.api_lines.specs.aids.Keys.{key_text};
ghost use Rattle.api_lines.specs.aids.Tokens.{BeginsWithValue};

use crate::field::Field;
use crate::keys::Key;

/// A reader that takes tokens one after the other. After a refusal nothing is said of those that are left.
pub trait TokenReader<'a> {
    ghost use Rattle.std.specs.Prelude.{List};
    ghost use Rattle.json.specs.Token.{Token};

    /// The tokens that are left.
    ghost left: { Self → List Token };

    /// Takes the brace that opens an object.
    fn open_object(&mut self) -> Option<()>
        ensures { OnSome result (Self.left self.old ≡ begin_object ∷ Self.left self.new) };

    /// Takes the next value, nested no deeper than `depth`, and writes it as a field to `found`.
    fn field(&mut self, depth: usize, found: &mut Field<'a>) -> Option<()>
        ensures read { OnSome result ((v : Data)
            × BeginsWithValue depth (Self.left self.old) v (Self.left self.new)
            × (value_of found.new ≡ field_value (Some v))) }
        ensures shorter { OnSome result (length (Self.left self.new) < length (Self.left self.old)) };

    /// The same for a value that is most often a text.
    fn text_field(&mut self, depth: usize, found: &mut Field<'a>) -> Option<()>
        ensures read { OnSome result ((v : Data)
            × BeginsWithValue depth (Self.left self.old) v (Self.left self.new)
            × (value_of found.new ≡ field_value (Some v))) }
        ensures shorter { OnSome result (length (Self.left self.new) < length (Self.left self.old)) };

    /// The same for a value that is most often a whole number.
    fn number_field(&mut self, depth: usize, found: &mut Field<'a>) -> Option<()>
        ensures read { OnSome result ((v : Data)
            × BeginsWithValue depth (Self.left self.old) v (Self.left self.new)
            × (value_of found.new ≡ field_value (Some v))) }
        ensures shorter { OnSome result (length (Self.left self.new) < length (Self.left self.old)) };

    /// Takes the next key of an object, or nothing at its closing brace.
    fn key(&mut self) -> Option<Option<Key<'a>>>
        ensures read { IfSome result (λ name. read_key (Self.left self.old)
            ≡ Some (option_map key_text name, Self.left self.new)) }
        ensures shorter { OnSome result (length (Self.left self.new) < length (Self.left self.old)) };

    /// Returns whether no token is left, after a value.
    fn is_over(&mut self) -> bool
        ensures { result ≡ true → Self.left self.old ≡ [] };
}
