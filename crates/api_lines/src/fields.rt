ghost use Rattle.std.specs.Prelude.{◌≡◌};
ghost use Rattle.serde_json.specs.View.{view};
ghost use Rattle.api_lines.specs.Fields.{body_seen, body_values, line_seen, line_values};
ghost use Rattle.serde_json.specs.Data.{null};

use crate::field::{Field, field_of, inner_field_of};
use serde_json::Value;

/// The fields of a reply's body that the reply table reads, by the names of their keys.
#[derive(Clone, Copy, Debug, PartialEq, Eq)]
pub struct BodyFields<'v> {
    /// `_id`.
    pub id: Field<'v>,
    /// `result`.
    pub outcome: Field<'v>,
    /// `_seq_no`.
    pub seq_no: Field<'v>,
    /// `_primary_term`.
    pub primary_term: Field<'v>,
    /// `found`.
    pub found: Field<'v>,
    /// `k` of `_source`.
    pub source_k: Field<'v>,
    /// `type` of `error`.
    pub error_type: Field<'v>,
}

/// The fields that any line of a history text names, by the names of their keys.
#[derive(Clone, Copy, Debug, PartialEq, Eq)]
pub struct LineFields<'v> {
    pub e: Field<'v>,
    pub n: Field<'v>,
    pub id: Field<'v>,
    pub op: Field<'v>,
    pub k: Field<'v>,
    pub if_seq_no: Field<'v>,
    pub if_primary_term: Field<'v>,
    pub shard: Field<'v>,
    pub status: Field<'v>,
    pub void: Field<'v>,
    pub body: BodyFields<'v>,
}

/// Returns the fields of a reply's body.
pub fn body_fields(body: &Value) -> BodyFields<'_>
    ensures { body_seen result ≡ body_values (view body.now) }
{
    BodyFields {
        id: field_of(body, "_id"),
        outcome: field_of(body, "result"),
        seq_no: field_of(body, "_seq_no"),
        primary_term: field_of(body, "_primary_term"),
        found: field_of(body, "found"),
        source_k: inner_field_of(body, "_source", "k"),
        error_type: inner_field_of(body, "error", "type"),
    }
}

// The fields of a body that is absent.
pub(crate) fn no_body<'v>() -> BodyFields<'v>
    ensures { body_seen result ≡ body_values null }
{
    BodyFields {
        id: Field::Absent,
        outcome: Field::Absent,
        seq_no: Field::Absent,
        primary_term: Field::Absent,
        found: Field::Absent,
        source_k: Field::Absent,
        error_type: Field::Absent,
    }
}

impl<'v> LineFields<'v> {
    /// Returns the fields of a line that has none of them.
    pub fn absent() -> LineFields<'v>
        ensures { line_seen result ≡ line_values null }
    {
        LineFields {
            e: Field::Absent,
            n: Field::Absent,
            id: Field::Absent,
            op: Field::Absent,
            k: Field::Absent,
            if_seq_no: Field::Absent,
            if_primary_term: Field::Absent,
            shard: Field::Absent,
            status: Field::Absent,
            void: Field::Absent,
            body: no_body(),
        }
    }
}

// The fields of the body of a line.
fn body_of_line(value: &Value) -> BodyFields<'_>
    ensures { body_seen result ≡ (line_values (view value.now)).body }
{
    match value.get("body") {
        Some(body) => body_fields(body),
        None => no_body(),
    }
}

/// Returns the fields of a line.
pub fn line_fields(value: &Value) -> LineFields<'_>
    ensures { line_seen result ≡ line_values (view value.now) }
{
    LineFields {
        e: field_of(value, "e"),
        n: field_of(value, "n"),
        id: field_of(value, "id"),
        op: field_of(value, "op"),
        k: field_of(value, "k"),
        if_seq_no: field_of(value, "if_seq_no"),
        if_primary_term: field_of(value, "if_primary_term"),
        shard: field_of(value, "shard"),
        status: field_of(value, "status"),
        void: field_of(value, "void"),
        body: body_of_line(value),
    }
}
