ghost use Rattle.std.specs.Prelude.{◌≡◌, ◌↔◌};
ghost use Rattle.serde_json.specs.View.{view};
ghost use Rattle.doc_register.specs.declared.reply.Reply.{Reply as Answer};
ghost use Rattle.api_lines.specs.Fields.{body_seen, body_values};
ghost use Rattle.api_lines.specs.Kinds.{is_other_text};
ghost use Rattle.api_lines.specs.ReplyTable.{IsStranger, IsUnknown, Reports, carried_pair, conflicted, created as created_reply, deleted as deleted_reply, got as got_reply, heard, indexed as indexed_reply, reported_reply};

use crate::field::Field;
use crate::fields::{BodyFields, body_fields};
use crate::number::pair_of;
use doc_register::{Op, Reply};
use serde_json::Value;
use version_pair::{DocId, Pair};

/// What is heard of a call.
#[derive(Clone, Copy, Debug, PartialEq, Eq)]
pub enum Heard {
    /// A reply that the reply table knows.
    Reply(Reply),
    /// A reply of unknown outcome: the reply table doesn't know it.
    Unknown,
    /// The body names another document.
    Stranger,
}

// The pair that a body carries.
fn pair(body: &BodyFields<'_>) -> Option<Pair>
    ensures { result ≡ carried_pair (body_seen body.now) }
{
    match (body.primary_term, body.seq_no) {
        (Field::Whole(term), Field::Whole(seq)) => pair_of(term, seq),
        _ => None,
    }
}

// A write that was refused.
fn conflict(status: u16, body: &BodyFields<'_>) -> Option<Reply>
    ensures { result ≡ conflicted status (body_seen body.now) }
{
    if status == 409 && body.error_type.is_text("version_conflict_engine_exception") {
        return Some(Reply::Conflict);
    }
    None
}

// The reply to an index.
fn indexed(status: u16, body: &BodyFields<'_>) -> Option<Reply>
    ensures { result ≡ indexed_reply status (body_seen body.now) }
{
    if status == 201 && body.outcome.is_text("created") {
        let pair = pair(body)?;
        return Some(Reply::Indexed {
            pair,
            created: true,
        });
    }
    if status == 200 && body.outcome.is_text("updated") {
        let pair = pair(body)?;
        return Some(Reply::Indexed {
            pair,
            created: false,
        });
    }
    conflict(status, body)
}

// The reply to a create.
fn created(status: u16, body: &BodyFields<'_>) -> Option<Reply>
    ensures { result ≡ created_reply status (body_seen body.now) }
{
    if status == 201 && body.outcome.is_text("created") {
        let pair = pair(body)?;
        return Some(Reply::Indexed {
            pair,
            created: true,
        });
    }
    conflict(status, body)
}

// The reply to a delete.
fn deleted(status: u16, body: &BodyFields<'_>) -> Option<Reply>
    ensures { result ≡ deleted_reply status (body_seen body.now) }
{
    if status == 200 && body.outcome.is_text("deleted") {
        let pair = pair(body)?;
        return Some(Reply::Deleted { pair, found: true });
    }
    if status == 404 && body.outcome.is_text("not_found") {
        let pair = pair(body)?;
        return Some(Reply::Deleted { pair, found: false });
    }
    conflict(status, body)
}

// The reply to a get.
fn got(status: u16, body: &BodyFields<'_>) -> Option<Reply>
    ensures { result ≡ got_reply status (body_seen body.now) }
{
    if status == 200 && body.found.is_bool(true) {
        let pair = pair(body)?;
        return match body.source_k {
            Field::Whole(k) => Some(Reply::Found { pair, k }),
            _ => None,
        };
    }
    if status == 404 && body.found.is_bool(false) {
        return Some(Reply::Missing);
    }
    None
}

// The reply that the table gives.
fn known_reply(op: &Op, status: u16, body: &BodyFields<'_>) -> Option<Reply>
    ensures { result ≡ reported_reply op.now status (body_seen body.now) }
{
    match op {
        Op::Get => got(status, body),
        Op::Index { .. } => indexed(status, body),
        Op::Delete { .. } => deleted(status, body),
        Op::Create { .. } => created(status, body),
    }
}

/// Returns whether the body names another document in `_id`.
pub fn is_stranger(id: &DocId, body: &BodyFields<'_>) -> bool
    ensures { result ≡ is_other_text id.now (body_seen body.now).id }
{
    match body.id {
        Field::Text(name) => name != id.as_str(),
        _ => false,
    }
}

/// Returns what is heard of the document's call by a status and the fields of a body: `Stranger` if the body
/// names another document, whatever the status; otherwise the reply that the reply table gives, or `Unknown`
/// if it gives none.
pub fn heard_of(op: &Op, id: &DocId, status: u16, body: &BodyFields<'_>) -> Heard
    // What is heard is what the definition gives for the fields.
    ensures { result ≡ heard op.now id.now status (body_seen body.now) }
{
    if is_stranger(id, body) {
        return Heard::Stranger;
    }
    match known_reply(op, status, body) {
        Some(reply) => Heard::Reply(reply),
        None => Heard::Unknown,
    }
}

/// Returns what is heard of the document's call by a status and a body.
///
/// A body that is an object whose `_id` is a text other than the document's id is a `Stranger`, whatever the
/// status. Otherwise the reply table gives, row by row, the reply to the operation with this status and this
/// body; what no row knows is `Unknown`.
pub fn read_reply(op: &Op, id: &DocId, status: u16, body: &Value) -> Heard
    // What is heard is what the definition gives for the body's fields.
    ensures fields { result ≡ heard op.now id.now status (body_values (view body.now)) }
    // It is `Stranger` exactly if the body names another document.
    ensures stranger { (result ≡ Heard.Stranger) ↔ IsStranger id.now (view body.now) }
    // It is a reply exactly if the body names no other document, and the reply table gives this reply.
    ensures reply { (r : Answer) → (result ≡ Heard.Reply r)
        ↔ ((¬ IsStranger id.now (view body.now)) × Reports op.now status (view body.now) r) }
    // It is `Unknown` exactly if the body names no other document, and the reply table gives no reply.
    ensures unknown { (result ≡ Heard.Unknown)
        ↔ ((¬ IsStranger id.now (view body.now)) × IsUnknown op.now status (view body.now)) }
{
    heard_of(op, id, status, &body_fields(body))
}
