ghost use Rattle.std.specs.Prelude.{◌≡◌, IfOk, codes, if◌then◌else◌};
ghost use Rattle.serde_json.specs.Data.{no_members};
ghost use Rattle.serde_json.specs.View.{view};
ghost use Rattle.api_lines.specs.Objects.{members_of};
ghost use Rattle.api_lines.specs.Written.{conflict_body as body_of_conflict, found_body as body_of_found, id_and_pair, missing_body as body_of_missing, write_body as body_of_write, written_body as body_written, written_status as status_written};

use crate::line_object::LineObject;
use doc_register::Reply;
use serde_json::Value;
use std::alloc::Global;
use version_pair::{DocId, NoMemory, Pair};

// The id of a document and a pair, as members.
fn with_id_and_pair(alloc: Global, id: &DocId, pair: Pair) -> Result<LineObject, NoMemory>
    ensures { IfOk result (λ made. members_of made ≡ id_and_pair id.now pair no_members) }
{
    LineObject::new(alloc)
        .text("_id", id.as_str())?
        .number("_primary_term", pair.term())?
        .number("_seq_no", pair.seq())
}

// The body of a performed write.
fn write_body(alloc: Global, id: &DocId, pair: Pair, outcome: &str) -> Result<Value, NoMemory>
    ensures { IfOk result (λ body. view body ≡ body_of_write id.now pair outcome.now) }
{
    let body = with_id_and_pair(alloc, id, pair)?.text("result", outcome)?;
    Ok(body.into_value())
}

// The body of a document that exists.
fn found_body(alloc: Global, id: &DocId, pair: Pair, k: u64) -> Result<Value, NoMemory>
    ensures { IfOk result (λ body. view body ≡ body_of_found id.now pair k) }
{
    let source = LineObject::new(alloc).number("k", k)?;
    let body = with_id_and_pair(alloc, id, pair)?
        .with("_source", source.into_value())?
        .with("found", Value::Bool(true))?;
    Ok(body.into_value())
}

// The body of a document that is missing.
fn missing_body(alloc: Global, id: &DocId) -> Result<Value, NoMemory>
    ensures { IfOk result (λ body. view body ≡ body_of_missing id.now) }
{
    let body = LineObject::new(alloc)
        .text("_id", id.as_str())?
        .with("found", Value::Bool(false))?;
    Ok(body.into_value())
}

// The body of a conflict.
fn conflict_body(alloc: Global) -> Result<Value, NoMemory>
    ensures { IfOk result (λ body. view body ≡ body_of_conflict) }
{
    let error = LineObject::new(alloc).text("type", "version_conflict_engine_exception")?;
    let body = LineObject::new(alloc).with("error", error.into_value())?;
    Ok(body.into_value())
}

// The status of a reply.
fn written_status(reply: &Reply) -> u16
    ensures { result ≡ status_written reply.now }
{
    match reply {
        Reply::Indexed { created, .. } => { if *created { 201 } else { 200 } }
        Reply::Deleted { found, .. } => { if *found { 200 } else { 404 } }
        Reply::Found { .. } => 200,
        Reply::Missing => 404,
        Reply::Conflict => 409,
    }
}

// The result that an index or a create names.
fn index_outcome(created: bool) -> &'static str
    ensures { result.now ≡ (if created then codes "created" else codes "updated") }
{
    if created { "created" } else { "updated" }
}

// The result that a delete names.
fn delete_outcome(found: bool) -> &'static str
    ensures { result.now ≡ (if found then codes "deleted" else codes "not_found") }
{
    if found { "deleted" } else { "not_found" }
}

// The body of a reply about the document.
fn written_body(alloc: Global, id: &DocId, reply: &Reply) -> Result<Value, NoMemory>
    ensures { IfOk result (λ body. view body ≡ body_written id.now reply.now) }
{
    match reply {
        Reply::Indexed { pair, created } => write_body(alloc, id, *pair, index_outcome(*created)),
        Reply::Deleted { pair, found } => write_body(alloc, id, *pair, delete_outcome(*found)),
        Reply::Found { pair, k } => found_body(alloc, id, *pair, *k),
        Reply::Missing => missing_body(alloc, id),
        Reply::Conflict => conflict_body(alloc),
    }
}

/// Returns the status and the body of a reply about the document, as the reply table has them. The body has
/// the keys that report the reply and no others. `read_reply` reads it back, for each operation that the
/// reply fits.
pub fn write_reply(alloc: Global, id: &DocId, reply: &Reply) -> Result<(u16, Value), NoMemory>
    ensures status { IfOk result (λ written. written.0 ≡ status_written reply.now) }
    ensures body { IfOk result (λ written. view written.1 ≡ body_written id.now reply.now) }
{
    let body = written_body(alloc, id, reply)?;
    Ok((written_status(reply), body))
}
