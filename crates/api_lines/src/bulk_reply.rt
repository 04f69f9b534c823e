ghost use Rattle.std.specs.Prelude.{◌≡◌, [], All, IfErr, IfOk, Ok, Err, true, length, map, Some, option_map};
ghost use Rattle.serde_json.specs.View.{view};
ghost use Rattle.api_lines.specs.Bulk.{UnlessMemory};
ghost use Rattle.api_lines.specs.BulkReply.{action_name as name_of_action, bulk_reply, heard_counted as counted_heard, heard_by as heard_by_fields, heard_item as item_heard, heard_items as items_heard, heard_json, heard_unread as unread, is_write, items_in};
ghost use Rattle.api_lines.specs.Fields.{body_seen, value_of};
ghost use Rattle.api_lines.specs.declared.reply_table.Heard.TheVariants.{Unknown};

use crate::action::only_member;
use crate::bulk_fault::BulkFault;
use crate::field::{Field, field_of};
use crate::fields::{BodyFields, body_fields};
use crate::lines::line_value;
use crate::reply_table::{Heard, heard_of, is_stranger};
use crate::text_fault::LineFault;
use doc_register::Op;
use serde_json::Value;
use std::alloc::Global;
use version_pair::DocId;

// The name of a write's action.
fn action_name(op: &Op) -> &'static str
    requires { is_write op.now ≡ true }
    ensures { result.now ≡ name_of_action op.now }
{
    match op {
        Op::Get => unreachable!(),
        Op::Index { .. } => "index",
        Op::Delete { .. } => "delete",
        Op::Create { .. } => "create",
    }
}

// What is heard by a body for which the reply table isn't asked.
fn heard_unread(id: &DocId, body: &BodyFields<'_>) -> Heard
    ensures { result ≡ unread id.now (body_seen body.now) }
{
    if is_stranger(id, body) {
        Heard::Stranger
    } else {
        Heard::Unknown
    }
}

// What is heard by an item's status and its body.
fn heard_by(op: &Op, id: &DocId, status: Field<'_>, body: &BodyFields<'_>) -> Heard
    ensures { result ≡ heard_by_fields id.now op.now (value_of status.entry) (body_seen body.now) }
{
    match status {
        Field::Whole(status) => {
            if status < 65_536 {
                heard_of(op, id, status as u16, body)
            } else {
                heard_unread(id, body)
            }
        }
        _ => heard_unread(id, body),
    }
}

// What is heard by the item at the index, or `Kind`.
fn heard_item(place: usize, call: &(DocId, Op), item: &Value) -> Result<Heard, BulkFault>
    requires { is_write call.now.1 ≡ true }
    ensures { result ≡ item_heard place call.now (view item.now) }
{
    let (id, op) = call;
    match only_member(item, action_name(op)) {
        Some(held) if held.is_object() => {
            let body = body_fields(held);
            Ok(heard_by(op, id, field_of(held, "status"), &body))
        }
        _ => Err(BulkFault::Kind(place)),
    }
}

// What is heard by the items of the reply, which are as many as the calls.
fn heard_items(
    alloc: Global,
    calls: &[(DocId, Op)],
    items: &[Value],
) -> Result<Vec<Heard>, BulkFault>
    requires writes { All (λ call. is_write call.1 ≡ true) calls.now }
    requires counted { length items.now ≡ length calls.now }
    ensures ok { IfOk result (λ heard. items_heard 0 [] calls.now (map view items.now) ≡ Ok heard.items) }
    ensures fault { IfErr result (λ fault. UnlessMemory fault (items_heard 0 [] calls.now (map view items.now) ≡ Err fault)) }
{
    let mut heard = Vec::new(alloc);
    for i in 0..calls.len() {
        match heard_item(i, &calls[i], &items[i]) {
            Ok(item) => match heard.push(item) {
                Ok(()) => {}
                Err(_) => return Err(BulkFault::NoMemory),
            },
            Err(fault) => return Err(fault),
        }
    }
    Ok(heard)
}

// What is heard by the items of the reply, or `Count` if they aren't as many as the calls.
fn heard_counted(
    alloc: Global,
    calls: &[(DocId, Op)],
    items: &[Value],
) -> Result<Vec<Heard>, BulkFault>
    requires { All (λ call. is_write call.1 ≡ true) calls.now }
    ensures ok { IfOk result (λ heard. counted_heard calls.now (map view items.now) ≡ Ok heard.items) }
    ensures fault { IfErr result (λ fault. UnlessMemory fault (counted_heard calls.now (map view items.now) ≡ Err fault)) }
{
    if items.len() == calls.len() {
        heard_items(alloc, calls, items)
    } else {
        Err(BulkFault::Count)
    }
}

// The items of a reply's body, if it has them.
#[tactic(auto, using(crate::proofs::BulkReplyLemmas::viewed))]
fn reply_items(value: &Value) -> Option<&[Value]>
    ensures { option_map (λ items. map view items.now) result ≡ items_in (view value.now) }
{
    let items = value.get("items")?.as_array()?;
    Some(items.as_slice())
}

// What is heard by the value of a reply's body.
fn heard_value(alloc: Global, calls: &[(DocId, Op)], value: &Value) -> Result<Vec<Heard>, BulkFault>
    requires { All (λ call. is_write call.1 ≡ true) calls.now }
    ensures ok { IfOk result (λ heard. heard_json calls.now (Some (view value.now)) ≡ Ok heard.items) }
    ensures fault { IfErr result (λ fault. UnlessMemory fault (heard_json calls.now (Some (view value.now)) ≡ Err fault)) }
{
    match reply_items(value) {
        Some(items) => heard_counted(alloc, calls, items),
        None => Err(BulkFault::Count),
    }
}

// The unknown outcome of each call.
fn all_unknown(alloc: Global, calls: &[(DocId, Op)]) -> Result<Vec<Heard>, BulkFault>
    ensures ok { IfOk result (λ heard. heard.items ≡ map (λ call. Unknown) calls.now) }
    ensures fault { IfErr result (λ fault. fault ≡ BulkFault.NoMemory) }
{
    match calls.iter().map(|_| Heard::Unknown).collect(alloc) {
        Ok(heard) => Ok(heard),
        Err(_) => Err(BulkFault::NoMemory),
    }
}

/// Returns what the reply to a bulk request says of each of its calls, in their order, or the first fault.
///
/// With a status other than 200 the body isn't read, and the outcome of each call is unknown. Otherwise each
/// item holds a body for the reply table, and has the status. A body that names another document is a
/// `Stranger`, whatever its status, and an item with no whole status from 0 to 65,535 is `Unknown`.
///
/// Errors, in this order: `Syntax(1)` for a body that is not JSON; `Count` for one with no array `items`, or
/// with a number of items other than that of the calls; then, item by item, `Kind` for one that isn't an
/// object with the action's name as its one key, holding an object. `NoMemory` may come before any of them.
pub fn read_bulk_reply(
    alloc: Global,
    calls: &[(DocId, Op)],
    status: u16,
    body: &[u8],
) -> Result<Vec<Heard>, BulkFault>
    // No call is a get.
    requires { All (λ call. is_write call.1 ≡ true) calls.now }
    // What is heard is what the definition gives.
    ensures ok { IfOk result (λ heard. bulk_reply calls.now status body.now ≡ Ok heard.items) }
    // An error other than `NoMemory` is the first fault by the definition.
    ensures fault { IfErr result (λ fault. UnlessMemory fault (bulk_reply calls.now status body.now ≡ Err fault)) }
{
    if status != 200 {
        return all_unknown(alloc, calls);
    }
    match line_value(alloc, body) {
        Ok(value) => heard_value(alloc, calls, &value),
        Err(LineFault::Reported(_)) => Err(BulkFault::Syntax(1)),
        Err(LineFault::NoMemory) => Err(BulkFault::NoMemory),
    }
}
