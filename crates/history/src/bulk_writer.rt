ghost use Rattle.std.specs.Prelude.{◌≡◌, ◌+◌, ◌<◌, ◌≤◌, ◌^◌, ◌++◌, ◌∷◌, [], ◌↔◌, IfErr, IfOk, IsTrue, OnOk, Err, Ok, length, position};
ghost use Rattle.serde_json.specs.View.{view};
ghost use Rattle.api_lines.specs.Bulk.{UnlessMemory};
ghost use Rattle.history.specs.BulkText.{bulk_history, call_values, ending_value as value_of_ending, ending_values, is_stranger as stranger};
ghost use Rattle.history.specs.Written.{call_value as value_of_call, written_values};

use crate::written_line::{call_value, lost_value, reply_value, write_value};
use api_lines::{BulkFault, Heard, read_bulk, read_bulk_reply};
use doc_register::Op;
use serde_json::Value;
use std::alloc::Global;
use version_pair::{DocId, NoMemory};

fn is_stranger(heard: &Heard) -> bool
    ensures { result ≡ stranger heard.now }
{
    match heard {
        Heard::Stranger => true,
        Heard::Reply(_) | Heard::Unknown => false,
    }
}

// The index of the first reply of a stranger.
fn first_stranger(heard: &[Heard]) -> Option<usize>
    ensures { result ≡ position stranger heard.now }
{
    heard.iter().position(|heard| is_stranger(heard))
}

// Whether that many calls can be numbered from the first number on.
fn are_numbered(first: u64, count: usize) -> bool
    ensures { IsTrue result ↔ (first + count ≤ 2 ^ 64) }
{
    count == 0 || count as u64 - 1 <= u64::MAX - first
}

// Adds the line of the call of an item.
fn write_call(
    alloc: Global,
    no: u64,
    item: &(DocId, Op),
    text: &mut Vec<u8>,
) -> Result<(), NoMemory>
    ensures { OnOk result (text.new.items ≡ text.old.items
        ++ written_values (value_of_call no 0 item.now.0 item.now.1 ∷ [])) }
{
    let (id, op) = item;
    let value = call_value(alloc, no, 0, id, op)?;
    write_value(alloc, &value, text)
}

// The line of the ending of a call, as a value.
fn ending_value(alloc: Global, no: u64, id: &DocId, heard: &Heard) -> Result<Value, NoMemory>
    ensures { IfOk result (λ value. view value ≡ value_of_ending no id.now heard.now) }
{
    match heard {
        Heard::Reply(reply) => reply_value(alloc, no, id, *reply),
        Heard::Unknown | Heard::Stranger => lost_value(alloc, no),
    }
}

// Adds the line of the ending of an item's call.
fn write_ending(
    alloc: Global,
    no: u64,
    id: &DocId,
    heard: &Heard,
    text: &mut Vec<u8>,
) -> Result<(), NoMemory>
    ensures { OnOk result (text.new.items ≡ text.old.items
        ++ written_values (value_of_ending no id.now heard.now ∷ [])) }
{
    let value = ending_value(alloc, no, id, heard)?;
    write_value(alloc, &value, text)
}

// Adds the lines of the items' calls.
fn write_calls(
    alloc: Global,
    first: u64,
    items: &[(DocId, Op)],
    text: &mut Vec<u8>,
) -> Result<(), NoMemory>
    requires { first + length items.now ≤ 2 ^ 64 }
    ensures { OnOk result (text.new.items ≡ text.old.items ++ written_values (call_values first items.now)) }
{
    for i in 0..items.len() {
        write_call(alloc, first + i as u64, &items[i], text)?;
    }
    Ok(())
}

// Adds the lines of the endings of the items' calls.
fn write_endings(
    alloc: Global,
    first: u64,
    items: &[(DocId, Op)],
    heard: &[Heard],
    text: &mut Vec<u8>,
) -> Result<(), NoMemory>
    requires numbered { first + length items.now ≤ 2 ^ 64 }
    requires counted { length heard.now ≡ length items.now }
    ensures { OnOk result (text.new.items ≡ text.old.items
        ++ written_values (ending_values first items.now heard.now)) }
{
    for i in 0..items.len() {
        write_ending(alloc, first + i as u64, &items[i].0, &heard[i], text)?;
    }
    Ok(())
}

// The lines of the items' calls, followed by those of their endings.
fn written_bulk(
    alloc: Global,
    first: u64,
    items: &[(DocId, Op)],
    heard: &[Heard],
) -> Result<Vec<u8>, NoMemory>
    requires numbered { first + length items.now ≤ 2 ^ 64 }
    requires counted { length heard.now ≡ length items.now }
    ensures { IfOk result (λ text. text.items ≡ written_values (call_values first items.now
        ++ ending_values first items.now heard.now)) }
{
    let mut text = Vec::new(alloc);
    write_calls(alloc, first, items, &mut text)?;
    write_endings(alloc, first, items, heard, &mut text)?;
    Ok(text)
}

/// Returns the history text of a bulk request and its reply: the call lines of all items, numbered from
/// `first` on shard 0, followed by a reply or a lost line for each.
///
/// Errors, in this order: the faults of the body (`read_bulk`), those of the reply (`read_bulk_reply`),
/// `Kind` for the first item whose reply is a stranger's, and `Count` for a call number above 2^64-1.
/// `NoMemory` may come before any of them.
pub fn bulk_text(
    alloc: Global,
    first: u64,
    body: &[u8],
    status: u16,
    reply: &[u8],
) -> Result<Vec<u8>, BulkFault>
    // The lines are those that the definition gives.
    ensures ok { IfOk result (λ text. bulk_history first body.now status reply.now ≡ Ok text.items) }
    // An error other than `NoMemory` is the first fault by the definition.
    ensures fault { IfErr result (λ fault. UnlessMemory fault
        (bulk_history first body.now status reply.now ≡ Err fault)) }
{
    let items = read_bulk(alloc, body)?;
    let heard = read_bulk_reply(alloc, &items, status, reply)?;
    if let Some(item) = first_stranger(&heard) {
        return Err(BulkFault::Kind(item));
    }
    if !are_numbered(first, items.len()) {
        return Err(BulkFault::Count);
    }
    match written_bulk(alloc, first, &items, &heard) {
        Ok(text) => Ok(text),
        Err(_) => Err(BulkFault::NoMemory),
    }
}
