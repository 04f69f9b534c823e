ghost use Rattle.std.specs.Prelude.{◌≡◌, ◌<◌, ◌^◌, ◌≤◌, ◌++◌, IfOk, OnOk, false, length};
ghost use Rattle.serde_json.specs.Data.{depth};
ghost use Rattle.serde_json.specs.Read.{max_depth};
ghost use Rattle.serde_json.specs.View.{view};
ghost use Rattle.serde_json.specs.Written.{has_float};
ghost use Rattle.api_lines.specs.Objects.{members_of};
ghost use Rattle.events.specs.declared.event.Event.TheVariants.{Call, Reply as Answered};
ghost use Rattle.history.specs.Written.{call_value as value_of_call, lost_value as value_of_loss, op_name, reply_value as value_of_reply};
ghost use Rattle.history.specs.aids.Writing.{IsInRange, IsLineAdded, OpFits, with_condition, with_shard, with_value};

use api_lines::{LineObject, write_reply};
use doc_register::{Op, Reply};
use serde_json::Value;
use std::alloc::Global;
use version_pair::{DocId, NoMemory, Pair};

// Returns the name of an operation. A number is copied so that its range is known from here on.
fn op_name(op: &Op) -> &'static str
    ensures name { result.now ≡ op_name op.now }
    ensures fits { OpFits op.now }
{
    match *op {
        Op::Get => "get",
        Op::Index { k: _number, .. } => "index",
        Op::Delete { .. } => "delete",
        Op::Create { k: _number } => "create",
    }
}

// Returns the line with the two numbers of a condition, if there is one.
fn with_condition(line: LineObject, condition: Option<Pair>) -> Result<LineObject, NoMemory>
    ensures { IfOk result (λ made. members_of made ≡ with_condition condition (members_of line)) }
{
    match condition {
        None => Ok(line),
        Some(pair) => line
            .number("if_primary_term", pair.term())?
            .number("if_seq_no", pair.seq()),
    }
}

// Returns the line with the number that is written, if there is one.
fn with_value(line: LineObject, value: Option<u64>) -> Result<LineObject, NoMemory>
    ensures { IfOk result (λ made. members_of made ≡ with_value value (members_of line)) }
{
    match value {
        None => Ok(line),
        Some(k) => line.number("k", k),
    }
}

// Returns the line with the shard, which isn't named if it is 0.
fn with_shard(line: LineObject, shard: u32) -> Result<LineObject, NoMemory>
    ensures { IfOk result (λ made. members_of made ≡ with_shard shard (members_of line)) }
{
    if shard == 0 {
        Ok(line)
    } else {
        line.number("shard", shard as u64)
    }
}

/// Returns the line of a call, as a value.
pub fn call_value(
    alloc: Global,
    no: u64,
    shard: u32,
    id: &DocId,
    op: &Op,
) -> Result<Value, NoMemory>
    ensures value { IfOk result (λ value. view value ≡ value_of_call no shard id.now op.now) }
    ensures in_range { IsInRange (Call shard no id.now op.now) }
{
    let id = id.as_str();
    let name = op_name(op);
    let begun = LineObject::new(alloc).text("e", "call")?.text("id", id)?;
    let conditioned = with_condition(begun, op.condition())?;
    let valued = with_value(conditioned, op.value())?;
    let named = valued.number("n", no)?.text("op", name)?;
    let line = with_shard(named, shard)?;
    Ok(line.into_value())
}

/// Returns the line of a reply about the document, as a value.
pub fn reply_value(alloc: Global, no: u64, id: &DocId, reply: Reply) -> Result<Value, NoMemory>
    ensures value { IfOk result (λ value. view value ≡ value_of_reply no id.now reply) }
    ensures in_range { IsInRange (Answered no reply) }
{
    let (status, body) = write_reply(alloc, id, &reply)?;
    let line = LineObject::new(alloc)
        .with("body", body)?
        .text("e", "reply")?
        .number("n", no)?
        .number("status", status as u64)?;
    Ok(line.into_value())
}

/// Returns the line of a lost call, as a value.
pub fn lost_value(alloc: Global, no: u64) -> Result<Value, NoMemory>
    ensures { IfOk result (λ value. view value ≡ value_of_loss no) }
{
    let line = LineObject::new(alloc).text("e", "lost")?.number("n", no)?;
    Ok(line.into_value())
}

/// Adds a value to a text as a line.
pub fn write_value(alloc: Global, value: &Value, text: &mut Vec<u8>) -> Result<(), NoMemory>
    requires plain { has_float (view value.now) ≡ false }
    requires shallow { depth (view value.now) ≤ max_depth }
    ensures { OnOk result (IsLineAdded text.old.items text.new.items (view value.now)) }
{
    let line = value.to_vec(alloc)?;
    text.extend_from_slice(&line)?;
    text.push(b'\n')?;
    Ok(())
}
