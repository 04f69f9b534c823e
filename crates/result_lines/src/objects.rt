//! Objects of JSON that are written in place of lines.

ghost use Rattle.std.specs.Prelude.{◌≡◌, IfOk, codes, option_map, string_bytes};
ghost use Rattle.serde_json.specs.View.{view};
ghost use Rattle.api_lines.specs.Objects.{members_of};
ghost use Rattle.result_lines.specs.Objects.{broken_reply_members, facts_members, lines_of, milliseconds_member, object_text, proved_member, reading_member, reading_of, text_member};

use crate::facts::{BrokenReply, Facts, NamedReading};
use crate::members::with_reported;
use crate::reported::Reported;
use api_lines::LineObject;
use serde_json::Value;
use std::alloc::Global;
use version_pair::NoMemory;

// Returns the lines of a call and its reply as an object.
fn lines_value(alloc: Global, reply: &BrokenReply) -> Result<Value, NoMemory>
    ensures { IfOk result (λ value. view value ≡ lines_of reply.now.call_line reply.now.reply_line) }
{
    let object = LineObject::new(alloc)
        .number("call", reply.call_line)?
        .number("reply", reply.reply_line)?;
    Ok(object.into_value())
}

// Returns the object with a text as the value of this key, if there is one.
fn with_text(object: LineObject, key: &str, text: Option<&str>) -> Result<LineObject, NoMemory>
    ensures { IfOk result (λ made. members_of made ≡ text_member key.now (option_map (λ t. t.now) text.entry) (members_of object)) }
{
    match text {
        Some(text) => object.text(key, text),
        None => Ok(object),
    }
}

// Returns the object with a time, if there is one.
fn with_time(object: LineObject, time: &Option<String>) -> Result<LineObject, NoMemory>
    ensures { IfOk result (λ made. members_of made ≡ text_member (codes "time") (option_map string_bytes time.now) (members_of object)) }
{
    match time {
        Some(time) => object.text("time", time.as_str()),
        None => Ok(object),
    }
}

// Returns the object with the place of the reply at which the search first fails, if there is one.
fn with_broken_reply(
    alloc: Global,
    object: LineObject,
    reply: &Option<BrokenReply>,
) -> Result<LineObject, NoMemory>
    ensures { IfOk result (λ made. members_of made ≡ broken_reply_members reply.now (members_of object)) }
{
    match reply {
        Some(reply) => {
            let object = object
                .text("document", reply.document.as_str())?
                .with("lines", lines_value(alloc, reply)?)?
                .number("shard", reply.shard as u64)?;
            with_time(object, &reply.time)
        }
        None => Ok(object),
    }
}

// Returns the object with whether the answer is proved, if that is asked of it.
fn with_proved(object: LineObject, proved: Option<bool>) -> Result<LineObject, NoMemory>
    ensures { IfOk result (λ made. members_of made ≡ proved_member proved (members_of object)) }
{
    match proved {
        Some(proved) => object.with("proved", Value::Bool(proved)),
        None => Ok(object),
    }
}

// Returns the reading as an object.
fn reading_value(alloc: Global, reading: NamedReading) -> Result<Value, NoMemory>
    ensures { IfOk result (λ value. view value ≡ reading_of reading) }
{
    let object = LineObject::new(alloc)
        .text("conflicts", reading.conflicts)?
        .text("failed", reading.failed)?
        .text("gets", reading.gets)?
        .text("writes", reading.writes)?;
    Ok(object.into_value())
}

// Returns the object with the reading, if one is named.
fn with_reading(
    alloc: Global,
    object: LineObject,
    reading: Option<NamedReading>,
) -> Result<LineObject, NoMemory>
    ensures { IfOk result (λ made. members_of made ≡ reading_member reading (members_of object)) }
{
    match reading {
        Some(reading) => object.with("reading", reading_value(alloc, reading)?),
        None => Ok(object),
    }
}

// Returns the object with how long the answer took, if that is known.
fn with_milliseconds(object: LineObject, milliseconds: Option<u64>) -> Result<LineObject, NoMemory>
    ensures { IfOk result (λ made. members_of made ≡ milliseconds_member milliseconds (members_of object)) }
{
    match milliseconds {
        Some(milliseconds) => object.number("milliseconds", milliseconds),
        None => Ok(object),
    }
}

// Returns the object with the facts.
fn with_facts(alloc: Global, object: LineObject, facts: &Facts<'_>) -> Result<LineObject, NoMemory>
    ensures { IfOk result (λ made. members_of made ≡ facts_members facts.now (members_of object)) }
{
    let object = object.text("file", facts.file)?;
    let object = with_milliseconds(object, facts.milliseconds)?;
    let object = with_text(object, "witness", facts.witness)?;
    let object = with_text(object, "explanation", facts.explanation)?;
    let object = with_proved(object, facts.proved)?;
    let object = with_reading(alloc, object, facts.reading)?;
    with_broken_reply(alloc, object, &facts.broken_reply)
}

/// Returns the object that is written in place of a line that reports this, with these facts beside, as a line
/// of compact JSON with its keys in byte order. A fault of a witness that is `NoMemory` has none.
pub fn object_line(
    alloc: Global,
    reported: &Reported,
    facts: &Facts<'_>,
) -> Result<Vec<u8>, NoMemory>
    // It is the text of the object that the definition gives, and a line feed: its members are those of the
    // line, and the facts.
    ensures { IfOk result (λ text. text.items ≡ object_text reported.now facts.now) }
{
    let object = with_reported(alloc, LineObject::new(alloc), reported)?;
    let object = with_facts(alloc, object, facts)?.into_value();
    let mut text = object.to_vec(alloc)?;
    text.push(b'\n')?;
    Ok(text)
}
