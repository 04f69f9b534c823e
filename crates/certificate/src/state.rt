//! Lines of JSON that stand for rows of a table.

use api_lines::LineObject;
use events::Rec;
use evidence::Row;
use serde_json::Value;
use std::alloc::Global;
use version_pair::NoMemory;

// The number of the calls that are made before the event.
fn calls_before(records: &[Rec], event: usize) -> u64 {
    records.partition_point(|call| call.call_at < event) as u64
}

// Returns the object with a list of numbers as the value of this key, unless it is empty.
fn with_list(
    alloc: Global,
    object: LineObject,
    key: &str,
    numbers: &[usize],
) -> Result<LineObject, NoMemory> {
    if numbers.is_empty() {
        return Ok(object);
    }
    let mut values = Vec::with_capacity(alloc, numbers.len())?;
    for number in numbers {
        values.push(Value::from(*number as u64))?;
    }
    object.with(key, Value::Array(values))
}

// Returns the object with a number as the value of this key, unless it is 0.
fn with_count(object: LineObject, key: &str, count: usize) -> Result<LineObject, NoMemory> {
    if count == 0 {
        return Ok(object);
    }
    object.number(key, count as u64)
}

/// Returns the object of a row of a table of a document with these records.
pub fn state_object(
    alloc: Global,
    records: &[Rec],
    row: &Row,
    waits: bool,
) -> Result<LineObject, NoMemory> {
    let object = LineObject::new(alloc)
        .number("arrived", calls_before(records, row.arrived_at))?
        .with("exists", Value::Bool(row.exists))?
        .number("flipped", calls_before(records, row.flipped_at))?;
    let object = match row.least {
        Some(pair) => object
            .number("seq", pair.seq())?
            .number("term", pair.term())?,
        None => object,
    };
    let object = with_list(alloc, object, "owed", &row.owed)?;
    let object = with_list(alloc, object, "spent", &row.spent)?;
    let object = with_count(object, "deletes", row.deletes)?;
    let object = with_count(object, "makes", row.makes)?;
    if waits {
        object.with("waits", Value::Bool(true))
    } else {
        Ok(object)
    }
}
