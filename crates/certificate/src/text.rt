//! The text of a certificate.

use crate::state::state_object;
use api_lines::LineObject;
use doc_register::Conflicts;
use events::{History, Rec};
use evidence::{Attempts, Row, RuledOutDocument, Table, TableEvent, contradiction_of};
use serde_json::Value;
use std::alloc::Global;
use version_pair::NoMemory;

/// What a certificate is of: a call at which a document of a history is ruled out.
#[derive(Clone, Copy)]
pub struct CertificateSubject<'h> {
    /// The history that is judged.
    pub history: &'h History,
    /// How a conflict is read.
    pub conflicts: Conflicts,
    /// How often a lost write may have been performed.
    pub attempts: Attempts,
    /// The number of the call in the history that is judged.
    pub call: u64,
    /// Its number in the text.
    pub call_in_text: u64,
}

// Adds the object as a line.
fn write_line(alloc: Global, object: LineObject, text: &mut Vec<u8>) -> Result<(), NoMemory> {
    let line = object.into_value().to_vec(alloc)?;
    text.extend_from_slice(&line)?;
    text.push(b'\n')?;
    Ok(())
}

// The object of what stands before a table.
fn event_object(alloc: Global, event: TableEvent) -> Result<LineObject, NoMemory> {
    let object = LineObject::new(alloc);
    match event {
        TableEvent::Start(None) => object.with("from", Value::Null),
        TableEvent::Start(Some(number)) => object.number("from", number as u64),
        TableEvent::Made(number) => object.number("made", number as u64),
        TableEvent::Answered(number) => object.number("answered", number as u64),
    }
}

// Adds a line for each of the rows.
fn write_states(
    alloc: Global,
    records: &[Rec],
    rows: &[Row],
    waits: bool,
    text: &mut Vec<u8>,
) -> Result<(), NoMemory> {
    for row in rows {
        write_line(alloc, state_object(alloc, records, row, waits)?, text)?;
    }
    Ok(())
}

// Adds the lines of a table.
fn write_table(
    alloc: Global,
    records: &[Rec],
    table: &Table,
    text: &mut Vec<u8>,
) -> Result<(), NoMemory> {
    write_line(alloc, event_object(alloc, table.event)?, text)?;
    write_states(alloc, records, &table.waiting, true, text)?;
    write_states(alloc, records, &table.rows, false, text)
}

// Whether the record of this number is that of the call.
fn is_call(records: &[Rec], number: usize, call: u64) -> bool {
    match records.get(number) {
        Some(record) => record.no == call,
        None => false,
    }
}

// Returns the text of what was found.
fn text_of(
    alloc: Global,
    subject: &CertificateSubject<'_>,
    found: &RuledOutDocument,
) -> Result<Vec<u8>, NoMemory> {
    let mut text = Vec::new(alloc);
    if found.doc >= subject.history.docs() {
        return Ok(text);
    }
    let records = subject.history.records(found.doc)?;
    let number = found.contradiction.number;
    // Another walk may end at another call, if it could pass more of the pairs of other documents.
    if !is_call(&records, number, subject.call) {
        return Ok(text);
    }
    let object = LineObject::new(alloc)
        .number("call", subject.call_in_text)?
        .text("doc", subject.history.doc(found.doc).as_str())?
        .number("rec", number as u64)?;
    write_line(alloc, object, &mut text)?;
    for table in found.contradiction.tables.iter() {
        write_table(alloc, &records, table, &mut text)?;
    }
    Ok(text)
}

/// Returns the text of a certificate: a line of the document and the call, and then tables of what the document may be
/// along its last events, up to the reply to the call, after which nothing is left. The tables are a guess, of which
/// nothing is promised. It has no line if the document of the call isn't found to be ruled out at it.
pub fn certificate_text(
    alloc: Global,
    subject: &CertificateSubject<'_>,
) -> Result<Vec<u8>, NoMemory> {
    let CertificateSubject {
        history,
        conflicts,
        attempts,
        call,
        ..
    } = *subject;
    match contradiction_of(alloc, history, call, conflicts, attempts)? {
        Some(found) => text_of(alloc, subject, &found),
        None => Ok(Vec::new(alloc)),
    }
}
