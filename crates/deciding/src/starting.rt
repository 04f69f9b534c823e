//! What a document may be at an event, whatever happened before it.

use crate::document::Document;
use crate::row::Row;
use crate::served::is_hidden;
use doc_register::Op;
use events::Rec;
use std::alloc::Global;
use version_pair::{NoMemory, Pair};

// At most so many rows are made.
const MOST_ROWS: usize = 256;

// The first events at which calls are made that may have changed the document and whose replies show no pair.
#[derive(Clone, Copy)]
struct FirstSilent {
    // An index or a create.
    make: Option<usize>,
    delete: Option<usize>,
}

// The pair that the reply shows as that of the document, if it came before the event.
fn pair_shown_before(call: Rec, event: usize) -> Option<Pair> {
    match call.heard {
        Some(heard) if heard.0 < event => heard.1.pair(),
        _ => None,
    }
}

// The greatest pair that a reply before the event shows as that of the document.
fn greatest_shown(records: &[Rec], event: usize) -> Option<Pair> {
    let mut greatest = None;
    for call in records {
        greatest = greatest.max(pair_shown_before(*call, event));
    }
    greatest
}

// Whether an event is given that is before another one.
fn is_before(given: Option<usize>, event: usize) -> bool {
    match given {
        Some(at) => at < event,
        None => false,
    }
}

// The row of a document with this pair at the event, of which nothing else is known.
fn row_at(
    document: &Document<'_>,
    alloc: Global,
    least: Option<Pair>,
    exists: bool,
    event: usize,
) -> Row {
    Row {
        least,
        position: document.versions.known.position(least),
        exists,
        flipped_at: event,
        arrived_at: event,
        owed: Vec::new(alloc),
        spent: Vec::new(alloc),
        deletes: 0,
        makes: 0,
    }
}

impl Document<'_> {
    // Whether the reply to the call doesn't say that it took a pair, and the call may have taken one.
    fn is_silent_write(&self, call: Rec) -> bool {
        match call.heard {
            None => true,
            Some(_) => is_hidden(self.conflicts, call.heard),
        }
    }

    // The first calls that may have changed the document and whose replies show no pair.
    fn first_silent(&self) -> FirstSilent {
        let mut first = FirstSilent {
            make: None,
            delete: None,
        };
        for call in self.records {
            if self.is_silent_write(*call) {
                match call.op {
                    Op::Get => {}
                    Op::Index { .. } | Op::Create { .. } => {
                        first.make = first.make.or(Some(call.call_at));
                    }
                    Op::Delete { .. } => first.delete = first.delete.or(Some(call.call_at)),
                }
            }
        }
        first
    }

    // Whether a call that was made before the event may have taken the pair, which is known.
    fn may_be_taken(&self, pair: Pair, first: FirstSilent, event: usize) -> bool {
        if !self.versions.is_reported(pair) {
            return is_before(first.make, event);
        }
        let version = self.versions.known.version_of(pair) as u64;
        for entry in self.writes.shown.group(version) {
            if let Some(call) = self.records.get(entry.number)
                && call.call_at < event
            {
                return true;
            }
        }
        false
    }

    // Whether a reply that shows the pair, which is known, is that of a call that leaves the document so.
    fn is_left(&self, pair: Pair, exists: bool) -> bool {
        let version = self.versions.known.version_of(pair) as u64;
        for entry in self.writes.shown.group(version) {
            if let Some(call) = self.records.get(entry.number)
                && call.op.value().is_some() == exists
            {
                return true;
            }
        }
        false
    }

    // Adds the rows of the document with this known pair. Replies may contradict each other about whether it exists then;
    // if none says it, it does.
    fn push_known(&self, rows: &mut Vec<Row>, pair: Pair, event: usize) -> Result<(), NoMemory> {
        let alloc = *rows.allocator();
        let is_deleted = self.is_left(pair, false);
        if is_deleted {
            rows.push(row_at(self, alloc, Some(pair), false, event))?;
        }
        if !is_deleted || self.is_left(pair, true) {
            rows.push(row_at(self, alloc, Some(pair), true, event))?;
        }
        Ok(())
    }

    // Adds the rows of the document with this known pair, or never changed, and of what calls whose replies show no pair
    // may have made of it.
    fn push_rows(
        &self,
        rows: &mut Vec<Row>,
        known: Option<Pair>,
        first: FirstSilent,
        event: usize,
    ) -> Result<(), NoMemory> {
        let alloc = *rows.allocator();
        match known {
            Some(pair) => self.push_known(rows, pair, event)?,
            None => rows.push(row_at(self, alloc, None, false, event))?,
        }
        let Some(free) = self.free_above(known) else {
            return Ok(());
        };
        if is_before(first.make, event) {
            rows.push(row_at(self, alloc, Some(free), true, event))?;
        }
        if is_before(first.delete, event) {
            rows.push(row_at(self, alloc, Some(free), false, event))?;
        }
        Ok(())
    }

    /// Returns the rows that the document may be right before the event, whatever happened before: from the greatest pair
    /// that a reply shows up to the last one that a call may have taken by then. `None` if these are too many.
    pub fn rows_before(&self, alloc: Global, event: usize) -> Result<Option<Vec<Row>>, NoMemory> {
        let first = self.first_silent();
        let mut rows = Vec::new(alloc);
        let mut known = greatest_shown(self.records, event);
        for _ in 0..MOST_ROWS {
            self.push_rows(&mut rows, known, first, event)?;
            match self.versions.known.next_known(known) {
                Some(next) if self.may_be_taken(next, first, event) => known = Some(next),
                _ => return Ok(Some(rows)),
            }
        }
        Ok(None)
    }
}
