use doc_register::{Conflicts, DocState, state_after};
use events::Rec;
use std::alloc::Global;
use version_pair::NoMemory;

/// The last calls of a document before an event.
///
/// They begin at a moment at which no call of the document was open and its state was known. So an order of
/// these calls, from that moment on, continues each order of the calls before.
#[derive(Drop)]
pub struct Window {
    /// The number of answered calls before it.
    pub answered_before: usize,
    /// Whether the first record is a write that brings the document to its state at that moment.
    pub is_prefixed: bool,
    pub records: Vec<Rec>,
}

// Where a window begins: at which record, and after which write.
#[derive(Clone, Copy)]
struct Start {
    at: usize,
    last: Option<Rec>,
}

// Returns the one of two writes with the greater pair; the first if the second took none.
fn with_greater_pair(last: Option<Rec>, record: Rec) -> Option<Rec> {
    let Some(pair) = record.pair_taken() else {
        return last;
    };
    let before = match &last {
        Some(last) => last.pair_taken(),
        None => None,
    };
    match before {
        Some(before) if pair.is_below(before) => last,
        _ => Some(record),
    }
}

// Returns the last start of a window that has at least that many calls, if one is found.
fn start_of(records: &[Rec], event: usize, conflicts: Conflicts, least: usize) -> Start {
    let mut start = Start { at: 0, last: None };
    let mut next = start;
    let mut open_until = 0usize;
    // If there are no more calls than that, the window begins at the first.
    let most = records.len().saturating_sub(least);
    for (i, record) in records[..most].iter().enumerate() {
        if open_until < record.call_at {
            next.at = i;
            start = next;
        }
        let known = record.known_before(event);
        if !known.is_complete(conflicts) {
            break;
        }
        if let Some(heard) = known.heard {
            open_until = open_until.max(heard.0);
        }
        next.last = with_greater_pair(next.last, known);
    }
    start
}

// Returns a write that brings a document that was never written to the state that it has after this one.
fn standing(last: Rec) -> Option<Rec> {
    let heard = last.heard?;
    let pair = last.pair_taken()?;
    let (op, reply) = state_after(DocState::Never, &last.op, pair).making()?;
    Some(Rec {
        op,
        heard: Some((heard.0, reply)),
        ..last
    })
}

/// Returns a window of the document with these records: at least that many calls before the event, or all of
/// them.
pub fn window_before(
    alloc: Global,
    records: &[Rec],
    event: usize,
    conflicts: Conflicts,
    least: usize,
) -> Result<Window, NoMemory> {
    let count = records.partition_point(|record| record.call_at < event);
    let called = &records[..count];
    let start = start_of(called, event, conflicts, least);
    let mut window = Window {
        answered_before: 0,
        is_prefixed: false,
        records: Vec::new(alloc),
    };
    if let Some(last) = start.last {
        if let Some(write) = standing(last) {
            window.is_prefixed = true;
            window.records.push(write)?;
        }
    }
    for (i, record) in called.iter().enumerate() {
        let known = record.known_before(event);
        if i >= start.at {
            window.records.push(known)?;
        } else if known.heard.is_some() {
            // A document has too few calls for the sum to reach the greatest number.
            window.answered_before = window.answered_before.saturating_add(1);
        }
    }
    Ok(window)
}
