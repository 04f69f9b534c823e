use crate::calls::{end_of, version_shown};
use doc_register::{Op, Reply};
use events::{History, Rec};
use std::alloc::Global;
use version_pair::NoMemory;

// What a call is able to show of what can go wrong.
#[derive(Clone, Copy, PartialEq, Eq)]
enum CallKind {
    // A get that was answered.
    Get,
    // A write under a condition, or a create, that was performed.
    Performed,
    // One that was answered with a conflict.
    Conflict,
    // A write without a reply.
    Unanswered,
    // Any other call: it shows nothing.
    Other,
}

// Returns the kind of the call.
fn kind_of(record: &Rec) -> CallKind {
    let op = record.op;
    let Some(heard) = record.heard else {
        return if op == Op::Get {
            CallKind::Other
        } else {
            CallKind::Unanswered
        };
    };
    if op == Op::Get {
        CallKind::Get
    } else if !matches!(op, Op::Create { .. }) && op.condition().is_none() {
        CallKind::Other
    } else if heard.1 == Reply::Conflict {
        CallKind::Conflict
    } else {
        CallKind::Performed
    }
}

// Returns how many of a document's calls were open at the same time as an answered one.
fn overlapping_of(records: &[Rec]) -> usize {
    let mut count = 0usize;
    let mut open_until = 0usize;
    for (i, record) in records.iter().enumerate() {
        // A call that was never answered counts as ended at once: it may take effect at any time, so all
        // later calls would overlap it.
        let end = end_of(record);
        let is_before_next = i + 1 < records.len() && records[i + 1].call_at < end;
        if record.call_at < open_until || is_before_next {
            // A history has too few calls for the sum to reach the greatest number.
            count = count.saturating_add(1);
        }
        open_until = open_until.max(end);
    }
    count
}

/// The least and the greatest primary term that replies show.
#[derive(Clone, Copy)]
pub struct Terms {
    pub least: u64,
    pub greatest: u64,
}

// Returns the terms with one more.
fn with_term(terms: Option<Terms>, term: u64) -> Terms {
    match terms {
        Some(terms) => Terms {
            least: terms.least.min(term),
            greatest: terms.greatest.max(term),
        },
        None => Terms {
            least: term,
            greatest: term,
        },
    }
}

/// What the calls of a text are able to show of what can go wrong.
#[derive(Drop)]
pub struct Coverage {
    /// How many calls were open at the same time as an answered call of their document.
    pub overlapping: usize,
    /// How many gets were answered.
    pub gets: usize,
    /// How many writes under a condition, creates included, were performed.
    pub performed: usize,
    /// How many of them were answered with a conflict.
    pub conflicts: usize,
    /// How many writes have no reply.
    pub unanswered: usize,
    /// The primary terms that replies show, if one does.
    pub terms: Option<Terms>,
    /// The number of calls of each document.
    pub calls: Vec<usize>,
}

impl Coverage {
    // Adds a call. A history has too few calls for a sum to reach the greatest number.
    fn add(&mut self, record: &Rec) {
        match kind_of(record) {
            CallKind::Get => self.gets = self.gets.saturating_add(1),
            CallKind::Performed => self.performed = self.performed.saturating_add(1),
            CallKind::Conflict => self.conflicts = self.conflicts.saturating_add(1),
            CallKind::Unanswered => self.unanswered = self.unanswered.saturating_add(1),
            CallKind::Other => (),
        }
        if let Some(pair) = version_shown(record) {
            self.terms = Some(with_term(self.terms, pair.term()));
        }
    }

    /// Returns what the calls of the text are able to show.
    pub fn of(alloc: Global, text: &History) -> Result<Coverage, NoMemory> {
        let mut coverage = Coverage {
            overlapping: 0,
            gets: 0,
            performed: 0,
            conflicts: 0,
            unanswered: 0,
            terms: None,
            calls: Vec::new(alloc),
        };
        for doc in 0..text.docs() {
            let records = text.records(doc)?;
            let overlapping = overlapping_of(&records);
            coverage.overlapping = coverage.overlapping.saturating_add(overlapping);
            for record in records.iter() {
                coverage.add(record);
            }
            coverage.calls.push(records.len())?;
        }
        Ok(coverage)
    }
}
