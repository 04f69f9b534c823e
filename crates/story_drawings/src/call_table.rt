use crate::named::Named;
use story_blocks::Word::{Asked, Count, Id, Number, Shown};
use story_blocks::{CallReported, CallRow, CallTable, Draft, EventLines, NoteReported};
use story_reasons::{Call, Subject};
use version_pair::NoMemory;

// The greatest number of calls that are named as open at the same time, and of notes before a call.
const MOST_OPEN: usize = 8;

const MOST_NOTES: usize = 3;

/// What tables of calls are made from.
#[derive(Clone, Copy)]
pub struct Listing<'a, 'h> {
    /// The calls that are shown in one of the tables.
    pub reported: &'a [Call<'h>],
    /// Their documents.
    pub subjects: &'a [Subject<'h>],
    pub named: &'a Named,
}

// Returns how many other calls of the documents were open at the same time as the call.
fn open_count(lines: &EventLines, call: &Call<'_>, subjects: &[Subject<'_>]) -> usize {
    let mut count = 0usize;
    for subject in subjects {
        for record in subject.all() {
            if record.no != call.record.no && lines.overlap(&call.record, record) {
                // A history has too few calls for the sum to reach the greatest number.
                count = count.saturating_add(1);
            }
        }
    }
    count
}

// Returns the first few of the calls that were open at the same time as the call, and how many more there are of this
// count, in words.
fn open_words(draft: &mut Draft<'_>, call: &Call<'_>, calls: &[Call<'_>], count: usize) -> String {
    let lines = draft.lines;
    let mut named = 0usize;
    for other in calls {
        let is_open = lines.overlap(&call.record, &other.record);
        if named < MOST_OPEN && other.record.no != call.record.no && is_open {
            let template = if named == 0 { "{}" } else { ", {}" };
            draft.say(&[template], &[Number(other.record.no)]);
            named += 1;
        }
    }
    if count > named {
        let template = if named == 0 { "{}" } else { " and {} more" };
        draft.say(&[template], &[Count(count - named)]);
    }
    draft.said()
}

/// Returns the name of who made the call; an empty text if its line names nobody.
pub fn client_of<'l>(draft: &Draft<'l>, call: &Call<'_>) -> &'l str {
    draft.lines.client(&call.record).unwrap_or("")
}

/// Returns whether a line of one of the calls says who asked.
pub fn have_clients(draft: &Draft<'_>, calls: &[Call<'_>]) -> bool {
    for call in calls {
        if draft.lines.client(&call.record).is_some() {
            return true;
        }
    }
    false
}

// The rows of a table that is being made.
#[derive(Drop)]
struct Rows {
    list: Vec<CallRow>,
    // The position up to which notes were added.
    noted: usize,
}

impl Rows {
    // Adds the notes up to a position: the first few, and how many more there are.
    fn add_notes(&mut self, draft: &mut Draft<'_>, end: usize) -> Result<(), NoMemory> {
        let lines = draft.lines;
        let notes = lines.notes(self.noted, end);
        self.noted = self.noted.max(end);
        let count = notes.len();
        for (i, note) in notes.iter().enumerate() {
            let is_last = i + 1 == count;
            if i < MOST_NOTES || is_last {
                let text = if i < MOST_NOTES {
                    draft.text("{}", &[Shown(note.text.as_str())])
                } else {
                    let more = count.saturating_sub(MOST_NOTES);
                    draft.text("notes left out up to here: {}", &[Count(more)])
                };
                let line = lines.line(note.place);
                self.list.push(CallRow::Note(NoteReported { line, text }))?;
            }
        }
        Ok(())
    }
}

impl<'h> Listing<'_, 'h> {
    // Returns a call in words.
    fn call_reported(&self, draft: &mut Draft<'_>, call: &Call<'h>) -> CallReported {
        let record = &call.record;
        let count = open_count(draft.lines, call, self.subjects);
        let asked = if self.subjects.len() > 1 {
            "{0} {1}"
        } else {
            "{1}"
        };
        let client = client_of(draft, call);
        CallReported {
            mark: self.named.mark(record.no),
            line: draft.lines.line(record.call_at),
            no: record.no,
            client: draft.text("{}", &[Shown(client)]),
            asked: draft.text(asked, &[Id(call.id), Asked(record.op)]),
            replied: match draft.lines.over_at(record) {
                Some(place) => Some(draft.lines.line(place)),
                None => None,
            },
            answered: draft.text("{0.heard}", &[draft.call(record)]),
            open_with: open_words(draft, call, self.reported, count),
        }
    }

    /// Returns the table of the calls, which are in the order of their events, with the notes on the lines from the
    /// first of them to the last reply.
    pub fn table(&self, draft: &mut Draft<'_>, calls: &[Call<'h>]) -> Result<CallTable, NoMemory> {
        let mut rows = Rows {
            list: Vec::new(draft.alloc),
            noted: match calls.first() {
                Some(first) => first.record.call_at,
                None => 0,
            },
        };
        let mut last = 0usize;
        for call in calls {
            rows.add_notes(draft, call.record.call_at.saturating_add(1))?;
            let reported = self.call_reported(draft, call);
            rows.list.push(CallRow::Call(reported))?;
            last = last.max(draft.lines.end_of(&call.record));
        }
        rows.add_notes(draft, last.saturating_add(1))?;
        Ok(CallTable {
            has_clients: have_clients(draft, self.reported),
            rows: rows.list,
        })
    }
}
