//! The last part of a document's events that nothing fits which the document may be, whatever happened before that part.

use crate::attempts::Attempts;
use crate::budget::Budget;
use crate::document::Document;
use crate::elsewhere::Elsewhere;
use crate::row::Row;
use crate::walk::{Walk, leaves_rows};
use doc_register::Conflicts;
use events::Rec;
use std::alloc::Global;
use version_pair::NoMemory;
use write_chain::{AnsweredRec, answers_of};

/// What stands before a table.
#[derive(Clone, Copy, Debug, PartialEq, Eq)]
pub enum TableEvent {
    /// The reply to the call of this number, before which nothing is looked at; `None` if all is looked at.
    Start(Option<usize>),
    /// The call of this number is made.
    Made(usize),
    /// The call of this number is answered.
    Answered(usize),
}

/// A table of what a document may be after an event.
#[derive(Drop)]
pub struct Table {
    pub event: TableEvent,
    /// The rows that wait at a reply, and make further steps.
    pub waiting: Vec<Row>,
    /// What the document may be after the event.
    pub rows: Vec<Row>,
}

/// Tables along the last events of a document up to the reply after which nothing is left that it may be.
#[derive(Drop)]
pub struct Contradiction {
    /// The number of the call that is answered then.
    pub number: usize,
    /// The tables, in the order of events.
    pub tables: Vec<Table>,
}

// If more replies than this are needed, it isn't tried whether a few less are enough.
const LONG: usize = 10_000;

// A document, and its answered calls in response order.
#[derive(Clone, Copy)]
struct Path<'a> {
    document: &'a Document<'a>,
    answers: &'a [AnsweredRec],
}

// Returns copies of the rows.
fn copies(alloc: Global, rows: &[Row]) -> Result<Vec<Row>, NoMemory> {
    let mut copies = Vec::with_capacity(alloc, rows.len())?;
    for row in rows {
        copies.push(row.copied(alloc)?)?;
    }
    Ok(copies)
}

// The calls made so far, and the tables if they are kept.
#[derive(Drop)]
struct Trail {
    walk: Walk,
    // The number of calls that are made.
    made: usize,
    tables: Option<Vec<Table>>,
}

impl Trail {
    // Keeps the table after an event, if tables are kept.
    fn keep(&mut self, event: TableEvent) -> Result<(), NoMemory> {
        let alloc = *self.walk.front.allocator();
        if let Some(tables) = &mut self.tables {
            let waiting = match event {
                TableEvent::Answered(_) => copies(alloc, &self.walk.waited)?,
                TableEvent::Start(_) | TableEvent::Made(_) => Vec::new(alloc),
            };
            tables.push(Table {
                event,
                waiting,
                rows: copies(alloc, &self.walk.front)?,
            })?;
        }
        Ok(())
    }

    // Makes the calls before the event.
    fn make_until(&mut self, document: &Document<'_>, event: usize) -> Result<(), NoMemory> {
        for number in self.made..document.records.len() {
            let call = document.records[number];
            if call.call_at >= event {
                break;
            }
            self.walk.make(document, number, call)?;
            self.made = number + 1;
            if !leaves_rows(call) {
                self.keep(TableEvent::Made(number))?;
            }
        }
        Ok(())
    }

    // Goes on to the reply. Returns whether it could.
    fn go_to(&mut self, document: &Document<'_>, answer: AnsweredRec) -> Result<bool, NoMemory> {
        self.make_until(document, answer.reply_at)?;
        let Some(call) = document.records.get(answer.rec).copied() else {
            return Ok(false);
        };
        if !self
            .walk
            .answer(document, answer.reply_at, answer.rec, call)?
        {
            return Ok(false);
        }
        self.keep(TableEvent::Answered(answer.rec))?;
        Ok(true)
    }

    // Goes on to the replies from this index on, until no row is left, at the latest after that of the other index.
    // Returns whether none is left.
    fn go_on(&mut self, path: Path<'_>, from: usize, stop: usize) -> Result<bool, NoMemory> {
        for index in from..path.answers.len() {
            if index > stop || !self.go_to(path.document, path.answers[index])? {
                return Ok(false);
            }
            if self.walk.front.is_empty() {
                return Ok(true);
            }
        }
        Ok(false)
    }
}

impl Path<'_> {
    // The trail from right after so many replies, which may make steps of so many rows; `None` if the document may be
    // too much there.
    fn trail(
        &self,
        alloc: Global,
        replies: usize,
        limit: usize,
        tables: Option<Vec<Table>>,
    ) -> Result<Option<Trail>, NoMemory> {
        let last = match replies.checked_sub(1) {
            Some(before) => self.answers.get(before).copied(),
            None => None,
        };
        let Some(last) = last else {
            let walk = Walk::start(alloc, limit)?;
            let mut trail = Trail {
                walk,
                made: 0,
                tables,
            };
            trail.keep(TableEvent::Start(None))?;
            return Ok(Some(trail));
        };
        let event = last.reply_at.saturating_add(1);
        let Some(rows) = self.document.rows_before(alloc, event)? else {
            return Ok(None);
        };
        let made = self
            .document
            .records
            .partition_point(|call| call.call_at < event);
        let walk = Walk::resumed(alloc, self.document, event, rows, limit)?;
        let mut trail = Trail { walk, made, tables };
        trail.keep(TableEvent::Start(Some(last.rec)))?;
        Ok(Some(trail))
    }

    // The tables of a walk from right after so many replies up to one after which no row is left, at the latest that of
    // this index. `None` if the walk, which may make steps of so many rows, doesn't end so.
    fn tables(
        &self,
        alloc: Global,
        replies: usize,
        stop: usize,
        limit: usize,
    ) -> Result<Option<Vec<Table>>, NoMemory> {
        let tables = Some(Vec::new(alloc));
        let Some(mut trail) = self.trail(alloc, replies, limit, tables)? else {
            return Ok(None);
        };
        if trail.go_on(*self, replies, stop)? {
            Ok(trail.tables)
        } else {
            Ok(None)
        }
    }
}

// The search for the last replies that are enough.
#[derive(Drop)]
struct Search<'a> {
    path: Path<'a>,
    // The index of the reply after which nothing is left.
    stop: usize,
    // The number of rows of which all its walks together may yet make steps.
    left: usize,
}

impl Search<'_> {
    // Whether no row is left after the last reply in a walk from right after so many replies.
    fn ends(&mut self, alloc: Global, replies: usize) -> Result<bool, NoMemory> {
        let Some(mut trail) = self.path.trail(alloc, replies, self.left, None)? else {
            return Ok(false);
        };
        let ends = trail.go_on(self.path, replies, self.stop)?;
        self.left = trail.walk.left;
        Ok(ends)
    }

    // The greatest number of replies, by halving, that may be left out: with so many it ends, with too many it doesn't.
    fn halved(&mut self, alloc: Global, enough: usize, many: usize) -> Result<usize, NoMemory> {
        let mut good = enough;
        let mut bad = many;
        for _ in 0..usize::BITS {
            if bad.saturating_sub(good) <= 1 {
                break;
            }
            let middle = good + (bad - good) / 2;
            if self.ends(alloc, middle)? {
                good = middle;
            } else {
                bad = middle;
            }
        }
        Ok(good)
    }

    // The greatest number of replies that may be left out, as far as it is found: each time twice as many replies up to
    // the last one are looked at, until no row is left.
    fn left_out(&mut self, alloc: Global) -> Result<usize, NoMemory> {
        let end = self.stop.saturating_add(1);
        let mut many = end;
        let mut back = 1usize;
        for _ in 0..usize::BITS {
            let replies = end.saturating_sub(back);
            if replies == 0 || self.ends(alloc, replies)? {
                return if back > LONG {
                    Ok(replies)
                } else {
                    self.halved(alloc, replies, many)
                };
            }
            many = replies;
            back = back.saturating_mul(2);
        }
        Ok(0)
    }
}

// The index of the reply to the call of this number of the history.
fn index_of_reply(records: &[Rec], answers: &[AnsweredRec], no: u64) -> Option<usize> {
    for index in 0..answers.len() {
        let call = records.get(answers[index].rec)?;
        if call.no == no {
            return Some(index);
        }
    }
    None
}

/// Returns tables along the last events of a document, up to the reply to the call of this number of the history, after
/// which nothing is left that the document may be. They begin as late as is found: with all that it may be at their
/// beginning, whatever happened before. `None` if the document isn't found to be ruled out at this call.
///
/// A guess, of which nothing is promised; tables can be checked without a search. The search for their beginning takes as
/// many steps as the budget has for one walk, at most.
pub fn contradiction_at(
    alloc: Global,
    records: &[Rec],
    conflicts: Conflicts,
    elsewhere: &Elsewhere,
    attempts: Attempts,
    no: u64,
    budget: &mut Budget,
) -> Result<Option<Contradiction>, NoMemory> {
    let answers = answers_of(alloc, records)?;
    let document = Document::of(alloc, records, conflicts, elsewhere, attempts)?;
    let path = Path {
        document: &document,
        answers: &answers,
    };
    let Some(stop) = index_of_reply(records, &answers, no) else {
        return Ok(None);
    };
    let Some(last) = answers.get(stop).copied() else {
        return Ok(None);
    };
    let mut search = Search {
        path,
        stop,
        left: budget.limit(records.len()),
    };
    let replies = search.left_out(alloc)?;
    budget.keep(search.left);
    // The walk was made before, so it takes no more steps than the budget allowed.
    let limit = Budget::new().limit(records.len());
    let number = last.rec;
    let tables = path.tables(alloc, replies, stop, limit)?;
    Ok(tables.map(|tables| Contradiction { number, tables }))
}
