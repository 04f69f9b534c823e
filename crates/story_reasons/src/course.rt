use crate::calls::version_shown;
use events::Rec;
use evidence::{Contradiction, Row, Table, TableEvent};
use std::alloc::Global;
use version_pair::{NoMemory, Pair};
use write_chain::answers_of;

/// A call whose reply shows that the document had come further than by all replies before.
#[derive(Clone, Copy)]
pub struct Raise {
    pub call: Rec,
    /// The position of the reply.
    pub reply_at: usize,
    /// The least pair that the document has from there on.
    pub reached: Option<Pair>,
}

/// How far a document had come, by the replies to its calls.
#[derive(Drop)]
pub struct Course {
    // In response order.
    raises: Vec<Raise>,
}

// The least pair of the rows; `None` if there is no row.
fn least_of(rows: &[Row]) -> Option<Option<Pair>> {
    let mut least: Option<Option<Pair>> = None;
    for row in rows {
        least = Some(match least {
            Some(pair) => pair.min(row.least),
            None => row.least,
        });
    }
    least
}

/// Returns the greatest pair of the rows; `None` if there is no row.
pub fn greatest_of(rows: &[Row]) -> Option<Option<Pair>> {
    let mut greatest: Option<Option<Pair>> = None;
    for row in rows {
        greatest = greatest.max(Some(row.least));
    }
    greatest
}

// The reply before which the tables say nothing of the document; `None` if they begin before all events.
fn start_of(contradiction: &Contradiction, records: &[Rec]) -> Option<usize> {
    let first = contradiction.tables.first()?;
    match first.event {
        TableEvent::Start(Some(number)) => {
            let call = records.get(number)?;
            let heard = call.heard?;
            Some(heard.0)
        }
        TableEvent::Start(None) | TableEvent::Made(_) | TableEvent::Answered(_) => None,
    }
}

impl Course {
    // Adds the call if its reply shows that the document had come further.
    fn push(&mut self, call: Rec, reached: Option<Pair>) -> Result<(), NoMemory> {
        if let Some(heard) = call.heard {
            if self.reached() < reached {
                self.raises.push(Raise {
                    call,
                    reply_at: heard.0,
                    reached,
                })?;
            }
        }
        Ok(())
    }

    // How far the document had come by all that is noted.
    fn reached(&self) -> Option<Pair> {
        let last = self.raises.last()?;
        last.reached
    }

    // Notes the calls whose replies come up to the one at the event, by the pairs that they show.
    fn note_shown(&mut self, alloc: Global, records: &[Rec], event: usize) -> Result<(), NoMemory> {
        for answer in answers_of(alloc, records)?.iter() {
            if answer.reply_at <= event {
                if let Some(call) = records.get(answer.rec) {
                    self.push(*call, version_shown(call))?;
                }
            }
        }
        Ok(())
    }

    // Notes what the table says.
    fn note_table(&mut self, records: &[Rec], table: &Table) -> Result<(), NoMemory> {
        let TableEvent::Answered(number) = table.event else {
            return Ok(());
        };
        match (records.get(number), least_of(&table.rows)) {
            (Some(call), Some(reached)) => self.push(*call, reached),
            _ => Ok(()),
        }
    }

    /// Returns the course of a document with these records: up to the beginning of the tables by the pairs that replies
    /// show, from there on by the tables, and last by the reply after which nothing is left.
    pub fn of(
        alloc: Global,
        records: &[Rec],
        contradiction: &Contradiction,
    ) -> Result<Course, NoMemory> {
        let mut course = Course {
            raises: Vec::new(alloc),
        };
        if let Some(event) = start_of(contradiction, records) {
            course.note_shown(alloc, records, event)?;
        }
        for table in contradiction.tables.iter() {
            course.note_table(records, table)?;
        }
        if let Some(call) = records.get(contradiction.number) {
            course.push(*call, version_shown(call))?;
        }
        Ok(course)
    }

    /// Returns the last call whose reply, before the event, shows that the document had come further.
    pub fn raised_before(&self, event: usize) -> Option<Raise> {
        let count = self.raises.partition_point(|raise| raise.reply_at < event);
        self.raises[..count].last().copied()
    }

    /// Returns how far the document had come before the event; `None` if it may never have been written.
    pub fn reached_before(&self, event: usize) -> Option<Pair> {
        let raise = self.raised_before(event)?;
        raise.reached
    }
}
