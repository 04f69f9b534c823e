//! Tables of rows, at the reply to a call.

ghost use Rattle.std.specs.Prelude.{◌≡◌, IfOk, IfSome, IsTrue, List, OnOk, Some as Just, [], true, not, slice_get, ◌&&◌};
ghost use Rattle.events.specs.declared.record.Rec.{Rec as Record};
ghost use Rattle.deciding.specs.Branches.{Covers, IsCovered};
ghost use Rattle.deciding.specs.Tables.{settled};
ghost use Rattle.deciding.specs.aids.Candidates.{IsDocument, facts_of};
ghost use Rattle.deciding.specs.aids.Moments.{IsMoment};
ghost use Rattle.deciding.specs.aids.Rows.{IsPositioned, branch_of};
ghost use Rattle.deciding.specs.aids.StepsOf.{ArePositioned};
ghost use Rattle.deciding.specs.aids.TablesOf.{AddsRow, ArePlacedIn, HasPositions, IsClosed, IsPlacedIn, KeepsTables, PushesRow, table_of};
ghost use Rattle.deciding.specs.declared.row.Row.{Row as RowOf};

use crate::document::Document;
use crate::moment::Moment;
use crate::numbers::{with_some, without};
use crate::row::Row;
use crate::served::{is_served, may_come_later};
use events::Rec;
use std::alloc::Global;
use version_pair::NoMemory;

// Whether a row of the table covers it.
fn is_covered(table: &[Row], row: &Row) -> bool
    ensures { (records : List Record) → ArePositioned records table.now → IsPositioned records row.now
        → IsTrue result → IsCovered records (table_of table.now) (branch_of row.now) }
{
    for i in 0..table.len() {
        if table[i].covers(row) {
            return true;
        }
    }
    false
}

// The index of the first row of the table that the row covers.
fn first_covered(table: &[Row], row: &Row) -> Option<usize>
    ensures { IfSome result (λ i. (old : RowOf) × (slice_get table.now i ≡ Just old)
        × ((records : List Record) → ArePositioned records table.now → IsPositioned records row.now
        → Covers records (branch_of row.now) (branch_of old))) }
{
    for i in 0..table.len() {
        if row.covers(&table[i]) {
            return Some(i);
        }
    }
    None
}

// Adds the row to the table, unless one of the table covers it. The others stay at their indexes.
fn push_row(table: &mut Vec<Row>, row: Row) -> Result<(), NoMemory>
    ensures ok { OnOk result ((records : List Record) → ArePositioned records table.old.items → IsPositioned records row
        → PushesRow records row table.old.items table.new.items) }
{
    if !is_covered(table, &row) {
        table.push(row)?;
    }
    Ok(())
}

/// Adds the row to the table, unless one of the table covers it, in place of the first that it covers, if there is one.
pub fn add_row(table: &mut Vec<Row>, row: Row) -> Result<(), NoMemory>
    ensures ok { OnOk result ((records : List Record) → ArePositioned records table.old.items → IsPositioned records row
        → AddsRow records row table.old.items table.new.items) }
{
    match first_covered(table, &row) {
        Some(at) => table[at] = row,
        None => push_row(table, row)?,
    }
    Ok(())
}

impl Row {
    /// Returns a copy of the row.
    pub(crate) fn copied(&self, alloc: Global) -> Result<Row, NoMemory>
        ensures { IfOk result (λ copy. (branch_of copy ≡ branch_of self.now)
            × ((records : List Record) → IsPositioned records self.now → IsPositioned records copy)) }
    {
        Ok(Row {
            least: self.least,
            position: self.position,
            exists: self.exists,
            flipped_at: self.flipped_at,
            arrived_at: self.arrived_at,
            owed: with_some(alloc, false, 0, &self.owed)?,
            spent: with_some(alloc, false, 0, &self.spent)?,
            deletes: self.deletes,
            makes: self.makes,
        })
    }

    /// Returns the row after the reply to the call of this number.
    pub(crate) fn settled(&self, alloc: Global, number: usize) -> Result<Row, NoMemory>
        ensures { IfOk result (λ row. (branch_of row ≡ settled number (branch_of self.now))
            × ((records : List Record) → IsPositioned records self.now → IsPositioned records row)) }
    {
        Ok(Row {
            least: self.least,
            position: self.position,
            exists: self.exists,
            flipped_at: self.flipped_at,
            arrived_at: self.arrived_at,
            owed: without(alloc, number, &self.owed)?,
            spent: without(alloc, number, &self.spent)?,
            deletes: self.deletes,
            makes: self.makes,
        })
    }
}

// Whether a row waits: it has not served the call, or the call may be performed later.
fn must_wait(has_served: bool, may_come: bool) -> bool
    ensures { result ≡ not (has_served && not may_come) }
{
    !has_served || may_come
}

/// The tables at the reply to a call.
#[derive(Drop)]
pub struct ReplyTables {
    /// The rows that served the call.
    pub served: Vec<Row>,
    /// Those that wait, and make further steps.
    pub waiting: Vec<Row>,
}

impl ReplyTables {
    /// Returns tables without rows.
    pub fn new(alloc: Global) -> ReplyTables
        ensures served { result.served.items ≡ [] }
        ensures waiting { result.waiting.items ≡ [] }
    {
        ReplyTables {
            served: Vec::new(alloc),
            waiting: Vec::new(alloc),
        }
    }

    // Adds a copy of the row to those that served the call, if it did.
    fn add_served(&mut self, has_served: bool, row: &Row) -> Result<(), NoMemory>
        ensures ok { OnOk result ((records : List Record) → HasPositions records self.old → IsPositioned records row.now
            → KeepsTables records self.old self.new × (has_served ≡ true → IsCovered records (table_of self.new.served.items) (branch_of row.now))) }
    {
        if has_served {
            let copy = row.copied(*self.served.allocator())?;
            add_row(&mut self.served, copy)?;
        }
        Ok(())
    }

    // Adds the row to those that wait, if it does.
    fn add_waiting(&mut self, waits: bool, row: Row) -> Result<(), NoMemory>
        ensures ok { OnOk result ((records : List Record) → HasPositions records self.old → IsPositioned records row
            → KeepsTables records self.old self.new × (waits ≡ true → IsCovered records (table_of self.new.waiting.items) (branch_of row))) }
    {
        if waits {
            push_row(&mut self.waiting, row)?;
        }
        Ok(())
    }

    /// Places the row at the reply to the call of this number: among those that served it if the call may be answered, and
    /// among those that wait unless it may only have been answered.
    pub fn place(
        &mut self,
        document: &Document<'_>,
        number: usize,
        call: Rec,
        row: Row,
    ) -> Result<(), NoMemory>
        ensures ok { OnOk result (IsDocument document.now → HasPositions document.now.records.now self.old → IsPositioned document.now.records.now row
            → KeepsTables document.now.records.now self.old self.new
            × IsPlacedIn document.now.conflicts document.now.records.now number call self.new row) }
    {
        let known = &document.versions.known;
        let has_served = is_served(known, number, call, &row);
        let may_come = may_come_later(known, document.conflicts, number, call, &row);
        self.add_served(has_served, &row)?;
        self.add_waiting(must_wait(has_served, may_come), row)?;
        Ok(())
    }

    /// Places copies of all these rows.
    pub fn place_all(
        &mut self,
        document: &Document<'_>,
        number: usize,
        call: Rec,
        rows: &[Row],
    ) -> Result<(), NoMemory>
        ensures ok { OnOk result (IsDocument document.now → HasPositions document.now.records.now self.old → ArePositioned document.now.records.now rows.now
            → KeepsTables document.now.records.now self.old self.new
            × ArePlacedIn document.now.conflicts document.now.records.now number call self.new rows.now) }
    {
        for i in 0..rows.len() {
            let row = rows[i].copied(*self.served.allocator())?;
            self.place(document, number, call, row)?;
        }
        Ok(())
    }

    /// Places what comes after each step of each row that waits. Returns whether it did so of all, which are fewer than
    /// `limit` then.
    pub fn close(
        &mut self,
        document: &Document<'_>,
        moment: &Moment<'_>,
        number: usize,
        call: Rec,
        limit: usize,
    ) -> Result<bool, NoMemory>
        ensures { IfOk result (λ closed. IsDocument document.now → HasPositions document.now.records.now self.old
            → IsMoment document.now.conflicts document.now.records.now moment.now
            → KeepsTables document.now.records.now self.old self.new
            × (closed ≡ true → IsClosed (facts_of document.now) document.now.records.now moment.now.event number call self.new)) }
    {
        for next in 0..limit {
            let rows = match self.waiting.get(next) {
                Some(row) => document.steps(*self.served.allocator(), moment, row)?,
                None => return Ok(true),
            };
            self.place_all(document, number, call, &rows)?;
        }
        Ok(false)
    }
}
