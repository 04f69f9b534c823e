//! The walk along the events of a document, with a table of rows.

ghost use Rattle.std.specs.Prelude.{◌≡◌, ◌<◌, All, IfOk, IfSome, IsTrue, List, OnOk, length, Some as Just, true, false, suc, ℕ, slice_get};
ghost use Rattle.events.specs.declared.record.Rec.{Rec as Record};
ghost use Rattle.deciding.specs.Branches.{IsCovered, never_changed};
ghost use Rattle.write_chain.specs.AnsweredCalls.{AreAnsweredCalls};
ghost use Rattle.deciding.specs.Steps.{is_owed};
ghost use Rattle.deciding.specs.Tables.{AreLeftAtCall, IsRuledOut, owing};
ghost use Rattle.deciding.specs.declared.document.Document.{Document as DocumentOf};
ghost use Rattle.deciding.specs.aids.Candidates.{AreOpen, IsDocument, facts_of};
ghost use Rattle.deciding.specs.aids.KnownPairs.{AreKnown};
ghost use Rattle.deciding.specs.aids.Rows.{IsPositioned, branch_of};
ghost use Rattle.deciding.specs.aids.StepsOf.{ArePositioned};
ghost use Rattle.deciding.specs.aids.TablesOf.{KeepsTable, table_of};
ghost use Rattle.deciding.specs.aids.Walks.{AreSettledIn, HasPassed, IsAnswerAt, IsOwingIn, IsPassedTo, IsWalkAt};

use crate::document::Document;
use crate::known::Known;
use crate::made::Made;
use crate::moment::Moment;
use crate::numbers::{with_some, without};
use crate::row::Row;
use crate::served::{is_hidden, is_owed, is_past};
use crate::tables::{ReplyTables, add_row};
use doc_register::{Conflicts, Reply};
use events::Rec;
use std::alloc::Global;
use version_pair::NoMemory;
use write_chain::AnsweredRec;

// The rows that served the call of this number, as they are after its reply.
fn settled_rows(alloc: Global, served: &[Row], number: usize) -> Result<Vec<Row>, NoMemory>
    ensures { IfOk result (λ rows. (records : List Record) → ArePositioned records served.now
        → ArePositioned records rows.items × AreSettledIn records number served.now rows.items) }
{
    let mut rows = Vec::new(alloc);
    for i in 0..served.len() {
        add_row(&mut rows, served[i].settled(alloc, number)?)?;
    }
    Ok(rows)
}

impl Row {
    // The row of a document that was never changed.
    fn never(alloc: Global) -> Row
        ensures branch { branch_of result ≡ never_changed }
        ensures position { result.position ≡ 0 }
    {
        Row {
            least: None,
            position: 0,
            exists: false,
            flipped_at: 0,
            arrived_at: 0,
            owed: Vec::new(alloc),
            spent: Vec::new(alloc),
            deletes: 0,
            makes: 0,
        }
    }

    // The row after the call of this number was made.
    fn owing(&self, alloc: Global, number: usize, call: Rec) -> Result<Row, NoMemory>
        ensures { IfOk result (λ row. (branch_of row ≡ owing number call (branch_of self.now))
            × ((records : List Record) → IsPositioned records self.now → IsPositioned records row)) }
    {
        Ok(Row {
            least: self.least,
            position: self.position,
            exists: self.exists,
            flipped_at: self.flipped_at,
            arrived_at: self.arrived_at,
            owed: with_some(alloc, is_owed(call), number, &self.owed)?,
            spent: with_some(alloc, false, 0, &self.spent)?,
            deletes: self.deletes,
            makes: self.makes,
        })
    }
}

// Adds the row after the call of this number was made, unless it is past what the call finds.
fn push_owing(
    rows: &mut Vec<Row>,
    known: &Known,
    row: &Row,
    number: usize,
    call: Rec,
) -> Result<(), NoMemory>
    ensures ok { OnOk result ((records : List Record) → AreKnown records known.now.pairs.items → ArePositioned records rows.old.items → IsPositioned records row.now
        → KeepsTable records rows.old.items rows.new.items × IsOwingIn records number call rows.new.items row.now) }
{
    if !is_past(known, row.position, call.heard) {
        let owing = row.owing(*rows.allocator(), number, call)?;
        add_row(rows, owing)?;
    }
    Ok(())
}

/// Returns whether each row stays as it is if the call is made.
pub fn leaves_rows(call: Rec) -> bool
    ensures { IsTrue result → is_owed call ≡ false }
{
    match call.heard {
        Some((_, Reply::Found { .. })) => false,
        Some(_) | None => !is_owed(call),
    }
}

// The rows of the table that are not past what the call of this number finds, after it was made.
fn rows_owing(
    alloc: Global,
    known: &Known,
    front: &[Row],
    number: usize,
    call: Rec,
) -> Result<Vec<Row>, NoMemory>
    ensures { IfOk result (λ rows. (records : List Record) → AreKnown records known.now.pairs.items → ArePositioned records front.now
        → ArePositioned records rows.items × AreLeftAtCall records number call (table_of front.now) (table_of rows.items)) }
{
    let mut rows = Vec::new(alloc);
    for i in 0..front.len() {
        push_owing(&mut rows, known, &front[i], number, call)?;
    }
    Ok(rows)
}

/// The walk along the events of a document.
#[derive(Drop)]
pub struct Walk {
    /// The rows that the document may be before the next event.
    pub front: Vec<Row>,
    // The conflicts that may hide a write, made and not answered.
    open: Vec<usize>,
    // How many writes without a reply and without a condition were made.
    made: Made,
    /// The rows that waited at the last reply.
    pub waited: Vec<Row>,
    /// The number of rows of which steps may yet be made.
    pub left: usize,
}

impl Walk {
    // Brings the rows to where they are after the call of this number was made.
    fn move_front(&mut self, known: &Known, number: usize, call: Rec) -> Result<(), NoMemory>
        ensures rows { OnOk result ((records : List Record) → AreKnown records known.now.pairs.items → ArePositioned records self.old.front.items
            → ArePositioned records self.new.front.items
            × AreLeftAtCall records number call (table_of self.old.front.items) (table_of self.new.front.items)) }
        ensures kept { OnOk result ((self.new.open.items ≡ self.old.open.items) × (self.new.made ≡ self.old.made)) }
    {
        if !leaves_rows(call) {
            let alloc = *self.front.allocator();
            self.front = rows_owing(alloc, known, &self.front, number, call)?;
        }
        Ok(())
    }

    /// A call of the document is made: the one of this number.
    pub fn make(
        &mut self,
        document: &Document<'_>,
        number: usize,
        call: Rec,
    ) -> Result<(), NoMemory>
        ensures ok { OnOk result (IsDocument document.now → (event : ℕ) → slice_get document.now.records.now number ≡ Just call → call.call_at ≡ event
            → IsWalkAt document.now event self.old → IsWalkAt document.now (suc event) self.new) }
    {
        self.move_front(&document.versions.known, number, call)?;
        self.made = self.made.with(call, document.records.len());
        if is_hidden(document.conflicts, call.heard) {
            self.open.push(number)?;
        }
        Ok(())
    }

    /// The call of this number is answered at the event. Returns whether the walk went on: it ends if it has made too many
    /// steps.
    pub fn answer(
        &mut self,
        document: &Document<'_>,
        event: usize,
        number: usize,
        call: Rec,
    ) -> Result<bool, NoMemory>
        ensures { IfOk result (λ went_on. IsDocument document.now → IsAnswerAt document.now.records.now number call event
            → went_on ≡ true → IsWalkAt document.now event self.old → IsWalkAt document.now (suc event) self.new) }
    {
        let alloc = *self.front.allocator();
        let mut tables = ReplyTables::new(alloc);
        tables.place_all(document, number, call, &self.front)?;
        let moment = Moment {
            event,
            pending: self.open.as_slice(),
            made: self.made,
        };
        let closed = tables.close(document, &moment, number, call, self.left)?;
        self.left = self.left.saturating_sub(tables.waiting.len());
        self.front = settled_rows(alloc, &tables.served, number)?;
        self.open = without(alloc, number, &self.open)?;
        self.waited = tables.waiting;
        Ok(closed)
    }

    // The calls from the one of this number on that are made before the event. Returns the number of the first that isn't.
    fn make_until(
        &mut self,
        document: &Document<'_>,
        from: usize,
        event: usize,
    ) -> Result<usize, NoMemory>
        ensures { IfOk result (λ made. IsDocument document.now → IsPassedTo document.now from event self.old
            → IsWalkAt document.now event self.new × HasPassed document.now.records.now made event) }
    {
        for number in from..document.records.len() {
            let call = document.records[number];
            if call.call_at >= event {
                return Ok(number);
            }
            self.make(document, number, call)?;
        }
        Ok(document.records.len())
    }

    /// Returns the walk before the first event, that may make steps of so many rows.
    pub fn start(alloc: Global, limit: usize) -> Result<Walk, NoMemory>
        ensures { IfOk result (λ walk. (d : DocumentOf) → IsWalkAt d 0 walk) }
    {
        let mut front = Vec::new(alloc);
        front.push(Row::never(alloc))?;
        Ok(Walk {
            front,
            open: Vec::new(alloc),
            made: Made {
                deletes: 0,
                makes: 0,
            },
            waited: Vec::new(alloc),
            left: limit,
        })
    }

    /// Returns the walk right before the event, at which the document may be any of these rows, that may make steps of so
    /// many rows.
    pub fn resumed(
        alloc: Global,
        document: &Document<'_>,
        event: usize,
        front: Vec<Row>,
        limit: usize,
    ) -> Result<Walk, NoMemory> {
        let mut open = Vec::new(alloc);
        let mut made = Made {
            deletes: 0,
            makes: 0,
        };
        for number in 0..document.records.len() {
            let call = document.records[number];
            if call.call_at >= event {
                break;
            }
            made = made.with(call, document.records.len());
            if is_open_conflict(document.conflicts, call, event) {
                open.push(number)?;
            }
        }
        Ok(Walk {
            front,
            open,
            made,
            waited: Vec::new(alloc),
            left: limit,
        })
    }
}

// Whether the call is a conflict that may hide a write and that is not answered before the event.
fn is_open_conflict(conflicts: Conflicts, call: Rec, event: usize) -> bool {
    match call.heard {
        Some(heard) => event <= heard.0 && is_hidden(conflicts, call.heard),
        None => false,
    }
}

/// Returns the number of the first call, in response order, after whose reply the walk has no row.
pub fn first_without_row(
    walk: &mut Walk,
    document: &Document<'_>,
    answers: &[AnsweredRec],
) -> Result<Option<u64>, NoMemory>
    requires document { IsDocument document.now }
    requires sorted { AreAnsweredCalls document.now.records.now answers.now }
    requires within { All (λ answer. answer.rec < length document.now.records.now) answers.now }
    requires start { IsWalkAt document.now 0 walk.old }
    ensures { IfOk result (λ found. IfSome found (IsRuledOut (facts_of document.now) document.now.records.now)) }
{
    let mut made = 0;
    for answer in answers {
        made = walk.make_until(document, made, answer.reply_at)?;
        let call = document.records[answer.rec];
        if !walk.answer(document, answer.reply_at, answer.rec, call)? {
            return Ok(None);
        }
        if walk.front.is_empty() {
            return Ok(Some(call.no));
        }
    }
    Ok(None)
}
