ghost use Rattle.std.specs.Prelude.{◌<◌, All};

use crate::known::{KnownPair, KnownPairs};
use crate::limit::Limit;
use crate::rooms::set_rooms;
use crate::state::{Document, SearchState, mark_of, mix};
use crate::wait_kind::{WaitKind, kinds_of, lines_of_kinds};
use completing::{
    ConflictOrder, Count, Free, Lines, No, Records, Table, Timed, WritesByNumber, is_conflict,
    leaves_it, number_of,
};
use doc_register::{Conflicts, Op};
use events::Rec;
use std::alloc::Global;
use version_pair::{NoMemory, Pair};
use write_chain::{AnsweredRec, answers_of};

mod turning;

pub use turning::MOST_BACK;

/// A record that was placed.
#[derive_where(Clone, Copy)]
pub enum Placed<D: Count> {
    /// It is a read, or is refused.
    Read(No<D>),
    /// A write with the next known pair.
    Known(No<D>, Pair),
    /// Such a write, which was placed before as one that is refused.
    KnownTurned(No<D>, Pair),
    /// A write with an invented pair: the pair, if it is between two pairs of one term.
    Inserted(No<D>, Option<Pair>),
    /// Such a write, which was placed before as one that is refused.
    InsertedTurned(No<D>, Option<Pair>),
    /// It was placed as a read, or as refused, and is left again.
    Freed(No<D>),
}

impl<D: Count> Placed<D> {
    /// Returns the record.
    pub fn rec(self) -> No<D> {
        match self {
            Placed::Read(rec)
            | Placed::Freed(rec)
            | Placed::Known(rec, _)
            | Placed::KnownTurned(rec, _)
            | Placed::Inserted(rec, _)
            | Placed::InsertedTurned(rec, _) => rec,
        }
    }

    // Whether it is a write that was placed before as one that is refused.
    fn is_turned(self) -> bool {
        matches!(self, Placed::KnownTurned(..) | Placed::InsertedTurned(..))
    }
}

/// A walk forward in time over a document's records.
#[derive(Drop)]
pub struct ForwardWalk<'a, D: Count> {
    pub records: Records<'a, D>,
    pub conflicts: Conflicts,
    pub known: KnownPairs<D>,
    pub numbers: WritesByNumber<D>,
    lines: Lines<D>,
    kinds: Table<D, Option<WaitKind>>,
    /// The pairs that no document of the shard is known to use.
    pub free: Free<'a>,
    // The answered records in response order.
    replies: Vec<AnsweredRec>,
    // The conflicts on pairs in the order of their calls.
    conflicts_by_call: Vec<Timed<D>>,
    pub placed: Table<D, bool>,
    // What stands as a read, or as refused.
    read: Table<D, bool>,
    // The conflicts that were placed as refused and are writes after all.
    turned: Table<D, bool>,
    pub order: Vec<Placed<D>>,
    pub state: SearchState,
    /// How many records may still be placed, those that are taken back included.
    pub steps_left: usize,
    ghost answered: { All (λ answer. answer.rec < D.number) replies.items },
}

// The conflicts on pairs in the order of their calls, in which the records are.
fn conflicts_by_call<D: Count>(
    alloc: Global,
    records: Records<'_, D>,
    kinds: &Table<D, Option<WaitKind>>,
) -> Result<Vec<Timed<D>>, NoMemory> {
    let mut conflicts = Vec::new(alloc);
    for index in 0..records.len() {
        let rec = No::new(index);
        match kinds.of(rec) {
            Some(kind) if kind.is_conflict_on_pair() => {
                conflicts.push(Timed {
                    at: records.of(rec).call_at,
                    rec,
                })?;
            }
            _ => {}
        }
    }
    Ok(conflicts)
}

impl<D: Count> ForwardWalk<'_, D> {
    /// Returns a walk before its first step, which may place so many records, or `None` if the records
    /// contradict each other.
    pub fn of<'a>(
        alloc: Global,
        records: Records<'a, D>,
        conflicts: Conflicts,
        used: &'a [Pair],
        limits: &[Limit],
        steps: usize,
    ) -> Result<Option<ForwardWalk<'a, D>>, NoMemory> {
        let numbers = WritesByNumber::of(alloc, records, conflicts, ConflictOrder::ByCall)?;
        let Some(mut known) = KnownPairs::of(alloc, records, &numbers)? else {
            return Ok(None);
        };
        let kinds = kinds_of(alloc, records, &known, &numbers)?;
        let free = Free::among(used);
        set_rooms(&mut known, free, limits);
        Ok(Some(ForwardWalk {
            records,
            conflicts,
            lines: lines_of_kinds(alloc, records, &known, &kinds)?,
            replies: answers_of(alloc, records.all())?,
            conflicts_by_call: conflicts_by_call(alloc, records, &kinds)?,
            placed: Table::new(alloc, records.len(), false)?,
            read: Table::new(alloc, records.len(), false)?,
            turned: Table::new(alloc, records.len(), false)?,
            order: Vec::with_capacity(alloc, records.len())?,
            state: SearchState::start(),
            steps_left: steps,
            known,
            numbers,
            kinds,
            free,
        }))
    }

    /// Returns the next known pair, if one is left.
    pub fn next_known(&self) -> Option<KnownPair<D>> {
        self.known.entry(self.state.passed)
    }

    /// Returns the index of the first reply of the answered records that are left: what is placed must be
    /// called before it.
    pub fn limit(&self) -> usize {
        self.next_reply().unwrap_or(usize::MAX)
    }

    /// Returns the index of the first reply of the answered records that are left, if any is left.
    pub fn next_reply(&self) -> Option<usize> {
        self.replies
            .get(self.state.replies)
            .map(|entry| entry.reply_at)
    }

    /// Returns whether all answered records are placed.
    pub fn is_done(&self) -> bool {
        self.state.replies >= self.replies.len()
    }

    /// Returns whether the record is left and may be placed.
    pub fn may_be_placed(&self, rec: No<D>) -> bool {
        !self.placed.of(rec) && self.records.of(rec).call_at < self.limit()
    }

    // The line of the records of the kind.
    fn line(&self, kind: WaitKind) -> Option<usize> {
        kind.line(self.known.entries.len())
    }

    /// Returns the first record of the kind that may be placed.
    pub fn first(&mut self, kind: WaitKind) -> Option<No<D>> {
        let line = self.line(kind)?;
        match self.lines.first(line, &self.placed) {
            Some(entry) if entry.at < self.limit() => Some(entry.rec),
            _ => None,
        }
    }

    /// Returns whether a record of the kind is left, whether it may be placed here or not.
    pub fn is_left(&mut self, kind: WaitKind) -> bool {
        match self.line(kind) {
            Some(line) => self.lines.first(line, &self.placed).is_some(),
            None => false,
        }
    }

    /// Returns the records of the kind, without some of those that were placed.
    pub fn waiting(&self, kind: WaitKind) -> &[Timed<D>] {
        match self.line(kind) {
            Some(line) => self.lines.waiting(line),
            None => &[],
        }
    }

    /// Returns the records of the kind.
    pub fn all(&self, kind: WaitKind) -> &[Timed<D>] {
        match self.line(kind) {
            Some(line) => self.lines.all(line),
            None => &[],
        }
    }

    /// Returns how many more writes may be inserted before the next known pair: not below zero.
    pub fn room(&self) -> u64 {
        let room = match self.next_known() {
            Some(next) => next.room.saturating_sub(self.state.inserted),
            None => u64::MAX - self.state.inserted,
        };
        match self.gap() {
            Some(gap) => room.min(self.free.count(gap.from, gap.upper)),
            None => room,
        }
    }

    // The index, in response order, of the first answered record that is left; those before `state.replies` are
    // placed. The number of them if none is left.
    fn first_unplaced(&self) -> usize {
        for i in self.state.replies..self.replies.len() {
            let rec = No::new(self.replies[i].rec);
            if !self.placed.of(rec) {
                return i;
            }
        }
        self.replies.len()
    }

    // Passes over the replies of what is placed.
    fn pass_replies(&mut self) {
        self.state.replies = self.first_unplaced();
    }

    // Places a record. (If no step is left, the number of those that are stays zero.)
    fn place(&mut self, placed: Placed<D>) -> Result<(), NoMemory> {
        self.order.push(placed)?;
        self.set(placed, true);
        self.steps_left = self.steps_left.saturating_sub(1);
        self.state.mark ^= self.mark(placed);
        Ok(())
    }

    // What a placed record adds to the mark of the state. An unanswered write under the condition of a pair
    // adds nothing: it is of no use after that pair.
    fn mark(&self, placed: Placed<D>) -> u64 {
        let rec = placed.rec();
        let own = mark_of(rec.index());
        match (placed, self.kinds.of(rec)) {
            (Placed::KnownTurned(..) | Placed::InsertedTurned(..), _) => mix(own),
            // (As much as if it had been refused before, and turned.)
            (Placed::Known(..) | Placed::Inserted(..), _) if is_conflict(self.records.of(rec)) => {
                own ^ mix(own)
            }
            (_, Some(kind)) if kind.is_lost_on_pair() => 0,
            _ => own,
        }
    }

    // Records that a record is placed as a read, or as refused, or is not placed.
    fn set_read(&mut self, rec: No<D>, is_placed: bool) {
        self.placed.set(rec, is_placed);
        self.read.set(rec, is_placed);
    }

    // Records that a record is placed, or is not.
    fn set(&mut self, placed: Placed<D>, is_placed: bool) {
        match placed {
            Placed::KnownTurned(rec, _) | Placed::InsertedTurned(rec, _) => {
                self.turned.set(rec, is_placed);
            }
            Placed::Known(rec, _) | Placed::Inserted(rec, _) => self.placed.set(rec, is_placed),
            Placed::Read(rec) => self.set_read(rec, is_placed),
            Placed::Freed(rec) => self.set_read(rec, !is_placed),
        }
    }

    // Places the records of a kind that may be placed, as reads.
    fn place_all(&mut self, kind: WaitKind) -> Result<(), NoMemory> {
        for _ in 0..self.records.len() {
            match self.first(kind) {
                Some(rec) => self.place(Placed::Read(rec))?,
                None => return Ok(()),
            }
        }
        Ok(())
    }

    // Whether the record is a conflict on the pair that the document has.
    fn is_on_present(&self, rec: No<D>) -> bool {
        match (self.kinds.of(rec), self.state.document) {
            (Some(WaitKind::ConflictOn(at)), Document::Known(present)) => at == present,
            (Some(WaitKind::ConflictOnNamed(at)), Document::Invented(present)) => {
                Some(at) == present
            }
            _ => false,
        }
    }

    // The next conflict on a pair that was not met, if it is called before the index: now it is met.
    fn meet_conflict(&mut self, limit: usize) -> Option<Timed<D>> {
        match self
            .conflicts_by_call
            .get(self.state.conflicts_met)
            .copied()
        {
            Some(entry) if entry.at < limit => {
                self.state.conflicts_met += 1;
                Some(entry)
            }
            _ => None,
        }
    }

    // Places the conflicts on other pairs than the one that the document has, as far as they were not met
    // before.
    fn place_conflicts(&mut self) -> Result<(), NoMemory> {
        let limit = self.limit();
        for _ in 0..self.conflicts_by_call.len() {
            let Some(Timed { rec, .. }) = self.meet_conflict(limit) else {
                return Ok(());
            };
            if !self.placed.of(rec) && !self.is_on_present(rec) {
                self.place(Placed::Read(rec))?;
            }
        }
        Ok(())
    }

    // Places what the document allows.
    fn place_allowed(&mut self) -> Result<(), NoMemory> {
        self.pass_replies();
        match self.state.document {
            Document::Absent => self.place_all(WaitKind::Missing)?,
            Document::Known(at) => {
                self.place_all(WaitKind::Found(at))?;
                self.place_all(WaitKind::CreateConflict)?;
            }
            Document::Invented(_) => self.place_all(WaitKind::CreateConflict)?,
        }
        self.place_conflicts()
    }

    /// Places each read that may be placed, and each conflict that may be placed as one that was refused.
    pub fn place_reads(&mut self) -> Result<(), NoMemory> {
        for _ in 0..self.records.len() + 1 {
            let before = self.order.len();
            self.place_allowed()?;
            if self.order.len() == before {
                return Ok(());
            }
        }
        Ok(())
    }

    // The document with an invented pair.
    fn invented(&self, pair: Option<Pair>) -> Document {
        match pair {
            Some(pair) => Document::Invented(self.known.named_place(pair)),
            None => Document::Invented(None),
        }
    }

    // The state of the document after the write.
    fn after(&self, write: Placed<D>) -> Document {
        let leaves_it = leaves_it(self.records.of(write.rec()).op);
        match write {
            Placed::Known(..) | Placed::KnownTurned(..) if leaves_it => {
                Document::Known(self.state.passed)
            }
            Placed::Inserted(_, pair) | Placed::InsertedTurned(_, pair) if leaves_it => {
                self.invented(pair)
            }
            _ => Document::Absent,
        }
    }

    // The write with the pair that it takes, if that is between two pairs of one term.
    fn with_pair(&self, write: Placed<D>) -> Placed<D> {
        match write {
            Placed::Inserted(rec, None) => Placed::Inserted(rec, self.pair_to_insert()),
            Placed::InsertedTurned(rec, None) => {
                Placed::InsertedTurned(rec, self.pair_to_insert())
            }
            other => other,
        }
    }

    // Passes over the next known pair. (There are fewer than the greatest number.)
    fn pass_known(&mut self, pair: Pair) {
        self.state.passed = self.state.passed.saturating_add(1);
        self.state.inserted = 0;
        self.state.has_unpaired = false;
        self.state.budget = 0;
        self.state.last = Some(pair);
    }

    /// Performs a write, and places what waits for the end of the pair before it.
    pub fn perform(&mut self, write: Placed<D>) -> Result<(), NoMemory> {
        let before = self.state.document;
        let write = self.with_pair(write);
        let reads = self.order.len();
        self.place(write)?;
        self.state.document = self.after(write);
        let call_at = self.records.of(write.rec()).call_at;
        self.state.latest = self.state.latest.max(call_at);
        if write.is_turned() {
            self.free_reads(write.rec(), reads)?;
        }
        match write {
            Placed::Known(_, pair) | Placed::KnownTurned(_, pair) => self.pass_known(pair),
            Placed::Inserted(_, pair) | Placed::InsertedTurned(_, pair) => {
                // (Budgets are below the greatest number of all.)
                self.state.inserted = self.state.inserted.saturating_add(1);
                match pair {
                    Some(_) => self.state.last = pair,
                    None => self.state.has_unpaired = true,
                }
            }
            Placed::Read(_) | Placed::Freed(_) => {}
        }
        self.pass_replies();
        match before {
            Document::Known(at) => self.place_all(WaitKind::ConflictOn(at)),
            Document::Invented(Some(at)) => self.place_all(WaitKind::ConflictOnNamed(at)),
            Document::Invented(None) | Document::Absent => Ok(()),
        }
    }

    /// Takes back what was placed since a point: the state then, and how many records were placed.
    pub fn take_back(&mut self, state: SearchState, placed: usize) {
        for _ in placed..self.order.len() {
            if let Some(last) = self.order.pop() {
                self.set(last, false);
                self.put_back(last.rec());
            }
        }
        self.state = state;
    }

    // Puts a record back where it waits.
    fn put_back(&mut self, rec: No<D>) {
        let found = self.records.of(rec);
        let left = Timed {
            at: found.call_at,
            rec,
        };
        if let Some(line) = self.kinds.of(rec).and_then(|kind| self.line(kind)) {
            self.lines.put_back(line, left);
        }
        if let Some(k) = number_of(found, self.conflicts) {
            self.numbers.put_back(k, left);
        }
    }

    /// Returns whether the record is a delete.
    pub fn is_delete(&self, rec: No<D>) -> bool {
        matches!(self.records.of(rec).op, Op::Delete { .. })
    }
}
