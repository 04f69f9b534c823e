//! All steps of a row.

ghost use Rattle.std.specs.Prelude.{IfOk, OnOk};
ghost use Rattle.deciding.specs.aids.Candidates.{IsDocument, facts_of};
ghost use Rattle.deciding.specs.aids.KnownPairs.{IsFreeAbove};
ghost use Rattle.deciding.specs.aids.Moments.{IsMoment};
ghost use Rattle.deciding.specs.aids.Rows.{IsPositioned, branch_of};
ghost use Rattle.deciding.specs.aids.StepsOf.{ArePositioned, AreSteps, HasStepsWith, HasStepsWithSome, IsTried, KeepsRows};

use crate::above::least_above;
use crate::document::Document;
use crate::moment::Moment;
use crate::row::Row;
use crate::step::{Attempt, may_perform, performed};
use std::alloc::Global;
use version_pair::{NoMemory, Pair};

impl Document<'_> {
    // Adds the row after the call of this number was performed on the row with the pair, if it may be.
    fn push_step(
        &self,
        rows: &mut Vec<Row>,
        moment: &Moment<'_>,
        row: &Row,
        number: usize,
        pair: Pair,
    ) -> Result<(), NoMemory>
        ensures ok { OnOk result (IsDocument self.now → IsPositioned self.now.records.now row.now
            → IsMoment self.now.conflicts self.now.records.now moment.now
            → KeepsRows self.now.records.now rows.old.items rows.new.items
            × IsTried (facts_of self.now) self.now.records.now moment.now.event (branch_of row.now) number pair rows.new.items) }
    {
        let Some(call) = self.records.get(number).copied() else {
            return Ok(());
        };
        let attempt = Attempt { number, call, pair };
        if may_perform(&self.versions, self.conflicts, moment, row, attempt) {
            let alloc = *rows.allocator();
            let next = performed(
                alloc,
                &self.versions.known,
                moment.event,
                row,
                attempt,
                self.attempts,
            )?;
            rows.push(next)?;
        }
        Ok(())
    }

    /// Returns the least pair above the lower one that is neither known nor elsewhere, unless a known pair is below it.
    pub fn free_above(&self, lower: Option<Pair>) -> Option<Pair>
        ensures { IsDocument self.now → IsFreeAbove (facts_of self.now) self.now.records.now lower result }
    {
        let free = self.elsewhere.free_from(least_above(lower)?)?;
        match self.versions.known.next_known(lower) {
            Some(next) if !free.is_below(next) => None,
            _ => Some(free),
        }
    }

    // Adds the rows after each call that may be performed on the row with the pair. There is none if another document is
    // known to have the pair.
    fn push_steps(
        &self,
        rows: &mut Vec<Row>,
        moment: &Moment<'_>,
        row: &Row,
        pair: Pair,
    ) -> Result<(), NoMemory>
        ensures ok { OnOk result (IsDocument self.now → IsPositioned self.now.records.now row.now
            → IsMoment self.now.conflicts self.now.records.now moment.now
            → KeepsRows self.now.records.now rows.old.items rows.new.items
            × HasStepsWith (facts_of self.now) self.now.records.now moment.now.event (branch_of row.now) pair rows.new.items) }
    {
        if self.elsewhere.contains(pair) {
            return Ok(());
        }
        let numbers = self.candidates(*rows.allocator(), row, pair, moment.pending)?;
        for i in 0..numbers.len() {
            self.push_step(rows, moment, row, numbers[i], pair)?;
        }
        Ok(())
    }

    // Adds them with the pair, if there is one.
    fn push_some_steps(
        &self,
        rows: &mut Vec<Row>,
        moment: &Moment<'_>,
        row: &Row,
        pair: Option<Pair>,
    ) -> Result<(), NoMemory>
        ensures ok { OnOk result (IsDocument self.now → IsPositioned self.now.records.now row.now
            → IsMoment self.now.conflicts self.now.records.now moment.now
            → KeepsRows self.now.records.now rows.old.items rows.new.items
            × HasStepsWithSome (facts_of self.now) self.now.records.now moment.now.event (branch_of row.now) pair rows.new.items) }
    {
        if let Some(pair) = pair {
            self.push_steps(rows, moment, row, pair)?;
        }
        Ok(())
    }

    /// Returns the rows after each call that may be performed on the row before the event of the moment.
    pub fn steps(&self, alloc: Global, moment: &Moment<'_>, row: &Row) -> Result<Vec<Row>, NoMemory>
        ensures { IfOk result (λ rows. IsDocument self.now → IsPositioned self.now.records.now row.now
            → IsMoment self.now.conflicts self.now.records.now moment.now
            → ArePositioned self.now.records.now rows.items
            × AreSteps (facts_of self.now) self.now.records.now moment.now.event (branch_of row.now) rows.items) }
    {
        let mut rows = Vec::new(alloc);
        let known = &self.versions.known;
        self.push_some_steps(&mut rows, moment, row, known.next_known(row.least))?;
        self.push_some_steps(&mut rows, moment, row, self.free_above(row.least))?;
        Ok(rows)
    }
}
