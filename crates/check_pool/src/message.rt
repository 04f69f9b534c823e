ghost use Rattle.std.specs.Prelude.{◌≡◌, ◌↔◌, IfOk, IsTrue};
ghost use Rattle.check_pool.specs.Answers.{IsAnswerTo};
ghost use Rattle.check_pool.specs.aids.Messages.{IsAboutJob, IsSearched};

use crate::doc_job::DocJob;
use doc_check::{DocAnswer, answer};
use doc_register::Conflicts;
use events::Rec;
use std::alloc::Global;
use std::marker::Model;
use version_pair::{DocId, NoMemory};

/// What a worker sends: the number of a job, and an answer.
///
/// The type guarantees that the answer is what the search promises for the id, the records and the reading of
/// conflicts that the answer itself is about.
#[derive(Drop)]
pub struct Message {
    doc: usize,
    answer: DocAnswer,
}

impl Model for Message {
    ghost use Rattle.check_pool.specs.aids.Messages.{IsSearched, Sent};

    ghost Value = { Sent };

    ghost view = { λ m. record {
      doc = m.doc;
      answer = m.answer;
    } };

    ghost invariant = { λ m. IsSearched m.answer };
}

// Whether two ids are equal.
fn is_same(id: &DocId, other: &DocId) -> bool
    ensures { IsTrue result ↔ (id.now ≡ other.now) }
{
    id == other
}

// Whether the records are the same, in the same order.
fn are_same(records: &[Rec], others: &[Rec]) -> bool
    ensures { IsTrue result ↔ (records.now ≡ others.now) }
{
    records == others
}

// Whether the readings of conflicts are the same.
fn is_same_reading(conflicts: Conflicts, other: Conflicts) -> bool
    ensures { IsTrue result ↔ (conflicts ≡ other) }
{
    conflicts == other
}

impl Message {
    /// Returns the answer of the search for the job, under the job's number.
    pub fn of(alloc: Global, job: &DocJob) -> Result<Message, NoMemory>
        ensures number { IfOk result (λ m. m.doc ≡ job.now.doc) }
        ensures answer { IfOk result (λ m. IsAnswerTo job.now m.answer) }
    {
        let id = job.id.copy()?;
        let recs = Vec::from_slice(alloc, &job.recs)?;
        let answer = answer(alloc, id, recs, job.seen, job.conflicts)?;
        Ok(Message {
            doc: job.doc,
            answer,
        })
    }

    /// Returns the number of the job.
    pub fn doc(&self) -> usize
        ensures { result ≡ self.now.doc }
    {
        self.doc
    }

    /// Returns whether the answer is about the id, the records and the reading of conflicts of the job.
    pub fn is_about(&self, job: &DocJob) -> bool
        ensures { IsTrue result ↔ IsAboutJob job.now self.now.answer }
    {
        is_same(self.answer.id(), &job.id)
            && are_same(self.answer.records(), &job.recs)
            && is_same_reading(self.answer.conflicts(), job.conflicts)
    }

    /// Returns the answer.
    pub fn into_answer(self) -> DocAnswer
        ensures same { result ≡ self.answer }
        ensures searched { IsSearched result }
    {
        let Message { answer, .. } = self;
        answer
    }
}
