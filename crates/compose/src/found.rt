ghost use Rattle.std.specs.Prelude.{◌<◌, IfOk, length, true};
ghost use Rattle.events.specs.Events.{documents_of};
ghost use Rattle.compose.specs.aids.Searched.{AnswersDocument};
ghost use Rattle.covers.specs.Answered.{AreAnswersFor};

use doc_check::{DocAnswer, answer};
use doc_register::Conflicts;
use events::{Front, Seen};
use std::alloc::Global;
use version_pair::NoMemory;

// Returns what the search finds for a document of the history.
fn document_answer(
    alloc: Global,
    history: &Front<'_>,
    doc: usize,
    seen: Seen,
    conflicts: Conflicts,
) -> Result<DocAnswer, NoMemory>
    requires { doc < length (documents_of history.now) }
    ensures { IfOk result (AnswersDocument conflicts history.now doc) }
{
    let records = history.records(doc)?;
    let id = history.doc(doc).copy()?;
    answer(alloc, id, records, seen, conflicts)
}

/// Returns what the search finds for the documents, in their order, each searched by itself.
pub fn answers_found(
    alloc: Global,
    history: &Front<'_>,
    conflicts: Conflicts,
) -> Result<Vec<DocAnswer>, NoMemory>
    ensures { IfOk result (λ answers. AreAnswersFor conflicts history.now true (documents_of history.now) answers.items) }
{
    let seen = history.seen();
    let mut answers = Vec::with_capacity(alloc, history.docs())?;
    for doc in 0..history.docs() {
        answers.push(document_answer(alloc, history, doc, seen, conflicts)?)?;
    }
    Ok(answers)
}
