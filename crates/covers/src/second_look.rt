ghost use Rattle.std.specs.Prelude.{IfOk, IfSome, false};
ghost use Rattle.doc_register.specs.declared.state.Conflicts.{Conflicts as Reading};
ghost use Rattle.events.specs.Events.{documents_of};
ghost use Rattle.covers.specs.aids.Searched.{AreAlike, AreKept, AreSearched, IsAlike, Keeps};
ghost use Rattle.covers.specs.Answered.{AreAnswersFor};

use crate::joined::witnesses_of;
use doc_check::{DocAnswer, OrderAmong, answer_among, is_complete};
use events::{Front, Seen};
use places::DocWitness;
use shard_numbers::{Gaps, ShownCalls, UsedPairs, shard_of};
use std::alloc::Global;
use version_pair::{NoMemory, Pair};

/// What a search of a document is given beside its calls.
#[derive(Clone, Copy)]
pub struct SearchContext<'a> {
    /// What is seen in the history.
    pub seen: Seen,
    /// The pairs that the documents of each shard use.
    pub used: &'a UsedPairs,
}

// Returns what the search forward finds for the document of an answer, given which pairs its shard uses; the
// answer itself if the search finds nothing.
fn second_answer(
    alloc: Global,
    answer: DocAnswer,
    seen: Seen,
    used: &[Pair],
) -> Result<DocAnswer, NoMemory>
    ensures { IfOk result (Keeps answer) }
{
    let id = answer.id().copy()?;
    let records = Vec::from_slice(alloc, answer.records())?;
    match answer_among(alloc, id, records, seen, answer.conflicts(), used)? {
        OrderAmong::Order(witness) => Ok(DocAnswer::Found(witness)),
        OrderAmong::Stuck(_) => Ok(answer),
    }
}

// Returns the answer, or, if its document has no order, what another search finds.
fn answer_again(
    alloc: Global,
    history: &Front<'_>,
    answer: DocAnswer,
    known: SearchContext<'_>,
) -> Result<DocAnswer, NoMemory>
    ensures { IfOk result (Keeps answer) }
{
    if matches!(&answer, DocAnswer::Found(_)) {
        return Ok(answer);
    }
    match shard_of(history, answer.id()) {
        Some(shard) => second_answer(alloc, answer, known.seen, known.used.of_shard(shard)),
        None => Ok(answer),
    }
}

// Returns the answers, with each document without an order searched again.
fn answers_again(
    alloc: Global,
    history: &Front<'_>,
    answers: Vec<DocAnswer>,
    known: SearchContext<'_>,
) -> Result<Vec<DocAnswer>, NoMemory>
    ensures { IfOk result (λ others. AreKept answers.items others.items) }
{
    let mut others = Vec::with_capacity(alloc, answers.len())?;
    for answer in answers {
        others.push(answer_again(alloc, history, answer, known)?)?;
    }
    Ok(others)
}

// Whether a document without an order leaves nothing to complete.
fn is_hopeless(answers: &[DocAnswer]) -> bool {
    for answer in answers {
        match answer {
            DocAnswer::Found(_) => {}
            DocAnswer::NotFound(none) => {
                if is_complete(none.records(), none.conflicts()) {
                    return true;
                }
            }
        }
    }
    false
}

// Returns the pairs that the calls of these documents show to be in use.
fn used_by(
    alloc: Global,
    history: &Front<'_>,
    answers: &[DocAnswer],
) -> Result<UsedPairs, NoMemory> {
    let mut documents = Vec::with_capacity(alloc, answers.len())?;
    for answer in answers {
        documents.push(ShownCalls {
            shard: shard_of(history, answer.id()),
            records: answer.records(),
        })?;
    }
    UsedPairs::shown(alloc, &documents)
}

/// Returns orders of all documents, with those without one searched again, given which pairs the documents of
/// their shards use. `None` if an order isn't found.
pub fn orders_again(
    alloc: Global,
    history: &Front<'_>,
    answers: Vec<DocAnswer>,
) -> Result<Option<Vec<DocWitness>>, NoMemory>
    ensures { IfOk result (λ found. IfSome found (λ ws. (conflicts : Reading)
        → AreAnswersFor conflicts history.now false (documents_of history.now) answers.items
        → AreSearched conflicts history.now false (documents_of history.now) ws.items)) }
{
    if is_hopeless(&answers) {
        return Ok(None);
    }
    let used = used_by(alloc, history, &answers)?;
    let known = SearchContext {
        seen: history.seen(),
        used: &used,
    };
    let others = answers_again(alloc, history, answers, known)?;
    witnesses_of(alloc, others)
}

// A witness after another search, and the reply at which the search was stuck, if it found nothing.
#[derive(Drop)]
struct SearchedWitness {
    witness: DocWitness,
    stuck: Option<usize>,
}

// Returns the witness, or, if it is asked for and the search forward finds another one of its document, given
// which pairs the documents of the shard use, that one.
fn witness_again(
    alloc: Global,
    history: &Front<'_>,
    witness: DocWitness,
    known: SearchContext<'_>,
    is_asked: bool,
) -> Result<SearchedWitness, NoMemory>
    ensures { IfOk result (λ again. IsAlike witness again.witness) }
{
    // Calling `places` makes it known from here on that its places are valid.
    let _ = witness.places();
    let shard = if is_asked {
        shard_of(history, witness.id())
    } else {
        None
    };
    let Some(shard) = shard else {
        return Ok(SearchedWitness {
            witness,
            stuck: None,
        });
    };
    let id = witness.id().copy()?;
    let records = Vec::from_slice(alloc, witness.records())?;
    let used = known.used.of_shard(shard);
    match answer_among(alloc, id, records, known.seen, witness.conflicts(), used)? {
        OrderAmong::Order(other) => Ok(SearchedWitness {
            witness: other,
            stuck: None,
        }),
        OrderAmong::Stuck(stuck) => Ok(SearchedWitness { witness, stuck }),
    }
}

/// The witnesses of all documents after another look, and the latest reply at which one of its searches was
/// stuck, if one found nothing.
#[derive(Drop)]
pub struct SecondLook {
    pub witnesses: Vec<DocWitness>,
    pub furthest: Option<usize>,
}

// Returns the witnesses, with those that are asked for searched again.
fn witnesses_again(
    alloc: Global,
    history: &Front<'_>,
    witnesses: Vec<DocWitness>,
    asked: &[bool],
    known: SearchContext<'_>,
) -> Result<SecondLook, NoMemory>
    ensures { IfOk result (λ look. AreAlike witnesses.items look.witnesses.items) }
{
    let mut others = Vec::with_capacity(alloc, witnesses.len())?;
    let mut furthest = None;
    for witness in witnesses {
        let is_asked = asked.get(others.len()) == Some(&true);
        let again = witness_again(alloc, history, witness, known, is_asked)?;
        furthest = furthest.max(again.stuck);
        others.push(again.witness)?;
    }
    Ok(SecondLook {
        witnesses: others,
        furthest,
    })
}

/// Returns the witnesses. Those that have one of these gaps are searched again.
pub fn with_gaps_again(
    alloc: Global,
    history: &Front<'_>,
    witnesses: Vec<DocWitness>,
    gaps: &Gaps,
    known: SearchContext<'_>,
) -> Result<SecondLook, NoMemory>
    ensures { IfOk result (λ look. AreAlike witnesses.items look.witnesses.items) }
{
    let mut asked = vec![in alloc; false; witnesses.len()]?;
    for gap in &gaps.list {
        if let Some(flag) = asked.get_mut(gap.witness) {
            *flag = true;
        }
    }
    witnesses_again(alloc, history, witnesses, &asked, known)
}
