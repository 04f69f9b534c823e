ghost use Rattle.std.specs.Prelude.{◌≡◌, false, length, map, vec_len, IfErr, IfOk, OnOk, None, Some, slice_get, slice_set};
ghost use Rattle.check_pool.specs.Answers.{AreAnswers};
ghost use Rattle.check_pool.specs.aids.Collected.{AreOfJobs, IsFaultOf};
ghost use Rattle.check_pool.specs.aids.Messages.{IsOfJob, IsSearched, nearest_number};
ghost use Rattle.check_pool.specs.aids.Slots.{AreEmpty, IsFirstEmpty, IsRefused};

use crate::doc_job::DocJob;
use crate::message::Message;
use crate::pool_fault::PoolFault;
use doc_check::DocAnswer;
use std::alloc::{AllocError, Global};

// A slot for the answer of each job.
fn empty_slots(alloc: Global, count: usize) -> Result<Vec<Option<DocAnswer>>, AllocError>
    ensures count { IfOk result (λ slots. vec_len slots ≡ count) }
    ensures empty { IfOk result (λ slots. AreEmpty slots.items) }
{
    let mut slots = Vec::with_capacity(alloc, count)?;
    for _ in 0..count {
        slots.push(None)?;
    }
    Ok(slots)
}

// The fault for a message that is of no job. It names a job: the one with the message's number, or the last
// one if no job has that number.
fn stranger(jobs: &[DocJob], doc: usize) -> PoolFault
    ensures { result ≡ PoolFault.Stranger (nearest_number jobs.now doc) }
{
    PoolFault::Stranger(doc.min(jobs.len().saturating_sub(1)))
}

// Puts the message's answer into the slot of its job.
fn take(jobs: &[DocJob], slots: &mut [Option<DocAnswer>], message: Message) -> Result<(), PoolFault>
    requires { length slots.old ≡ length jobs.now }
    ensures job { OnOk result (IsOfJob jobs.now message) }
    ensures free { OnOk result (slice_get slots.old message.doc ≡ Some None) }
    ensures searched { OnOk result (IsSearched message.answer) }
    ensures slots { OnOk result (slots.new ≡ slice_set slots.old message.doc (Some message.answer)) }
    ensures fault { IfErr result (IsRefused jobs.now slots.old message) }
{
    let doc = message.doc();
    let Some(job) = jobs.get(doc) else {
        return Err(stranger(jobs, doc));
    };
    if !message.is_about(job) {
        return Err(stranger(jobs, doc));
    }
    if slots[doc].is_some() {
        return Err(PoolFault::Double(doc));
    }
    slots[doc] = Some(message.into_answer());
    Ok(())
}

// The answers, if no slot is empty.
fn answers_of(alloc: Global, slots: Vec<Option<DocAnswer>>) -> Result<Vec<DocAnswer>, PoolFault>
    ensures ok { IfOk result (λ answers. slots.items ≡ map Some answers.items) }
    ensures fault { IfErr result (IsFirstEmpty slots.items) }
{
    let mut answers = Vec::with_capacity(alloc, slots.len())?;
    for slot in slots {
        let Some(answer) = slot else {
            return Err(PoolFault::Lost(answers.len()));
        };
        if answers.push(answer).is_err() {
            return Err(PoolFault::NoMemory);
        }
    }
    Ok(answers)
}

/// Returns the answers of the jobs, in the order of the jobs, from the messages of the workers in any order.
/// `starved` says that a worker was refused memory.
///
/// `Stranger` and `Double` are reported as the messages come; then `NoMemory`; then `Lost`, with the least
/// number.
pub fn collect(
    alloc: Global,
    jobs: &[DocJob],
    messages: Vec<Message>,
    starved: bool,
) -> Result<Vec<DocAnswer>, PoolFault>
    ensures ok { IfOk result (λ answers. AreAnswers jobs.now answers.items) }
    ensures complete { OnOk result ((starved ≡ false) × AreOfJobs jobs.now messages.items) }
    ensures fault { IfErr result (IsFaultOf jobs.now messages.items starved) }
{
    let mut slots = empty_slots(alloc, jobs.len())?;
    for message in messages {
        take(jobs, &mut slots, message)?;
    }
    if starved {
        return Err(PoolFault::NoMemory);
    }
    answers_of(alloc, slots)
}
