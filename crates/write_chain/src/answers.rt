ghost use Rattle.std.specs.Prelude.{◌≡◌, ◌<◌, All, IfOk, length};
ghost use Rattle.write_chain.specs.AnsweredCalls.{AreAnsweredCalls, answers_from};

use crate::nearly_ordered::sort_nearly_ordered;
use events::Rec;
use std::alloc::Global;
use version_pair::NoMemory;

/// An answered call. The one whose reply comes first is the least.
#[derive(Clone, Copy, PartialEq, Eq, PartialOrd, Ord)]
pub struct AnsweredRec {
    /// The position of its reply.
    pub reply_at: usize,
    /// The number of its record.
    pub rec: usize,
}

// The answered calls in the order of their records.
fn answered_calls(alloc: Global, records: &[Rec]) -> Result<Vec<AnsweredRec>, NoMemory>
    ensures calls { IfOk result (λ answers. answers.items ≡ answers_from 0 records.now) }
    ensures within { IfOk result (λ answers. All (λ answer. answer.rec < length records.now) answers.items) }
{
    let mut answers = Vec::new(alloc);
    for k in 0..records.len() {
        if let Some(heard) = records[k].heard {
            answers.push(AnsweredRec {
                reply_at: heard.0,
                rec: k,
            })?;
        }
    }
    Ok(answers)
}

/// Returns the answered calls in response order.
pub fn answers_of(alloc: Global, records: &[Rec]) -> Result<Vec<AnsweredRec>, NoMemory>
    // They are the answered calls of the records, each once, in the order of their replies.
    ensures calls { IfOk result (λ answers. AreAnsweredCalls records.now answers.items) }
    // Each number is that of a record.
    ensures within { IfOk result (λ answers. All (λ answer. answer.rec < length records.now) answers.items) }
{
    let mut answers = answered_calls(alloc, records)?;
    sort_nearly_ordered(&mut answers);
    Ok(answers)
}
