ghost use Rattle.std.specs.Prelude.{IfOk};
ghost use Rattle.doc_check.specs.ReplyOrder.{IsReplyOrder};

use events::Rec;
use places::Place;
use std::alloc::Global;
use version_pair::NoMemory;
use write_chain::answers_of;

/// Returns response order: the answered records by the index of their reply, with no pair given.
pub fn reply_order(alloc: Global, records: &[Rec]) -> Result<Vec<Place>, NoMemory>
    ensures { IfOk result (λ places. IsReplyOrder records.now places.items) }
{
    let answers = answers_of(alloc, records)?;
    let mut places = Vec::with_capacity(alloc, answers.len())?;
    for i in 0..answers.len() {
        places.push(Place {
            rec: answers[i].rec,
            pair: None,
        })?;
    }
    Ok(places)
}
