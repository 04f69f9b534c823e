ghost use Rattle.std.specs.Prelude.{IfOk};
ghost use Rattle.report.specs.Bulk.{IsBulkAnswer};

use api_lines::BulkFault;
use history::bulk_text;
use result_lines::bulk_fault_line;
use std::alloc::{AllocError, Global};
use stream_io::{AnswerText, Status};
use version_pair::NoMemory;

// The status of every bulk whose reply is recorded.
const STATUS: u16 = 200;

/// Returns the answer to the body of a bulk request and its reply: their lines in a history, with the calls
/// numbered from `first`.
pub fn bulk_answer(
    alloc: Global,
    first: u64,
    body: &[u8],
    reply: &[u8],
) -> Result<AnswerText, NoMemory>
    ensures { IfOk result (λ answer. IsBulkAnswer first body.now reply.now answer.status
        answer.text.items) }
{
    match bulk_text(alloc, first, body, STATUS, reply) {
        Ok(text) => Ok(AnswerText {
            status: Status::Yes,
            text,
        }),
        Err(BulkFault::NoMemory) => Err(AllocError),
        Err(fault) => {
            let line = bulk_fault_line(alloc, fault)?;
            Ok(AnswerText::of(Status::Refused, line))
        }
    }
}
