ghost use Rattle.std.specs.Prelude.{◌≡◌};
ghost use Rattle.api_lines.specs.Fields.{line_seen};
ghost use Rattle.api_lines.specs.HistoryLines.{call_parsed, line_parsed, lost_parsed, op_numbers as numbers_of_line, op_parsed, reply_parsed, shard_parsed, status_parsed, void_parsed};

use crate::fields::LineFields;
use crate::ids::document_id;
use crate::number::{Number, pair_of_numbers};
use crate::text_fault::TextCause;
use doc_register::Op;
use version_pair::{IdText, SHARDS};

/// The numbers of a call's operation, before their ranges are checked.
#[derive(Clone, Copy, PartialEq, Eq)]
pub enum OpNumbers {
    Get,
    Index {
        k: Number,
        seq: Option<Number>,
        term: Option<Number>,
    },
    Delete {
        seq: Option<Number>,
        term: Option<Number>,
    },
    Create {
        k: Number,
    },
}

/// What a line of a history text says by itself.
#[derive(Debug, Drop)]
pub enum LineSaid<'l> {
    /// A call with its number, its shard below 1,024, the document's id and the operation.
    Call {
        no: u64,
        shard: u32,
        id: IdText<'l>,
        op: Op,
    },
    /// A reply to the call with this number, with its status. What it reports depends on its body and its
    /// call.
    Reply {
        no: u64,
        status: u16,
    },
    /// The call with this number got no reply: its outcome is lost (indeterminate).
    Lost {
        no: u64,
    },
}

impl OpNumbers {
    // The operation: first `Half` of its condition, then `Range`.
    fn op(self) -> Result<Op, TextCause>
        ensures { result ≡ op_parsed self }
    {
        match self {
            OpNumbers::Get => Ok(Op::Get),
            OpNumbers::Index { k, seq, term } => {
                let cond = pair_of_numbers(seq, term)?;
                let k = k.whole()?;
                Ok(Op::Index { k, cond })
            }
            OpNumbers::Delete { seq, term } => {
                let cond = pair_of_numbers(seq, term)?;
                Ok(Op::Delete { cond })
            }
            OpNumbers::Create { k } => {
                let k = k.whole()?;
                Ok(Op::Create { k })
            }
        }
    }
}

// The numbers of the operation of a call, if all are of the right kind, or `Shape`.
fn op_numbers(line: &LineFields<'_>) -> Result<OpNumbers, TextCause>
    ensures { result ≡ numbers_of_line (line_seen line.now) }
{
    match line.op.required_text()? {
        "get" => Ok(OpNumbers::Get),
        "index" => Ok(OpNumbers::Index {
            k: line.k.required_number()?,
            seq: line.if_seq_no.optional_number()?,
            term: line.if_primary_term.optional_number()?,
        }),
        "delete" => Ok(OpNumbers::Delete {
            seq: line.if_seq_no.optional_number()?,
            term: line.if_primary_term.optional_number()?,
        }),
        "create" => Ok(OpNumbers::Create {
            k: line.k.required_number()?,
        }),
        _ => Err(TextCause::Shape),
    }
}

// The shard of a call: 0 if it is not named, `Range` from 1,024 on.
fn shard(field: Option<Number>) -> Result<u32, TextCause>
    ensures { result ≡ shard_parsed field }
{
    let Some(number) = field else {
        return Ok(0);
    };
    let shard = number.whole()?;
    if shard < SHARDS {
        Ok(shard as u32)
    } else {
        Err(TextCause::Range)
    }
}

// The status of a reply, or `Range` from 65,536 on.
fn status(number: Number) -> Result<u16, TextCause>
    ensures { result ≡ status_parsed number }
{
    let status = number.whole()?;
    if status < 65_536 {
        Ok(status as u16)
    } else {
        Err(TextCause::Range)
    }
}

/// Returns the call that a line gives. Errors, in this order: `Shape` for all fields that count, `Id`,
/// `Half`, `Range`.
pub fn call_of<'l>(line: &LineFields<'l>) -> Result<LineSaid<'l>, TextCause>
    // The call or the first cause is that of the definition.
    ensures { result ≡ call_parsed (line_seen line.now) }
{
    let number = line.n.required_number()?;
    let name = line.id.required_text()?;
    let numbers = op_numbers(line)?;
    let named_shard = line.shard.optional_number()?;
    let id = document_id(name)?;
    let op = numbers.op()?;
    let no = number.whole()?;
    let shard = shard(named_shard)?;
    Ok(LineSaid::Call { no, shard, id, op })
}

/// Returns the reply that a line gives. Errors, in this order: `Shape`, `Range`.
pub fn reply_of<'l>(line: &LineFields<'l>) -> Result<LineSaid<'l>, TextCause>
    // The reply or the first cause is that of the definition.
    ensures { result ≡ reply_parsed (line_seen line.now) }
{
    let number = line.n.required_number()?;
    let status_number = line.status.required_number()?;
    let no = number.whole()?;
    let status = status(status_number)?;
    Ok(LineSaid::Reply { no, status })
}

/// Returns the end without a reply that a line gives. Errors, in this order: `Shape`, `Range`.
pub fn lost_of<'l>(line: &LineFields<'l>) -> Result<LineSaid<'l>, TextCause>
    // The end or the first cause is that of the definition.
    ensures { result ≡ lost_parsed (line_seen line.now) }
{
    let number = line.n.required_number()?;
    let no = number.whole()?;
    Ok(LineSaid::Lost { no })
}

/// Returns what a lost line says of being void, that is, of nothing having been performed: `None` if it does
/// not say, and of any other line. `line_said` ignores this field. Errors: `Shape` if it is neither true nor
/// false.
pub fn void_of(line: &LineFields<'_>) -> Result<Option<bool>, TextCause>
    // What is said or the cause is that of the definition.
    ensures { result ≡ void_parsed (line_seen line.now) }
{
    if line.e.is_text("lost") {
        line.void.optional_bool()
    } else {
        Ok(None)
    }
}

/// Returns what a line of a history text says by itself. Errors, in this order: `Shape` for all fields that
/// count, also for an unknown text as `e` or `op`; `Id`, `Half`, `Range`.
pub fn line_said<'l>(line: &LineFields<'l>) -> Result<LineSaid<'l>, TextCause>
    // What is said or the first cause is that of the definition.
    ensures { result ≡ line_parsed (line_seen line.now) }
{
    match line.e.required_text()? {
        "call" => call_of(line),
        "reply" => reply_of(line),
        "lost" => lost_of(line),
        _ => Err(TextCause::Shape),
    }
}
