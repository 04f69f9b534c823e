//! Writes without a reply and without a condition, and how many of them were made.

ghost use Rattle.std.specs.Prelude.{◌≡◌, ◌&&◌, nat_lt, suc, cond};
ghost use Rattle.deciding.specs.Steps.{is_lost_delete, is_lost_make, is_plain_delete, is_plain_make, is_unanswered};

use doc_register::{Op, Reply};
use events::Rec;

// Whether the call has no reply.
fn is_unanswered(heard: Option<(usize, Reply)>) -> bool
    ensures { result ≡ is_unanswered heard }
{
    match heard {
        None => true,
        Some(_) => false,
    }
}

// Whether the operation is a delete without a condition.
fn is_plain_delete(op: Op) -> bool
    ensures { result ≡ is_plain_delete op }
{
    match op {
        Op::Delete { cond: None } => true,
        Op::Get | Op::Index { .. } | Op::Delete { cond: Some(_) } | Op::Create { .. } => false,
    }
}

// Whether the operation is an index without a condition, or a create.
fn is_plain_make(op: Op) -> bool
    ensures { result ≡ is_plain_make op }
{
    match op {
        Op::Index { cond: None, .. } | Op::Create { .. } => true,
        Op::Get | Op::Index { cond: Some(_), .. } | Op::Delete { .. } => false,
    }
}

/// Returns whether the call is a delete without a reply and without a condition.
pub fn is_lost_delete(call: Rec) -> bool
    ensures { result ≡ is_lost_delete call }
{
    is_unanswered(call.heard) && is_plain_delete(call.op)
}

/// Returns whether the call is an index or a create without a reply and without a condition.
pub fn is_lost_make(call: Rec) -> bool
    ensures { result ≡ is_lost_make call }
{
    is_unanswered(call.heard) && is_plain_make(call.op)
}

/// How many writes without a reply and without a condition were made.
#[derive(Clone, Copy)]
pub struct Made {
    /// The deletes.
    pub deletes: usize,
    /// The indexes and creates.
    pub makes: usize,
}

// The count with one more if that is so, unless it is as great as it can be.
fn counted(count: usize, is: bool, most: usize) -> usize
    ensures { result ≡ cond (is && nat_lt count most) (suc count) count }
{
    if is && count < most { count + 1 } else { count }
}

impl Made {
    /// Returns how many were made after the call was, which is one of so many.
    pub fn with(self, call: Rec, most: usize) -> Made
        ensures deletes { result.deletes ≡ cond (is_lost_delete call && nat_lt self.deletes most) (suc self.deletes) self.deletes }
        ensures makes { result.makes ≡ cond (is_lost_make call && nat_lt self.makes most) (suc self.makes) self.makes }
    {
        Made {
            deletes: counted(self.deletes, is_lost_delete(call), most),
            makes: counted(self.makes, is_lost_make(call), most),
        }
    }
}
