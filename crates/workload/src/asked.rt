ghost use Rattle.std.specs.Prelude.{◌≡◌, IfOk};
ghost use Rattle.workload.specs.ClientRuns.{doc_name as name_of, op_of};

use crate::turn::{Kind, Turn};
use doc_register::Op;
use std::alloc::{AllocError, Global};
use version_pair::{DocId, IdFault, Pair};

impl Turn {
    /// Returns the operation of this turn, if this pair, or none, is known of its document. A write writes
    /// the number `k`.
    pub(crate) fn operation(self, seen: Option<Pair>, k: u64) -> Op
        ensures { result ≡ op_of self.kind seen k }
    {
        match (self.kind, seen) {
            (Kind::Get, _) | (Kind::PutIfSeen | Kind::DeleteIfSeen, None) => Op::Get,
            (Kind::Put, _) => Op::Index { k, cond: None },
            (Kind::PutIfSeen, Some(pair)) => Op::Index {
                k,
                cond: Some(pair),
            },
            (Kind::Delete, _) => Op::Delete { cond: None },
            (Kind::DeleteIfSeen, Some(pair)) => Op::Delete { cond: Some(pair) },
        }
    }
}

/// Returns the id of the document of this number: a `d`, and the number in decimal.
pub fn doc_name(alloc: Global, doc: u32) -> Result<DocId, AllocError>
    ensures { IfOk result (λ id. id ≡ name_of doc) }
{
    let name = format!(in alloc; "d{doc}")?;
    match DocId::new(alloc, name.as_str()) {
        Ok(id) => Ok(id),
        Err(IdFault::NoMemory) => Err(AllocError),
        Err(IdFault::Empty) => unreachable!(),
        Err(IdFault::TooLong) => unreachable!(),
    }
}
