ghost use Rattle.std.specs.Prelude.{◌≡◌};
ghost use Rattle.repl_group.specs.Operations.{is_get as reads, unconditional as without_condition};

use crate::held_write::HeldWrite;
use doc_register::{DocState, Op, Reply};
use version_pair::Pair;

/// How far the operation of a ticket has come.
#[derive(Clone, Copy, Debug, PartialEq, Eq)]
pub enum Stage {
    /// It was not served yet.
    Queued,
    /// It is a write that the primary performed with this pair; the second value is the document before it.
    InFlight(Pair, DocState),
    /// It is answered.
    Answered(Reply),
    /// It is a write that was in flight with this pair when another copy became the primary. It is never
    /// answered.
    Lost(Pair),
}

impl Stage {
    ghost use Rattle.repl_group.specs.Requests as requests;

    /// Returns whether it was not served yet.
    pub fn is_queued(self) -> bool
        ensures { result ≡ requests.is_queued self }
    {
        matches!(self, Stage::Queued)
    }

    /// Returns the pair that the write took and the document before it, if it is in flight.
    pub fn flight(self) -> Option<(Pair, DocState)>
        ensures { result ≡ requests.flight_of self }
    {
        match self {
            Stage::InFlight(pair, before) => Some((pair, before)),
            Stage::Queued | Stage::Answered(_) | Stage::Lost(_) => None,
        }
    }

    /// Returns the reply, if there is one.
    pub fn answer(self) -> Option<Reply>
        ensures { result ≡ requests.answer_in self }
    {
        match self {
            Stage::Answered(reply) => Some(reply),
            Stage::Queued | Stage::InFlight(..) | Stage::Lost(_) => None,
        }
    }
}

/// What a ticket refers to: an operation on a document, which is given by its number.
#[derive(Clone, Copy, Debug, PartialEq, Eq)]
pub struct Request {
    pub doc: usize,
    pub op: Op,
    pub stage: Stage,
}

impl Request {
    ghost use Rattle.repl_group.specs.Group.{write_of};

    /// Returns the write that it asks for, with a pair.
    pub fn write(self, pair: Pair) -> HeldWrite
        ensures { result ≡ write_of self pair }
    {
        HeldWrite {
            doc: self.doc,
            op: self.op,
            pair,
        }
    }
}

/// Returns whether the operation is a get.
pub fn is_get(op: Op) -> bool
    ensures { result ≡ reads op }
{
    matches!(op, Op::Get)
}

/// Returns the operation without its condition, if it has one.
pub fn unconditional(op: Op) -> Op
    ensures { result ≡ without_condition op }
{
    match op {
        Op::Get => Op::Get,
        Op::Index { k, .. } => Op::Index { k, cond: None },
        Op::Delete { .. } => Op::Delete { cond: None },
        Op::Create { k } => Op::Create { k },
    }
}
