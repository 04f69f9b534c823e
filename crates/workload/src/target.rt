use doc_register::{Op, Reply};
use std::sync::Wait;
use thiserror::Error;
use version_pair::DocId;

/// The identifier of a submitted operation at its target.
#[derive(Clone, Copy, Debug, PartialEq, Eq)]
pub struct Ticket(pub u64);

/// What a poll reports of a submitted operation.
#[derive(Clone, Copy, Debug, PartialEq, Eq)]
pub enum Progress {
    /// It is not answered yet.
    Waiting,
    /// It has this reply.
    Done(Reply),
    /// Its outcome will never be known.
    Unknown,
}

/// The reason why a target refuses an operation, or reports nothing of one.
#[derive(Clone, Copy, Debug, PartialEq, Eq, Error)]
pub enum TargetFault {
    /// The target has given all its tickets.
    #[error("the target has given all its tickets")]
    Full,
    /// Memory was refused.
    #[error("no memory")]
    NoMemory,
}

/// A target, to which clients submit operations and which they poll for the outcomes, from any thread. What
/// its tickets and reports mean, and when it returns an error, is defined by each target.
pub trait Target {
    ghost use Rattle.std.specs.Prelude.{List, ℕ};
    ghost use Rattle.doc_register.specs.declared.op.Op.{Op};
    ghost use Rattle.workload.specs.declared.target.Progress.{Progress};
    ghost use Rattle.workload.specs.declared.target.Ticket.{Ticket};

    /// What this target may issue a ticket for: the ticket, the document, the operation.
    ghost issued: { Ticket → List ℕ → Op → Type 0 };

    /// What this target may report of a ticket.
    ghost gave: { Ticket → Progress → Type 0 };

    /// What holds if this target has given all its tickets.
    ghost all_given: { Type 0 } = { Unit {0} };

    ghost use Rattle.std.specs.Prelude.{◌≡◌, Err, IfErr, IfOk};

    /// Submits an operation on a document, and returns its ticket. It may wait. Errors: `Full`, `NoMemory`.
    fn submit<R: Wait>(&self, rt: &R, id: &DocId, op: &Op) -> Result<Ticket, TargetFault>
        // A ticket is one that this target may issue for the document and the operation.
        ensures ticket { IfOk result (λ ticket. issued ticket id.now op.now) }
        // The error is `Full` only if what this target says of it holds.
        ensures full { result ≡ Err TargetFault.Full → all_given };

    /// Returns what has become of a submitted operation, or that memory was refused. It may wait.
    fn poll<R: Wait>(&self, rt: &R, ticket: Ticket) -> Result<Progress, TargetFault>
        // What is reported is what this target may report of the ticket.
        ensures progress { IfOk result (λ progress. gave ticket progress) }
        // The only error is `NoMemory`.
        ensures refused { IfErr result (λ fault. fault ≡ TargetFault.NoMemory) };
}
