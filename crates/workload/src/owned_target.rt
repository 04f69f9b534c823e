use crate::target::{Progress, TargetFault, Ticket};
use doc_register::Op;
use version_pair::DocId;

/// A target that one caller owns. Nobody else asks it, so contracts see how each submission and each poll
/// changes it. When it returns an error, and what that leaves, each target says for itself.
pub trait OwnedTarget {
    ghost use Rattle.std.specs.Prelude.{List, ℕ};
    ghost use Rattle.doc_register.specs.declared.op.Op.{Op};
    ghost use Rattle.workload.specs.declared.target.Progress.{Progress};
    ghost use Rattle.workload.specs.declared.target.Ticket.{Ticket};

    /// The state of this target after it returned a ticket for an operation on a document.
    ghost takes: { Self → List ℕ → Op → Ticket → Self → Type 0 };

    /// The state of this target after it reported this progress of a ticket.
    ghost reports: { Self → Ticket → Progress → Self → Type 0 };

    ghost use Rattle.std.specs.Prelude.{◌≡◌, IfErr, IfOk};

    /// Submits an operation on a document, and returns its ticket. Errors: `Full`, `NoMemory`.
    fn submit(&mut self, id: &DocId, op: &Op) -> Result<Ticket, TargetFault>
        // After a ticket the target is in a state to which `takes` leads from the one before.
        ensures takes { IfOk result (λ ticket. takes self.old id.now op.now ticket self.new) };

    /// Returns what has become of a submitted operation, or that memory was refused.
    fn poll(&mut self, ticket: Ticket) -> Result<Progress, TargetFault>
        // After a report the target is in a state to which `reports` leads from the one before.
        ensures reports { IfOk result (λ progress. reports self.old ticket progress self.new) }
        // The only error is `NoMemory`.
        ensures refused { IfErr result (λ fault. fault ≡ TargetFault.NoMemory) };
}
