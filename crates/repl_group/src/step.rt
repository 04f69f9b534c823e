use doc_register::Op;
use version_pair::DocId;

/// One step of a replication group. Tickets and copies are given by their numbers, from 0.
#[derive(Debug, Drop)]
pub enum Step {
    /// An operation on a document is submitted.
    Submit(DocId, Op),
    /// The operation of a ticket is served.
    Serve(u64),
    /// The write of a ticket is copied to a copy.
    Copy(u64, u32),
    /// The write of a ticket is acknowledged.
    Ack(u64),
    /// A copy is cut off.
    Cut(u32),
    /// A copy is reached again.
    Heal(u32),
    /// A copy that is cut off is removed from the copies in sync.
    Drop(u32),
    /// A copy becomes the primary.
    Promote(u32),
}

/// The answer to a step.
#[derive(Clone, Copy, Debug, PartialEq, Eq)]
pub enum Answer {
    /// The operation was submitted under this ticket.
    Ticket(u64),
    /// The step was done.
    Done,
    /// The operation waits for a write in flight on its document.
    Waits,
    /// The step cannot be done now, or there is no such ticket or copy.
    NotNow,
    /// There are 524,288 tickets.
    Full,
}
