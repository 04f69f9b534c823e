use crate::first_fault::{Fault, earlier, first_fault, first_twice};
use crate::given_again::{GivenAgain, given_again};
use crate::lost_writes::{Loss, loss_of};
use crate::performed_writes::PerformedWrites;
use doc_register::Conflicts;
use events::Rec;
use std::alloc::Global;
use version_pair::NoMemory;

// The greatest number of events after the broken reply with which a fault is complete at about the same time.
const SOON: usize = 16;

// Returns whether the fault is complete at about the same time as the broken reply at the event: with one of the next few
// events, or both its calls were made before.
fn is_soon(fault: &Fault, event: usize) -> bool {
    // A history has too few events for the sum to reach the greatest number.
    fault.made_at < event || fault.event <= event.saturating_add(SOON)
}

/// What is found of a document's calls without regard to what became of those without a reply.
#[derive(Clone, Copy)]
pub struct Findings {
    /// The first fault of one call or two that is no version given twice, and the first one that is.
    pub fault: Option<Fault>,
    pub twice: Option<Fault>,
    pub loss: Option<Loss>,
    /// The replies that gave a version again.
    pub again: Option<GivenAgain>,
}

/// Returns what is found of a document's calls.
pub fn findings_of(
    alloc: Global,
    records: &[Rec],
    conflicts: Conflicts,
) -> Result<Findings, NoMemory> {
    let writes = PerformedWrites::of(alloc, records, conflicts)?;
    Ok(Findings {
        fault: first_fault(&writes, records),
        twice: first_twice(&writes),
        loss: loss_of(alloc, &writes, records)?,
        again: given_again(&writes),
    })
}

impl Findings {
    /// Returns the loss, if an acknowledged write is gone whose reply stands before the event.
    pub fn gone_before(&self, event: usize) -> Option<Loss> {
        self.loss
            .filter(|loss| loss.builder.is_some() && loss.lost.first < event)
    }

    /// Returns the first fault.
    pub fn first(&self) -> Option<Fault> {
        earlier(self.fault, self.twice)
    }

    /// Returns the first fault, if it is complete at about the same time as the broken reply at the event; a version given
    /// twice only if there is no other.
    pub fn fault_soon(&self, event: usize) -> Option<Fault> {
        self.fault
            .filter(|fault| is_soon(fault, event))
            .or(self.twice.filter(|fault| is_soon(fault, event)))
    }
}
