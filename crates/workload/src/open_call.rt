ghost use Rattle.std.specs.Prelude.{◌<◌};
ghost use Rattle.workload.specs.Plans.{most_docs};

use crate::target::Ticket;

/// A call that was recorded and submitted, and has no ending yet.
#[derive(Clone, Copy)]
pub struct OpenCall {
    /// The number of the call.
    pub no: u64,
    /// The number of its document.
    pub doc: u32,
    pub ticket: Ticket,
    ghost near: { doc < most_docs },
}
