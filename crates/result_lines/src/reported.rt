ghost use Rattle.std.specs.Prelude.{◌≡◌, IfOk, string_bytes};
ghost use Rattle.result_lines.specs.Objects.{line_of};

use crate::broken::broken_line;
use crate::checked::{no_line, refused_line, yes_line};
use crate::refuted::{broken_get_line, refuted_line};
use crate::text_counts::TextCounts;
use crate::verified::{refused_history_line, refused_witness_line, verified_line};
use api_lines::TextFault;
use compose::{Offence, Refuted, VerifyFault};
use std::alloc::Global;
use version_pair::NoMemory;

/// What a line reports.
#[derive(Clone, Copy, Debug, PartialEq, Eq)]
pub enum Reported {
    /// An order explains the history, with these counts.
    Yes(TextCounts),
    /// No order was found; the search first fails at this reply.
    No(Offence),
    /// There is evidence that no order explains the history; the search first fails at this reply.
    Refuted(Refuted, Offence),
    /// The text is no history text.
    Refused(TextFault),
    /// The witness covers the history, with these counts.
    Verified(TextCounts),
    /// Of a history text and a witness text the first is no history text.
    RefusedHistory(TextFault),
    /// The second is no witness text.
    RefusedWitness(TextFault),
    /// The witness doesn't cover the history.
    Broken(VerifyFault),
    /// The witness covers the history, and nothing explains a get, which is judged by itself.
    BrokenGet(Refuted),
}

impl Reported {
    /// Returns the line that reports it. A fault of a witness that is `NoMemory` has no line.
    pub fn line(self, alloc: Global) -> Result<String, NoMemory>
        // It is the line of the definition.
        ensures { IfOk result (λ line. string_bytes line ≡ line_of self) }
    {
        match self {
            Reported::Yes(counts) => yes_line(alloc, counts),
            Reported::No(offence) => no_line(alloc, offence),
            Reported::Refuted(evidence, offence) => refuted_line(alloc, evidence, offence),
            Reported::Refused(fault) => refused_line(alloc, fault),
            Reported::Verified(counts) => verified_line(alloc, counts),
            Reported::RefusedHistory(fault) => refused_history_line(alloc, fault),
            Reported::RefusedWitness(fault) => refused_witness_line(alloc, fault),
            Reported::Broken(fault) => broken_line(alloc, fault),
            Reported::BrokenGet(evidence) => broken_get_line(alloc, evidence),
        }
    }
}
