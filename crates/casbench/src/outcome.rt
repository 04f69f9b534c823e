ghost use Rattle.std.specs.Prelude.{◌≡◌, ℕ, List};
ghost use Rattle.casbench.specs.Outcomes.{IsJudged, status_of};
ghost use Rattle.report.specs.Calls.{CountsCalls};

use report::Status;

/// What a command came to.
#[derive(Clone, Copy, PartialEq, Eq)]
pub enum Outcome {
    /// An answer with this status was written.
    Answered(Status),
    /// The answer yes was written, and the history has fewer calls than were asked for.
    TooFew,
}

/// Returns the outcome of an answer with this status, if at least so many calls are asked for. The number of
/// calls is known if the status is yes.
pub fn outcome_of(status: Status, calls: Option<usize>, at_least: u64) -> Outcome
    // It is that of an answer with the status.
    ensures status { status_of result ≡ status }
    // If the number of calls is that of a text, the outcome is that of a check of the text.
    ensures judged { (input : List ℕ) → CountsCalls input status calls → IsJudged at_least input result }
{
    match calls {
        Some(calls) if status == Status::Yes && (calls as u64) < at_least => Outcome::TooFew,
        _ => Outcome::Answered(status),
    }
}
