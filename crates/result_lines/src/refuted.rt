ghost use Rattle.std.specs.Prelude.{◌≡◌, IfOk, string_bytes};
ghost use Rattle.result_lines.specs.Lines.{both_numbers, broken_get_line as reported_broken, kind_name as reported_kind, call_numbers as reported_calls, refuted_line as reported_line};

use crate::checked::before_name;
use compose::{Offence, Refuted};
use std::alloc::Global;
use version_pair::NoMemory;

/// Returns the printed name of a kind of evidence.
pub fn kind_name(evidence: Refuted) -> &'static str
    ensures { result.now ≡ reported_kind evidence }
{
    match evidence {
        Refuted::PairTwice(_, _) => "pair-twice",
        Refuted::NoWriter(_) => "no-writer",
        Refuted::StaleGet(_, _) => "stale-get",
        Refuted::MissedWrite(_, _) => "missed-write",
        Refuted::StaleSwap(_, _) => "stale-swap",
        Refuted::RuledOut(_) => "ruled-out",
    }
}

// Returns the numbers of two calls, with a comma between.
fn numbers(alloc: Global, one: u64, two: u64) -> Result<String, NoMemory>
    ensures { IfOk result (λ text. string_bytes text ≡ both_numbers one two) }
{
    format!(in alloc; "{one},{two}")
}

// Returns the numbers of the calls that evidence names.
fn call_numbers(alloc: Global, evidence: Refuted) -> Result<String, NoMemory>
    ensures { IfOk result (λ text. string_bytes text ≡ reported_calls evidence) }
{
    match evidence {
        Refuted::PairTwice(one, two) => numbers(alloc, one, two),
        Refuted::NoWriter(call) | Refuted::RuledOut(call) => format!(in alloc; "{call}"),
        Refuted::StaleGet(get, write) | Refuted::MissedWrite(get, write) => {
            numbers(alloc, get, write)
        }
        Refuted::StaleSwap(one, two) => numbers(alloc, one, two),
    }
}

/// Returns the line of evidence against a history. It also reports the reply at which the search first
/// failed.
pub fn refuted_line(alloc: Global, evidence: Refuted, offence: Offence) -> Result<String, NoMemory>
    ensures { IfOk result (λ line. string_bytes line ≡ reported_line evidence offence) }
{
    let Offence {
        event,
        call,
        before_shown,
    } = offence;
    let kind = kind_name(evidence);
    let calls = call_numbers(alloc, evidence)?;
    let calls = calls.as_str();
    let before = before_name(before_shown);
    format!(in alloc;
        "refuted kind={kind} calls={calls} event={event} call={call} before={before}\n"
    )
}

/// Returns the line of a witness that covers its history, if nothing explains a get, which is judged by itself.
pub fn broken_get_line(alloc: Global, evidence: Refuted) -> Result<String, NoMemory>
    ensures { IfOk result (λ line. string_bytes line ≡ reported_broken evidence) }
{
    let kind = kind_name(evidence);
    let calls = call_numbers(alloc, evidence)?;
    let calls = calls.as_str();
    format!(in alloc; "broken cause={kind} calls={calls}\n")
}
