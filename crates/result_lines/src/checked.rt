ghost use Rattle.std.specs.Prelude.{◌≡◌, IfOk, string_bytes};
ghost use Rattle.result_lines.specs.Lines.{before_name as shown_name, no_line as reported_no, refused_line as reported_refused, yes_line as reported_yes};

use crate::causes::cause_name;
use crate::text_counts::TextCounts;
use api_lines::TextFault;
use compose::Offence;
use std::alloc::Global;
use version_pair::NoMemory;

/// Returns the word that says whether the events before an offence have an order.
pub fn before_name(before_shown: bool) -> &'static str
    ensures { result.now ≡ shown_name before_shown }
{
    if before_shown { "shown" } else { "unshown" }
}

/// Returns the line of a history that an order explains.
pub fn yes_line(alloc: Global, counts: TextCounts) -> Result<String, NoMemory>
    ensures { IfOk result (λ line. string_bytes line ≡ reported_yes counts) }
{
    let TextCounts {
        docs,
        calls,
        left_out,
        ..
    } = counts;
    let end = counts.gets_end(alloc)?;
    let end = end.as_str();
    format!(in alloc; "yes docs={docs} calls={calls} left_out={left_out}{end}")
}

/// Returns the line of a history for which no order was found. It reports the reply at which the search first
/// failed.
pub fn no_line(alloc: Global, offence: Offence) -> Result<String, NoMemory>
    ensures { IfOk result (λ line. string_bytes line ≡ reported_no offence) }
{
    let Offence {
        event,
        call,
        before_shown,
    } = offence;
    let before = before_name(before_shown);
    format!(in alloc; "no event={event} call={call} before={before}\n")
}

/// Returns the line of a text that is refused.
pub fn refused_line(alloc: Global, fault: TextFault) -> Result<String, NoMemory>
    ensures { IfOk result (λ line. string_bytes line ≡ reported_refused fault.line fault.cause) }
{
    let number = fault.line;
    let cause = cause_name(fault.cause);
    format!(in alloc; "refused line={number} cause={cause}\n")
}
