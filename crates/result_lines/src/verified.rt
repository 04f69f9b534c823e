ghost use Rattle.std.specs.Prelude.{◌≡◌, IfOk, codes, string_bytes};
ghost use Rattle.result_lines.specs.Lines.{refused_file_line, verified_line as reported_line};

use crate::causes::cause_name;
use crate::text_counts::TextCounts;
use api_lines::TextFault;
use std::alloc::Global;
use version_pair::NoMemory;

/// Returns the line of a witness that covers its history.
pub fn verified_line(alloc: Global, counts: TextCounts) -> Result<String, NoMemory>
    ensures { IfOk result (λ line. string_bytes line ≡ reported_line counts) }
{
    let TextCounts {
        docs,
        calls,
        left_out,
        ..
    } = counts;
    let end = counts.gets_end(alloc)?;
    let end = end.as_str();
    format!(in alloc; "verified docs={docs} calls={calls} left_out={left_out}{end}")
}

/// Returns the line of a history text that is refused, for commands that read two texts.
pub fn refused_history_line(alloc: Global, fault: TextFault) -> Result<String, NoMemory>
    ensures { IfOk result (λ line. string_bytes line
        ≡ refused_file_line (codes "history") fault.line fault.cause) }
{
    let number = fault.line;
    let cause = cause_name(fault.cause);
    format!(in alloc; "refused file=history line={number} cause={cause}\n")
}

/// Returns the line of a witness text that is refused, for commands that read two texts.
pub fn refused_witness_line(alloc: Global, fault: TextFault) -> Result<String, NoMemory>
    ensures { IfOk result (λ line. string_bytes line
        ≡ refused_file_line (codes "witness") fault.line fault.cause) }
{
    let number = fault.line;
    let cause = cause_name(fault.cause);
    format!(in alloc; "refused file=witness line={number} cause={cause}\n")
}
