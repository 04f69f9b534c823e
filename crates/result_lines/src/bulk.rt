ghost use Rattle.std.specs.Prelude.{◌≡◌, IfOk, string_bytes};
ghost use Rattle.result_lines.specs.Lines.{bulk_fault_line as reported_line, refused_bulk_line};

use api_lines::BulkFault;
use std::alloc::{AllocError, Global};
use version_pair::NoMemory;

// Returns the line of a fault in a line of the body or of the reply.
fn refused_line(alloc: Global, line: u64, cause: &str) -> Result<String, NoMemory>
    ensures { IfOk result (λ text. string_bytes text ≡ refused_bulk_line line cause.now) }
{
    format!(in alloc; "refused line={line} cause={cause}\n")
}

/// Returns the line of a fault of a bulk request or its reply. A fault that is `NoMemory` has no line.
pub fn bulk_fault_line(alloc: Global, fault: BulkFault) -> Result<String, NoMemory>
    ensures { IfOk result (λ text. string_bytes text ≡ reported_line fault) }
{
    match fault {
        BulkFault::Syntax(line) => refused_line(alloc, line, "syntax"),
        BulkFault::Action(line) => refused_line(alloc, line, "action"),
        BulkFault::Source(line) => refused_line(alloc, line, "source"),
        BulkFault::Half(line) => refused_line(alloc, line, "half"),
        BulkFault::Range(line) => refused_line(alloc, line, "range"),
        BulkFault::Count => String::from_str(alloc, "refused cause=count\n"),
        BulkFault::Kind(item) => format!(in alloc; "refused item={item} cause=kind\n"),
        BulkFault::NoMemory => Err(AllocError),
    }
}
