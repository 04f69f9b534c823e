ghost use Rattle.std.specs.Prelude.{◌≢◌, IfErr};
ghost use Rattle.std.specs.Io.KnownBytes.{Keeps};
ghost use Rattle.stream_io.specs.Faults.{IsStreamFault};

use crate::files::open_both;
use crate::outcome::Outcome;
use report::{StreamFault, bulk_stream};
use std::alloc::Global;
use std::io::{Read, Write};
use std::rt::Files;

/// Writes the body of a bulk request and its reply, of these files, as lines of a history, as `report::bulk_stream`
/// does. The file `-` is the input.
///
/// Errors: `Read` if a file can't be opened; then those of `report::bulk_stream`.
pub fn bulk_files<R: Files + Eprint, I: Read + Drop, W: Write>(
    rt: &R,
    alloc: Global,
    body: &str,
    reply: &str,
    first: u64,
    input: I,
    writer: &mut W,
) -> Result<Outcome, StreamFault>
    // After any error but `Write` the writer holds what it held.
    ensures kept { IfErr result (λ fault. fault ≢ StreamFault.Write
        → Keeps (W.contents writer.old) (W.contents writer.new)) }
    // The only errors are `Read`, `Write` and `NoMemory`.
    ensures reported { IfErr result IsStreamFault }
{
    let (mut body_text, mut reply_text) = open_both(rt, body, reply, input)?;
    let status = bulk_stream(alloc, first, &mut body_text, &mut reply_text, writer)?;
    Ok(Outcome::Answered(status))
}
