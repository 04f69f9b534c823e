ghost use Rattle.std.specs.Prelude.{◌≢◌, IfErr, IfOk, IsErrOf};
ghost use Rattle.std.specs.Io.KnownBytes.{Keeps};
ghost use Rattle.casbench.specs.Objects.{VerifiesInForm};
ghost use Rattle.stream_io.specs.Faults.{IsStreamFault};
ghost use Rattle.stream_io.specs.Written.{HasAnswer, HasPrefix};

use crate::files::open_both;
use crate::host::Host;
use crate::objects::verify_in_json;
use crate::outcome::Outcome;
use command_line::Form;
use readings::Reading;
use report::{Status, StreamFault, verify_stream};
use std::io::{Read, Write};
use std::rt::Files;
use std::time::Clock;

/// Checks the witness text of one reader against the history text of another, whose files have these names, and
/// answers in this form.
///
/// Errors: those of `report::verify_stream`.
pub fn verify_texts<C: Clock, T, R: Read, Q: Read, W: Write>(
    host: &Host<'_, C, T>,
    name: &str,
    witness_name: &str,
    history: &mut R,
    witness: &mut Q,
    writer: &mut W,
    form: Form,
    reading: Reading,
) -> Result<Status, StreamFault>
    // The writer holds, after what it held, what is written of these texts.
    ensures answered { IfOk result (λ status. HasAnswer (VerifiesInForm form name.now reading (R.remaining history.old) (Q.remaining witness.old) status)
        (W.contents writer.old) (W.contents writer.new)) }
    // After `Write` it then holds a prefix of that.
    ensures cut_off { IsErrOf result StreamFault.Write
        → HasPrefix (VerifiesInForm form name.now reading (R.remaining history.old) (Q.remaining witness.old))
        (W.contents writer.old) (W.contents writer.new) }
    // After any other error it holds what it held.
    ensures kept { IfErr result (λ fault. fault ≢ StreamFault.Write
        → Keeps (W.contents writer.old) (W.contents writer.new)) }
    // The only errors are `Read`, `Write` and `NoMemory`.
    ensures reported { IfErr result IsStreamFault }
{
    match form {
        Form::Lines => { verify_stream(host.alloc, host.keys, history, witness, writer, reading) }
        Form::Objects => {
            verify_in_json(host, name, witness_name, history, witness, writer, reading)
        }
    }
}

/// Checks the witness text of one file against the history text of another, as `report::verify_stream` does, and
/// answers in this form. The file `-` is the input.
///
/// Errors: `Read` if a file can't be opened; then those of `report::verify_stream`.
pub fn verify_files<R: Files + Eprint + Clock, T, I: Read + Drop, W: Write>(
    host: &Host<'_, R, T>,
    history: &str,
    witness: &str,
    input: I,
    writer: &mut W,
    form: Form,
    reading: Reading,
) -> Result<Outcome, StreamFault>
    // After any error but `Write` the writer holds what it held.
    ensures kept { IfErr result (λ fault. fault ≢ StreamFault.Write
        → Keeps (W.contents writer.old) (W.contents writer.new)) }
    // The only errors are `Read`, `Write` and `NoMemory`.
    ensures reported { IfErr result IsStreamFault }
{
    let (mut first, mut second) = open_both(host.rt, history, witness, input)?;
    let status = verify_texts(
        host,
        history,
        witness,
        &mut first,
        &mut second,
        writer,
        form,
        reading,
    )?;
    Ok(Outcome::Answered(status))
}
