ghost use Rattle.std.specs.Prelude.{◌≡◌, ◌≢◌, true, IfErr, IfOk, IsErrOf, option_map};
ghost use Rattle.std.specs.Io.KnownBytes.{Keeps};
ghost use Rattle.casbench.specs.Input.{name_of, names_input};
ghost use Rattle.casbench.specs.Objects.{WitnessesInForm};
ghost use Rattle.casbench.specs.Outcomes.{IsAnswerWith};
ghost use Rattle.stream_io.specs.Faults.{IsStreamFault};
ghost use Rattle.stream_io.specs.Written.{HasAnswer, HasPrefix};

use crate::files::{INPUT, open_or};
use crate::host::Host;
use crate::objects::witness_in_json;
use crate::outcome::Outcome;
use command_line::Form;
use readings::Reading;
use report::{RulingOut, Status, StreamFault, witness_stream};
use std::io::{Read, Write};
use std::rt::Files;
use std::time::Clock;

// Returns the name of the history: that of its file, or `-`.
fn text_name<'a>(file: Option<&'a str>) -> &'a str
    ensures { result.now ≡ name_of (option_map (λ t. t.now) file.entry) }
{
    file.unwrap_or(INPUT)
}

// Writes the witness of the history that a reader has, under this name; or why there is none, in this form.
fn witness_in_form<R: Clock, T, H: Read, W: Write>(
    host: &Host<'_, R, T>,
    name: &str,
    history: &mut H,
    writer: &mut W,
    form: Form,
    reading: Reading,
    ruling_out: RulingOut,
) -> Result<Status, StreamFault>
    ensures answered { IfOk result (λ status. HasAnswer (WitnessesInForm form name.now ruling_out reading (H.remaining history.old) status)
        (W.contents writer.old) (W.contents writer.new)) }
    ensures cut_off { IsErrOf result StreamFault.Write
        → HasPrefix (WitnessesInForm form name.now ruling_out reading (H.remaining history.old))
        (W.contents writer.old) (W.contents writer.new) }
    ensures kept { IfErr result (λ fault. fault ≢ StreamFault.Write
        → Keeps (W.contents writer.old) (W.contents writer.new)) }
    ensures reported { IfErr result IsStreamFault }
{
    match form {
        Form::Lines => witness_stream(host.alloc, host.keys, history, writer, reading, ruling_out),
        Form::Objects => witness_in_json(host, name, history, writer, reading, ruling_out),
    }
}

/// Writes the witness of the history of the file, or of the input, as `report::witness_stream` does; or why there is
/// none, in this form.
///
/// Errors: `Read` if the file can't be opened; then those of `report::witness_stream`.
pub fn witness_file<R: Files + Eprint + Clock, T, I: Read + Drop, W: Write>(
    host: &Host<'_, R, T>,
    file: Option<&str>,
    input: I,
    writer: &mut W,
    form: Form,
    reading: Reading,
    ruling_out: RulingOut,
) -> Result<Outcome, StreamFault>
    // If no file is named, or `-`, the writer holds what is written of the input, after what it held.
    ensures answered { names_input (option_map (λ t. t.now) file.entry) ≡ true
        → IfOk result (IsAnswerWith (λ status. HasAnswer (WitnessesInForm form (name_of (option_map (λ t. t.now) file.entry)) ruling_out reading (I.remaining input) status)
        (W.contents writer.old) (W.contents writer.new))) }
    // After `Write` it then holds a prefix of that.
    ensures cut_off { IsErrOf result StreamFault.Write → names_input (option_map (λ t. t.now) file.entry) ≡ true
        → HasPrefix (WitnessesInForm form (name_of (option_map (λ t. t.now) file.entry)) ruling_out reading (I.remaining input))
        (W.contents writer.old) (W.contents writer.new) }
    // After any other error it holds what it held.
    ensures kept { IfErr result (λ fault. fault ≢ StreamFault.Write
        → Keeps (W.contents writer.old) (W.contents writer.new)) }
    // The only errors are `Read`, `Write` and `NoMemory`.
    ensures reported { IfErr result IsStreamFault }
{
    let mut history = open_or(host.rt, file, input)?;
    match witness_in_form(
        host,
        text_name(file),
        &mut history,
        writer,
        form,
        reading,
        ruling_out,
    ) {
        Ok(status) => Ok(Outcome::Answered(status)),
        Err(fault) => Err(fault),
    }
}
