//! Answers that are written as objects of JSON.

ghost use Rattle.std.specs.Prelude.{◌≡◌, ◌≢◌, IfErr, IfOk, IfSome, IsErrOf, ℕ, List, Option as Maybe, Some as Just};
ghost use Rattle.std.specs.Io.KnownBytes.{Keeps};
ghost use Rattle.readings.specs.declared.reading.Reading.{Reading as ReadingOf};
ghost use Rattle.evidence.specs.declared.ruling_out.RulingOut.{RulingOut as Ruling};
ghost use Rattle.casbench.specs.Objects.{ExplainsInJson, IsObjectOn, IsWitnessInJson, VerifiesInJson, WitnessesInJson};
ghost use Rattle.report.specs.Details.{IsOfVerify, IsProvedOf};
ghost use Rattle.report.specs.Verdict.{LeavesUnread};
ghost use Rattle.report.specs.Witnessed.{IsWitnessedBy};
ghost use Rattle.result_lines.specs.Objects.{line_of};
ghost use Rattle.report.specs.Workers.{AreWorkers};
ghost use Rattle.stream_io.specs.Faults.{IsCheckFault, IsStreamFault};
ghost use Rattle.stream_io.specs.Written.{HasAnswer, HasPrefix};

use crate::host::Host;
use crate::named_reading::named_reading;
use crate::stopwatch::Stopwatch;
use readings::Reading;
use report::{
    AnswerText, CheckOptions, CheckProgress, Details, ExplainedDetails, Kept, PageOptions,
    RulingOut, Status, StreamFault, Witnessed, explained_details, status_of, verify_reported,
    witness_details, write_answer,
};
use result_lines::{Facts, Reported, object_line};
use std::alloc::{AllocError, Global};
use std::io::{Read, Write};
use std::sync::Wait;
use std::thread::Threads;
use std::time::Clock;

/// Returns the object of what was found in the text of this name, with what explains it, if that is asked for.
pub fn details_object<'a>(
    alloc: Global,
    name: &'a str,
    details: Details,
    reading: Reading,
    explanation: Option<&'a str>,
    milliseconds: Option<u64>,
) -> Result<Vec<u8>, AllocError>
    ensures { IfOk result (λ text. (input : Maybe (List ℕ))
        → IfSome input (λ bytes. IsProvedOf reading bytes details.reported details.proved)
        → IsObjectOn reading name.now input (line_of details.reported) text.items) }
{
    let facts = Facts {
        file: name,
        witness: None,
        proved: details.proved,
        reading: named_reading(reading),
        broken_reply: details.broken_reply,
        explanation,
        milliseconds,
    };
    object_line(alloc, &details.reported, &facts)
}

// Returns the text that is written of a witness, or the object of what was found in its place, with the certificate
// after it.
fn witnessed_answer(
    alloc: Global,
    name: &str,
    found: Witnessed,
    reading: Reading,
    milliseconds: Option<u64>,
) -> Result<AnswerText, AllocError>
    ensures { IfOk result (λ answer. (ruling : Ruling) (input : List ℕ)
        → IsWitnessedBy ruling reading input found
        → IsWitnessInJson name.now ruling reading input answer.status answer.text.items) }
{
    match found {
        Witnessed::Text(text) => Ok(AnswerText {
            status: Status::Yes,
            text,
        }),
        Witnessed::Answered(details, certificate) => {
            let status = status_of(&details.reported);
            let mut text = details_object(alloc, name, details, reading, None, milliseconds)?;
            text.extend_from_slice(&certificate)?;
            Ok(AnswerText { status, text })
        }
    }
}

/// Writes the witness of a history as `report::witness_stream` does; or, in place of a line, an object of JSON.
/// It has the same errors.
pub fn witness_in_json<C: Clock, T, R: Read, W: Write>(
    host: &Host<'_, C, T>,
    name: &str,
    history: &mut R,
    writer: &mut W,
    reading: Reading,
    ruling_out: RulingOut,
) -> Result<Status, StreamFault>
    // The writer holds the text or the object after what it held, for the bytes of the reader.
    ensures answered { IfOk result (λ status. HasAnswer (WitnessesInJson name.now ruling_out reading (R.remaining history.old) status)
        (W.contents writer.old) (W.contents writer.new)) }
    // After `Write` the writer holds a prefix of such a text after what it held.
    ensures cut_off { IsErrOf result StreamFault.Write
        → HasPrefix (WitnessesInJson name.now ruling_out reading (R.remaining history.old)) (W.contents writer.old)
        (W.contents writer.new) }
    // After any other error the writer holds what it held.
    ensures kept { IfErr result (λ fault. fault ≢ StreamFault.Write
        → Keeps (W.contents writer.old) (W.contents writer.new)) }
    // The only errors are `Read`, `Write` and `NoMemory`.
    ensures reported { IfErr result IsStreamFault }
{
    let stopwatch = Stopwatch::start(host.rt);
    let options = CheckOptions {
        workers: 1,
        reading,
        ruling_out,
    };
    let found = witness_details(host.alloc, host.keys, history, options, Kept::Times)?;
    let milliseconds = stopwatch.milliseconds(host.rt);
    let answer = witnessed_answer(host.alloc, name, found, reading, milliseconds)?;
    write_answer(writer, &answer)
}

// Returns what is said to be proved of what a verify reports.
fn proved_of(reported: &Reported) -> Option<bool>
    requires { IsOfVerify reported.now }
    ensures { (reading : ReadingOf) (input : List ℕ) → IsProvedOf reading input reported.now result }
{
    match reported {
        Reported::Verified(_) => Some(true),
        _ => None,
    }
}

// Returns the object of what was found of the two texts of these names.
fn verified_object<'a>(
    alloc: Global,
    name: &'a str,
    witness: &'a str,
    reported: &Reported,
    reading: Reading,
    milliseconds: Option<u64>,
) -> Result<Vec<u8>, AllocError>
    requires { IsOfVerify reported.now }
    ensures { IfOk result (λ text. (input : List ℕ)
        → IsObjectOn reading name.now (Just input) (line_of reported.now) text.items) }
{
    let facts = Facts {
        file: name,
        witness: Some(witness),
        proved: proved_of(reported),
        reading: named_reading(reading),
        broken_reply: None,
        explanation: None,
        milliseconds,
    };
    object_line(alloc, reported, &facts)
}

/// Checks a witness against a history as `report::verify_stream` does, and writes an object of JSON in place of
/// its line. The texts have these names. It has the same errors.
pub fn verify_in_json<C: Clock, T, R: Read, Q: Read, W: Write>(
    host: &Host<'_, C, T>,
    name: &str,
    witness_name: &str,
    history: &mut R,
    witness: &mut Q,
    writer: &mut W,
    reading: Reading,
) -> Result<Status, StreamFault>
    // The writer holds the object after what it held, for the bytes of the two readers.
    ensures answered { IfOk result (λ status. HasAnswer (VerifiesInJson name.now reading (R.remaining history.old)
        (Q.remaining witness.old) status)
        (W.contents writer.old) (W.contents writer.new)) }
    // After `Write` the writer holds a prefix of such an object after what it held.
    ensures cut_off { IsErrOf result StreamFault.Write
        → HasPrefix (VerifiesInJson name.now reading (R.remaining history.old) (Q.remaining witness.old))
        (W.contents writer.old) (W.contents writer.new) }
    // After any other error the writer holds what it held.
    ensures kept { IfErr result (λ fault. fault ≢ StreamFault.Write
        → Keeps (W.contents writer.old) (W.contents writer.new)) }
    // The only errors are `Read`, `Write` and `NoMemory`.
    ensures reported { IfErr result IsStreamFault }
    // Nothing of the witness is taken if the history text is refused.
    ensures unread { LeavesUnread reading (R.remaining history.old) (Q.remaining witness.old) (Q.remaining witness.new) }
{
    let stopwatch = Stopwatch::start(host.rt);
    let reported = verify_reported(host.alloc, host.keys, history, witness, reading)?;
    let status = status_of(&reported);
    let text = verified_object(
        host.alloc,
        name,
        witness_name,
        &reported,
        reading,
        stopwatch.milliseconds(host.rt),
    )?;
    write_answer(writer, &AnswerText { status, text })
}

/// Returns the object of what a check finds in the text of a reader, as `report::explained_details` does, with its
/// explanation; and that as a page, if one is asked for. The text has this name. It has the same errors.
pub fn explained_object<C: Clock, T: Threads + Wait + Sync, R: Read>(
    host: &Host<'_, C, T>,
    name: &str,
    history: &mut R,
    options: CheckOptions,
    progress: &CheckProgress,
    shown: Option<PageOptions<'_>>,
) -> Result<(AnswerText, Option<Vec<u8>>), StreamFault>
    // There are 1 to 16 workers.
    requires workers { AreWorkers options.workers }
    // The object is that of a line which answers the bytes of the reader.
    ensures answered { IfOk result (λ made. ExplainsInJson name.now options.ruling_out options.reading (R.remaining history.old)
        made.0.status made.0.text.items) }
    // The only errors are `Read`, `NoMemory` and `Worker`.
    ensures reported { IfErr result IsCheckFault }
{
    let stopwatch = Stopwatch::start(host.rt);
    let found = explained_details(
        host.threads,
        host.alloc,
        host.keys,
        history,
        options,
        progress,
        shown,
    )?;
    let ExplainedDetails {
        details,
        explanation,
        page,
    } = found;
    let status = status_of(&details.reported);
    let milliseconds = stopwatch.milliseconds(host.rt);
    let explanation = Some(explanation.as_str());
    let text = details_object(
        host.alloc,
        name,
        details,
        options.reading,
        explanation,
        milliseconds,
    )?;
    Ok((AnswerText { status, text }, page))
}
