ghost use Rattle.std.specs.Prelude.{◌≡◌, ◌≤◌, IfErr, IfOk, option_map};
ghost use Rattle.evidence.specs.declared.ruling_out.RulingOut.{RulingOut as Ruling};
ghost use Rattle.events.specs.Refusal.{most_events};
ghost use Rattle.history.specs.ByRules.{room_taken};
ghost use Rattle.history.specs.Laws.{AreLost};
ghost use Rattle.history.specs.declared.text_read.TextRead.{TextRead as TextOf};
ghost use Rattle.readings.specs.Reading.{rules_of};
ghost use Rattle.stream_io.specs.Faults.{IsReadingFault};
ghost use Rattle.stream_io.specs.Taken.{TakesHistory};
ghost use Rattle.report.specs.Findings.{IsFoundOf};
ghost use Rattle.report.specs.Verdict.{WitnessesInput};
ghost use Rattle.report.specs.Details.{status_of};
ghost use Rattle.report.specs.Witnessed.{MayFollow, WitnessesBy};
ghost use Rattle.report.specs.aids.Reports.{IsProofOf, IsWitnessedOf};

use crate::check_options::CheckOptions;
use crate::details::{Details, details_of, status_of};
use crate::finding::find_alone;
use crate::progress::CheckProgress;
use crate::text_finding::TextFinding;
use crate::text_input::{Kept, NumberedText, read_numbered};
use certificate::{CertificateSubject, certificate_text};
use compose::{Finding, Proof, Refuted, RulingOut};
use events::HashKeys;
use history::laws::texts_are_read_by_rules;
use readings::{Reading, attempts_of};
use result_lines::Reported;
use std::alloc::Global;
use std::io::Read;
use story::EventLines;
use stream_io::{AnswerText, Status, StreamFault};
use version_pair::NoMemory;
use witness::write_witness;

/// What is answered if a witness is asked for.
#[derive(Drop)]
pub enum Witnessed {
    /// The text of the witness.
    Text(Vec<u8>),
    /// What a check finds that is not yes, and the certificate of a document that is ruled out, which is empty for other
    /// answers.
    Answered(Details, Vec<u8>),
}

// Returns the proof of a text that is explained: an order explains what was judged, and each get is explained.
fn proof_of(found: &TextFinding) -> Option<&Proof>
    ensures { IsProofOf found.now.finding found.now.get (option_map (λ p. p.now) result) }
{
    match (&found.finding, found.get) {
        (Finding::Explained(proof), None) => Some(proof),
        (Finding::Explained(_), Some(_)) | (Finding::Unexplained(..), _) => None,
    }
}

// Returns the certificate of a document of what was judged that is ruled out, if that is reported.
fn refuted_certificate(
    alloc: Global,
    found: &TextFinding,
    reported: &Reported,
    reading: Reading,
) -> Result<Vec<u8>, NoMemory> {
    let (Finding::Unexplained(case, failing), Reported::Refuted(Refuted::RuledOut(named), _)) = (
        &found.finding,
        reported,
    ) else {
        return Ok(Vec::new(alloc));
    };
    let Some(Refuted::RuledOut(call)) = failing.evidence else {
        return Ok(Vec::new(alloc));
    };
    certificate_text(
        alloc,
        &CertificateSubject {
            history: case.history(),
            conflicts: case.conflicts(),
            attempts: attempts_of(reading.writes),
            call,
            call_in_text: *named,
        },
    )
}

// Returns the certificate that follows the line of what is reported; an empty one unless it is that a document is ruled
// out.
fn certificate_of(
    alloc: Global,
    found: &TextFinding,
    reported: &Reported,
    reading: Reading,
) -> Result<Vec<u8>, NoMemory>
    ensures { IfOk result (λ text. MayFollow (status_of reported.now) text.items) }
{
    match status_of(reported) {
        Status::Refuted => refuted_certificate(alloc, found, reported, reading),
        Status::Yes | Status::No | Status::Refused => Ok(Vec::new(alloc)),
    }
}

// Returns the witness of a text, or the details of one that is not explained.
fn witnessed_of(
    alloc: Global,
    found: &TextFinding,
    lines: Option<&EventLines>,
    reading: Reading,
) -> Result<Witnessed, NoMemory>
    ensures { (ruling : Ruling) (read : TextOf) → IsFoundOf ruling reading read found.now
        → IfOk result (IsWitnessedOf ruling reading read) }
{
    match proof_of(found) {
        Some(proof) => {
            // That its history is within the limit is known from here on.
            let _ = proof.history().len();
            Ok(Witnessed::Text(write_witness(alloc, proof.witnesses())?))
        }
        None => {
            let details = details_of(alloc, found, lines, reading)?;
            let certificate = certificate_of(alloc, found, &details.reported, reading)?;
            Ok(Witnessed::Answered(details, certificate))
        }
    }
}

// Returns the witness of a text that was read so, or what a check finds in it.
fn text_witnessed(
    alloc: Global,
    text: NumberedText,
    options: CheckOptions,
) -> Result<Witnessed, NoMemory>
    requires void { AreLost text.read.history text.read.voids }
    requires room { room_taken options.reading.writes text.read.history ≤ most_events }
    ensures { IfOk result (IsWitnessedOf options.ruling_out options.reading text.read) }
{
    let NumberedText { read, lines } = text;
    let found = find_alone(alloc, read, options, &CheckProgress::new())?;
    witnessed_of(alloc, &found, Some(&lines), options.reading)
}

/// Returns the witness of the history whose text a reader has; or, if there is none, what the line of
/// `witness_stream` reports, what is known beside, and the certificate that follows the line. It writes nothing. The caller's thread searches alone, whatever
/// the number of workers.
///
/// Errors, whichever comes first: `Read` and `NoMemory`.
pub fn witness_details<R: Read>(
    alloc: Global,
    keys: HashKeys,
    reader: &mut R,
    options: CheckOptions,
    kept: Kept,
) -> Result<Witnessed, StreamFault>
    // The text, or the line that reports it, is one that `witness_stream` promises for the bytes of the reader.
    ensures answer { IfOk result (WitnessesBy options.ruling_out options.reading (R.remaining reader.old)) }
    // The only errors are `Read` and `NoMemory`.
    ensures reported { IfErr result IsReadingFault }
    // No bytes after the first refused line are taken but those that the last read returned, as by
    // `check_stream`.
    ensures taken { TakesHistory (rules_of options.reading) (R.remaining reader.old) (R.remaining reader.new) }
{
    // That what is read is a text of its history is known from here on.
    texts_are_read_by_rules();
    match read_numbered(alloc, keys, options.reading.rules(), reader, kept)? {
        Ok(text) => Ok(text_witnessed(alloc, text, options)?),
        Err(refused) => Ok(Witnessed::Answered(Details::refused(refused.fault), Vec::new(alloc))),
    }
}

/// Returns the answer of `witness_stream` for the text of a reader: the text of its witness, or the line of a check, and
/// the certificate after it if a document is ruled out. It writes nothing.
///
/// Errors, whichever comes first: `Read` and `NoMemory`.
pub fn witness_answer<R: Read>(
    alloc: Global,
    keys: HashKeys,
    reader: &mut R,
    reading: Reading,
    ruling_out: RulingOut,
) -> Result<AnswerText, StreamFault>
    ensures text { IfOk result (λ made. WitnessesInput ruling_out reading (R.remaining reader.old) made.status
        made.text.items) }
    ensures reported { IfErr result IsReadingFault }
    ensures taken { TakesHistory (rules_of reading) (R.remaining reader.old) (R.remaining reader.new) }
{
    let options = CheckOptions {
        workers: 1,
        reading,
        ruling_out,
    };
    match witness_details(alloc, keys, reader, options, Kept::Nothing)? {
        Witnessed::Text(text) => Ok(AnswerText {
            status: Status::Yes,
            text,
        }),
        Witnessed::Answered(details, certificate) => {
            let mut text = details.reported.line(alloc)?.into_bytes();
            text.extend_from_slice(&certificate)?;
            Ok(AnswerText {
                status: status_of(&details.reported),
                text,
            })
        }
    }
}
