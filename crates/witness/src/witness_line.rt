ghost use Rattle.std.specs.Prelude.{◌≡◌, MatchResult, Ok, Err};
ghost use Rattle.serde_json.specs.View.{view};
ghost use Rattle.api_lines.specs.Faults.{IfReported};
ghost use Rattle.api_lines.specs.Fields.{value_of as field_seen};
ghost use Rattle.witness.specs.Text.{document_parsed, place_parsed, record_parsed, says};

use api_lines::{Field, LineFault, Number, TextCause, document_id, field_of, pair_of_numbers};
use places::Place;
use serde_json::Value;
use std::alloc::Global;
use version_pair::DocId;

/// The number of records that a place can name: record numbers are below 2^32.
const RECORDS: u64 = 0x1_0000_0000;

/// What a line of a witness text says.
#[derive(Drop)]
pub enum WitnessLine {
    /// A document begins.
    Document(DocId),
    /// The next place of the document that began last.
    Place(Place),
}

// The record that a number names, or `Range`.
fn record(number: Number) -> Result<usize, TextCause>
    ensures { result ≡ record_parsed number }
{
    let rec = number.whole()?;
    if rec < RECORDS {
        Ok(rec as usize)
    } else {
        Err(TextCause::Range)
    }
}

// The place that a line gives. Faults in their order: `Shape` for any field, and if no document was begun;
// `Half`; `Range`.
fn place(
    rec: Field<'_>,
    seq: Field<'_>,
    term: Field<'_>,
    begun: bool,
) -> Result<WitnessLine, TextCause>
    ensures { result
        ≡ place_parsed begun (field_seen rec.entry) (field_seen seq.entry) (field_seen term.entry) }
{
    let rec = rec.required_number()?;
    let seq = seq.optional_number()?;
    let term = term.optional_number()?;
    if !begun {
        return Err(TextCause::Shape);
    }
    let pair = pair_of_numbers(seq, term)?;
    let rec = record(rec)?;
    Ok(WitnessLine::Place(Place { rec, pair }))
}

// The document that a line begins, or `Id`.
fn document(alloc: Global, id: &str) -> Result<WitnessLine, LineFault>
    ensures { MatchResult result (λ line. document_parsed id.now ≡ Ok line)
        (λ fault. IfReported fault (λ cause. document_parsed id.now ≡ Err cause)) }
{
    let id = document_id(id)?.to_id(alloc)?;
    Ok(WitnessLine::Document(id))
}

/// Returns what a line says, after a document's line or before any. Faults in their order: `Shape`, `Id`,
/// `Half`, `Range`.
pub fn line_says(alloc: Global, value: &Value, begun: bool) -> Result<WitnessLine, LineFault>
    ensures { MatchResult result (λ line. says begun (view value.now) ≡ Ok line)
        (λ fault. IfReported fault (λ cause. says begun (view value.now) ≡ Err cause)) }
{
    match field_of(value, "doc") {
        Field::Absent => {
            let rec = field_of(value, "rec");
            let seq = field_of(value, "seq");
            let term = field_of(value, "term");
            Ok(place(rec, seq, term, begun)?)
        }
        Field::Text(id) => document(alloc, id),
        Field::Whole(_) | Field::NotWhole | Field::True | Field::False | Field::Other => {
            Err(LineFault::Reported(TextCause::Shape))
        }
    }
}
