ghost use Rattle.std.specs.Prelude.{◌≡◌, ◌≤◌, ◌++◌, ◌∷◌, [], IfOk, OnOk, Ok, false, map, length};
ghost use Rattle.serde_json.specs.Read.{max_depth};
ghost use Rattle.serde_json.specs.Data.{depth};
ghost use Rattle.serde_json.specs.View.{view};
ghost use Rattle.serde_json.specs.Written.{compact_text, has_float};
ghost use Rattle.version_pair.specs.Id.{IsIdLength};
ghost use Rattle.api_lines.specs.aids.JsonLines.{IsJsonLine};
ghost use Rattle.places.specs.Documents.{witness_places};
ghost use Rattle.witness.specs.aids.Lines.{IsWrittenOn};
ghost use Rattle.witness.specs.declared.witness_line.WitnessLine.TheVariants as line;
ghost use Rattle.witness.specs.Text.{AreWithinLimits, said_by, value_of, witness_text, written};

use api_lines::LineObject;
use places::{DocWitness, Place};
use serde_json::Value;
use std::alloc::Global;
use version_pair::{DocId, NoMemory};

// The value of a document's line.
fn document_value(alloc: Global, id: &DocId) -> Result<Value, NoMemory>
    ensures value { IfOk result (λ value. view value ≡ value_of (line.Document id.now)) }
    ensures id { IsIdLength (length id.now) }
{
    let line = LineObject::new(alloc).text("doc", id.as_str())?;
    Ok(line.into_value())
}

// The value of a place's line.
fn place_value(alloc: Global, place: Place) -> Result<Value, NoMemory>
    ensures { IfOk result (λ value. view value ≡ value_of (line.Place place)) }
{
    let line = LineObject::new(alloc).number("rec", place.rec as u64)?;
    match place.pair {
        None => Ok(line.into_value()),
        Some(pair) => {
            let line = line.number("seq", pair.seq())?.number("term", pair.term())?;
            Ok(line.into_value())
        }
    }
}

// Adds the value as a line.
fn write_value(alloc: Global, value: &Value, text: &mut Vec<u8>) -> Result<(), NoMemory>
    requires { has_float (view value.now) ≡ false }
    ensures added { OnOk result (text.new.items
        ≡ text.old.items ++ (compact_text (view value.now) ++ 10 ∷ [])) }
    ensures json { OnOk result (depth (view value.now) ≤ max_depth
        → IsJsonLine (compact_text (view value.now)) (view value.now)) }
{
    let line = value.to_vec(alloc)?;
    text.extend_from_slice(&line)?;
    text.push(b'\n')?;
    Ok(())
}

// Adds the line of a document.
fn write_document(alloc: Global, id: &DocId, text: &mut Vec<u8>) -> Result<(), NoMemory>
    ensures { OnOk result (IsWrittenOn text.old.items text.new.items (line.Document id.now ∷ [])) }
{
    let value = document_value(alloc, id)?;
    write_value(alloc, &value, text)
}

// Adds the line of a place.
fn write_place(alloc: Global, place: Place, text: &mut Vec<u8>) -> Result<(), NoMemory>
    ensures { OnOk result
        (IsWrittenOn text.old.items text.new.items (line.Place place ∷ [])) }
{
    let value = place_value(alloc, place)?;
    write_value(alloc, &value, text)
}

// Adds the lines of the places.
fn write_places(alloc: Global, places: &[Place], text: &mut Vec<u8>) -> Result<(), NoMemory>
    ensures { OnOk result
        (IsWrittenOn text.old.items text.new.items (map (λ p. line.Place p) places.now)) }
{
    for i in 0..places.len() {
        write_place(alloc, places[i], text)?;
    }
    Ok(())
}

// Adds the lines of a witness.
fn write_one(alloc: Global, witness: &DocWitness, text: &mut Vec<u8>) -> Result<(), NoMemory>
    ensures { OnOk result
        (IsWrittenOn text.old.items text.new.items (said_by (witness_places witness.now ∷ []))) }
{
    write_document(alloc, witness.id(), text)?;
    write_places(alloc, witness.places(), text)?;
    Ok(())
}

/// Returns the text of the witnesses. For each it has a line of its document, as `{"doc":"d"}`, followed by a
/// line for each of its places, as `{"rec":0}`, or, if the place gives a pair, as
/// `{"rec":1,"seq":2,"term":3}`.
///
/// The text is read back as the same witnesses if there are at most 2,097,152 documents and places, and
/// record numbers are below 2^32.
pub fn write_witness(alloc: Global, witnesses: &[DocWitness]) -> Result<Vec<u8>, NoMemory>
    // The bytes are the lines of the witnesses, in their order.
    ensures text { IfOk result
        (λ bytes. bytes.items ≡ written (said_by (map witness_places witnesses.now))) }
    // They are read back as just these documents and places, within the limits.
    ensures reads_back { IfOk result (λ bytes. AreWithinLimits (map witness_places witnesses.now)
        → witness_text bytes.items ≡ Ok (map witness_places witnesses.now)) }
{
    let mut text = Vec::new(alloc);
    for i in 0..witnesses.len() {
        write_one(alloc, &witnesses[i], &mut text)?;
    }
    Ok(text)
}
