ghost use Rattle.std.specs.Prelude.{◌≡◌, ◌≤◌, [], OnOk, OnErr, IfErr, Ok, Err, map};
ghost use Rattle.serde_json.specs.View.{view};
ghost use Rattle.api_lines.specs.Faults.{IfReported};
ghost use Rattle.api_lines.specs.Lines.{most_lines};
ghost use Rattle.api_lines.specs.Texts.{read_line};
ghost use Rattle.places.specs.Documents.{doc_places};
ghost use Rattle.witness.specs.Text.{is_begun, takes, takes_value};

use crate::witness_line::{WitnessLine, line_says};
use api_lines::{LineFault, TextCause, given_line};
use places::Place;
use serde_json::Value;
use std::alloc::Global;
use std::marker::Model;
use version_pair::DocId;

/// The greatest number of documents and places, together, of a witness text.
pub const MOST_ITEMS: usize = 2_097_152;

/// The documents of the lines so far, each with its places.
#[derive(Debug, Drop)]
pub struct Documents {
    documents: Vec<(DocId, Vec<Place>)>,
    // The number of documents and places.
    items: usize,
}

impl Model for Documents {
    ghost use Rattle.std.specs.Prelude.{◌≡◌, ◌≤◌, List, map};
    ghost use Rattle.places.specs.Documents.{doc_places};
    ghost use Rattle.places.specs.Documents.{DocPlaces};
    ghost use Rattle.witness.specs.Text.{items_in, most_items};

    ghost Value = { List DocPlaces };

    ghost view = { λ d. map doc_places d.documents.items };

    ghost invariant = { λ d. (d.items ≡ items_in (map doc_places d.documents.items))
        × (d.items ≤ most_items) };
}

impl Documents {
    /// Returns a list of no documents.
    pub fn new(alloc: Global) -> Documents
        ensures { result ≡ [] }
    {
        Documents {
            documents: Vec::new(alloc),
            items: 0,
        }
    }

    /// Returns the allocator of its memory.
    pub fn allocator(&self) -> Global {
        *self.documents.allocator()
    }

    // Whether a document was begun.
    fn is_begun(&self) -> bool
        ensures { result ≡ is_begun self.now }
    {
        !self.documents.is_empty()
    }

    // Begins a document, if there is room.
    fn begin(&mut self, id: DocId) -> Result<(), LineFault>
        ensures ok { OnOk result (takes self.old (WitnessLine.Document id) ≡ Ok self.new) }
        ensures err { IfErr result
            (λ fault. IfReported fault (λ cause. takes self.old (WitnessLine.Document id) ≡ Err cause)) }
        ensures unchanged { OnErr result (self.new ≡ self.old) }
    {
        if self.items == MOST_ITEMS {
            return Err(LineFault::Reported(TextCause::Full));
        }
        let places = Vec::new(*self.documents.allocator());
        match self.documents.push((id, places)) {
            Ok(()) => {
                self.items += 1;
                Ok(())
            }
            Err(_) => Err(LineFault::NoMemory),
        }
    }

    // Adds a place to the last document, if there is one, and room.
    fn add(&mut self, place: Place) -> Result<(), LineFault>
        ensures ok { OnOk result (takes self.old (WitnessLine.Place place) ≡ Ok self.new) }
        ensures err { IfErr result
            (λ fault. IfReported fault
            (λ cause. takes self.old (WitnessLine.Place place) ≡ Err cause)) }
        ensures unchanged { OnErr result (self.new ≡ self.old) }
    {
        if self.items == MOST_ITEMS {
            return Err(LineFault::Reported(TextCause::Full));
        }
        if self.documents.is_empty() {
            return Ok(());
        }
        let last = self.documents.len() - 1;
        match self.documents[last].1.push(place) {
            Ok(()) => {
                self.items += 1;
                Ok(())
            }
            Err(_) => Err(LineFault::NoMemory),
        }
    }

    // Takes what a line says.
    fn take(&mut self, line: WitnessLine) -> Result<(), LineFault>
        ensures ok { OnOk result (takes self.old line ≡ Ok self.new) }
        ensures err { IfErr result
            (λ fault. IfReported fault (λ cause. takes self.old line ≡ Err cause)) }
        ensures unchanged { OnErr result (self.new ≡ self.old) }
    {
        match line {
            WitnessLine::Document(id) => self.begin(id),
            WitnessLine::Place(place) => self.add(place),
        }
    }

    /// Takes the line with this number. A line that is refused leaves the documents as they were.
    pub fn take_line(&mut self, alloc: Global, number: u64, line: &[u8]) -> Result<(), LineFault>
        ensures ok { OnOk result (read_line takes_value number self.old line.now ≡ Ok self.new) }
        ensures within { OnOk result (number ≤ most_lines) }
        ensures err { IfErr result
            (λ fault. IfReported fault (λ cause. read_line takes_value number self.old line.now ≡ Err cause)) }
        ensures unchanged { OnErr result (self.new ≡ self.old) }
    {
        match given_line(alloc, number, line) {
            Ok(Some(value)) => self.take_value(alloc, &value),
            Ok(None) => Ok(()),
            Err(fault) => Err(fault),
        }
    }

    // Takes what the value of a line says.
    fn take_value(&mut self, alloc: Global, value: &Value) -> Result<(), LineFault>
        ensures ok { OnOk result (takes_value self.old (view value.now) ≡ Ok self.new) }
        ensures err { IfErr result
            (λ fault. IfReported fault
            (λ cause. takes_value self.old (view value.now) ≡ Err cause)) }
        ensures unchanged { OnErr result (self.new ≡ self.old) }
    {
        match line_says(alloc, value, self.is_begun()) {
            Ok(line) => self.take(line),
            Err(fault) => Err(fault),
        }
    }

    /// Returns the documents as a list.
    pub fn into_list(self) -> Vec<(DocId, Vec<Place>)>
        ensures { map doc_places result.items ≡ self }
    {
        self.documents
    }
}
