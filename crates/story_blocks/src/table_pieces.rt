use crate::block::{CallReported, CallRow, CallTable, Mark, NoteReported, PlaceReported};
use crate::pieces::Part::{self, Fixed, Line, Number, Text, Words};
use crate::pieces::Pieces;
use crate::reported_line::ReportedLine;
use page::Markup;

// Returns the cells of a row that a call begins with: how it stands out, its line and its number.
fn row_start(call: &CallReported) -> [Part<'static>; 6] {
    let (start, sign) = match call.mark {
        Mark::Plain => (Markup::RowStart, ""),
        Mark::Evidence => (Markup::EvidenceRowStart, "evidence"),
        Mark::Broken => (Markup::BrokenRowStart, "broken reply"),
    };
    [
        Fixed(start),
        Words(sign),
        Fixed(Markup::CellBreak),
        Line(call.line),
        Fixed(Markup::CellBreak),
        Number(call.no),
    ]
}

// Returns on which line a call was answered.
fn answered_on(line: ReportedLine) -> [Part<'static>; 5] {
    [
        Fixed(Markup::WhenStart),
        Words("line "),
        Line(line),
        Fixed(Markup::WhenEnd),
        Words(": "),
    ]
}

impl Pieces {
    // Adds the row of a note.
    fn note_row(&mut self, note: &NoteReported, has_clients: bool) {
        let wide = if has_clients {
            Markup::ClientWideCell
        } else {
            Markup::WideCell
        };
        self.add(&[
            Fixed(Markup::NoteRowStart),
            Words("note"),
            Fixed(Markup::CellBreak),
            Line(note.line),
            Fixed(wide),
            Text(note.text.as_str()),
            Fixed(Markup::RowEnd),
        ]);
    }

    // Adds a row of the table of calls.
    fn call_row(&mut self, call: &CallReported, has_clients: bool) {
        self.add(&row_start(call));
        if has_clients {
            self.fixed(Markup::CellBreak);
            self.add(&[Text(call.client.as_str())]);
        }
        self.within(Markup::CellBreak, call.asked.as_str(), Markup::CellBreak);
        if let Some(line) = call.replied {
            self.add(&answered_on(line));
        }
        self.add(&[Text(call.answered.as_str())]);
        self.within(Markup::CellBreak, call.open_with.as_str(), Markup::RowEnd);
    }

    /// Adds the table of calls.
    pub fn calls(&mut self, table: &CallTable) {
        self.fixed(if table.has_clients {
            Markup::ClientCallsStart
        } else {
            Markup::CallsStart
        });
        for row in table.rows.iter() {
            match row {
                CallRow::Call(call) => self.call_row(call, table.has_clients),
                CallRow::Note(note) => self.note_row(note, table.has_clients),
            }
        }
        self.fixed(Markup::TableEnd);
    }

    /// Adds the table of an order.
    pub fn order(&mut self, places: &[PlaceReported]) {
        self.fixed(Markup::OrderStart);
        for place in places {
            self.add(&[
                Fixed(Markup::RowStart),
                Number(place.no),
                Fixed(Markup::CellBreak),
                Text(place.asked.as_str()),
                Fixed(Markup::CellBreak),
                Text(place.after.as_str()),
                Fixed(Markup::RowEnd),
            ]);
        }
        self.fixed(Markup::TableEnd);
    }
}
