use crate::block::Mark;
use crate::drawing::{BAR_HEIGHT, BOX_HEIGHT, Bar, Drawing, EventMark, VersionBox, WIDTH, after};
use crate::pieces::Part::{self, Fixed, Number, Text, Words};
use crate::pieces::Pieces;
use page::Markup;

// The least width of a drawing on a screen, in pixels: one that is wider than others isn't made smaller.
const LEAST_WIDTH: u64 = 900;

// How far from above the line of an event begins, and the tip of the triangle at a note.
const LINE_TOP: u64 = 20;

const NOTE_TOP: u64 = 28;

// Returns a text of a drawing.
fn words(x: u64, y: u64, text: &str) -> [Part<'_>; 7] {
    [
        Fixed(Markup::WordsX),
        Number(x),
        Fixed(Markup::BoxY),
        Number(y),
        Fixed(Markup::WordsAt),
        Text(text),
        Fixed(Markup::WordsEnd),
    ]
}

// Returns the number of a line of the text, above the lanes.
fn line_number(x: u64, line: u64) -> [Part<'static>; 8] {
    [
        Fixed(Markup::WordsX),
        Number(x),
        Fixed(Markup::BoxY),
        Number(14),
        Fixed(Markup::WordsAt),
        Words("line "),
        Number(line),
        Fixed(Markup::WordsEnd),
    ]
}

// Returns a box of a drawing.
fn rectangle(x: u64, y: u64, width: u64, height: u64) -> [Part<'static>; 9] {
    [
        Fixed(Markup::BoxX),
        Number(x),
        Fixed(Markup::BoxY),
        Number(y),
        Fixed(Markup::BoxWidth),
        Number(width),
        Fixed(Markup::BoxHeight),
        Number(height),
        Fixed(Markup::ShapeEnd),
    ]
}

// Returns a mark of a drawing.
fn mark(shape: Markup, x: u64, y: u64) -> [Part<'static>; 5] {
    [
        Fixed(shape),
        Number(x),
        Fixed(Markup::MarkY),
        Number(y),
        Fixed(Markup::MarkEnd),
    ]
}

// Returns a line from above to below.
fn upright(shape: Markup, x: u64, top: u64, bottom: u64) -> [Part<'static>; 9] {
    [
        Fixed(shape),
        Number(x),
        Fixed(Markup::LineY),
        Number(top),
        Fixed(Markup::LineToX),
        Number(x),
        Fixed(Markup::LineToY),
        Number(bottom),
        Fixed(Markup::ShapeEnd),
    ]
}

// Returns the beginning of a note.
fn note_tip(note: &EventMark) -> [Part<'_>; 6] {
    [
        Fixed(Markup::NoteStart),
        Words("line "),
        Number(note.line),
        Words(": "),
        Text(note.note.as_str()),
        Fixed(Markup::TipEnd),
    ]
}

// Returns how the bar of a call begins.
fn bar_start(bar: &Bar) -> Markup {
    match (bar.mark, bar.is_open) {
        (Mark::Broken, _) => Markup::BrokenStart,
        (Mark::Evidence, _) => Markup::EvidenceStart,
        (Mark::Plain, true) => Markup::LostStart,
        (Mark::Plain, false) => Markup::BarStart,
    }
}

impl Pieces {
    // Adds what shows how the call stands out, and when it takes effect.
    fn bar_marks(&mut self, bar: &Bar) {
        let end = after(bar.x, bar.width);
        let middle = after(bar.y, BAR_HEIGHT / 2);
        if bar.is_open {
            self.add(&mark(Markup::ArrowX, after(end, 8), middle));
        }
        if let Some(x) = bar.effect {
            let top = bar.y.saturating_sub(3);
            self.add(&upright(Markup::TickX, x, top, after(bar.y, BAR_HEIGHT + 3)));
        }
        match bar.mark {
            Mark::Plain => (),
            Mark::Evidence => self.add(&mark(Markup::DiamondX, bar.x, middle)),
            Mark::Broken => self.add(&mark(Markup::CrossX, end, middle)),
        }
    }

    // Adds the bar of a call.
    fn bar(&mut self, bar: &Bar) {
        self.within(bar_start(bar), bar.tip.as_str(), Markup::TipEnd);
        self.add(&rectangle(bar.x, bar.y, bar.width, BAR_HEIGHT));
        self.bar_marks(bar);
        self.add(&words(bar.words_x, after(bar.y, 26), bar.words.as_str()));
        self.fixed(Markup::GroupEnd);
    }

    // Adds the box of a version, with an arrow before it if it isn't the first.
    fn version(&mut self, version: &VersionBox, is_first: bool) {
        self.fixed(Markup::VersionStart);
        self.add(&rectangle(version.x, version.y, version.width, BOX_HEIGHT));
        if !is_first {
            let middle = after(version.y, BOX_HEIGHT / 2);
            // A box that is not the first is to the right of 6, so this is never below zero.
            self.add(&mark(Markup::ArrowX, version.x.saturating_sub(6), middle));
        }
        let x = after(version.x, 8);
        self.add(&words(x, after(version.y, 17), version.version.as_str()));
        self.add(&words(x, after(version.y, 33), version.maker.as_str()));
        self.fixed(Markup::GroupEnd);
    }

    // Adds a note: a triangle and a line.
    fn note(&mut self, note: &EventMark, bottom: u64) {
        self.add(&note_tip(note));
        self.add(&upright(Markup::NoteX, note.x, NOTE_TOP, bottom));
        self.add(&mark(Markup::TriangleX, note.x, NOTE_TOP));
        self.fixed(Markup::GroupEnd);
    }

    // Adds the axis: the first line, the position of the broken reply, whose the lanes are, and what the boxes are.
    fn axis(&mut self, drawing: &Drawing) {
        self.fixed(Markup::AxisStart);
        self.add(&line_number(20, drawing.first_line));
        if let Some(here) = &drawing.here {
            self.add(&upright(Markup::HereX, here.x, LINE_TOP, drawing.lanes_end));
            if here.x > 110 {
                self.add(&line_number(here.x - 24, here.line));
            }
        }
        for name in drawing.names.iter() {
            self.add(&words(20, name.y, name.name.as_str()));
        }
        if !drawing.boxes.is_empty() {
            self.add(&words(20, after(drawing.lanes_end, 34), drawing.boxes_title));
        }
        self.fixed(Markup::GroupEnd);
    }

    /// Adds a drawing, and below it the text that says how to read it.
    pub fn drawing(&mut self, drawing: &Drawing) {
        let is_wide = drawing.width > WIDTH;
        self.add(&[
            Fixed(Markup::DrawingStart),
            Number(if is_wide { drawing.width } else { LEAST_WIDTH }),
            Fixed(Markup::DrawingBox),
            Number(drawing.width),
            Fixed(Markup::MarkY),
            Number(drawing.height),
            Fixed(Markup::DrawingOpen),
        ]);
        self.axis(drawing);
        for note in drawing.notes.iter() {
            self.note(note, drawing.lanes_end);
        }
        for bar in drawing.bars.iter() {
            self.bar(bar);
        }
        for (i, version) in drawing.boxes.iter().enumerate() {
            self.version(version, i == 0);
        }
        self.add(&[
            Fixed(Markup::DrawingEnd),
            Fixed(Markup::CaptionStart),
            Words(drawing.caption),
            Fixed(Markup::CaptionEnd),
        ]);
    }
}
