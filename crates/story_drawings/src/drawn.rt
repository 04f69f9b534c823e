use crate::named::Named;
use story_reasons::{Call, OrderBefore};

/// What a drawing is for.
#[derive(Clone, Copy)]
pub enum DrawingKind {
    /// It shows the calls that an explanation is about.
    Evidence,
    /// It shows the calls of a document, and when each of them takes effect.
    Timeline,
}

/// What a drawing shows: calls, and the last versions of an order, at most that many.
#[derive(Clone, Copy)]
pub struct Drawn<'a, 'h> {
    pub kind: DrawingKind,
    pub calls: &'a [Call<'h>],
    /// Which of them stand out, if some do.
    pub named: Option<&'a Named>,
    pub order: Option<&'a OrderBefore>,
    pub versions: usize,
    /// The position of the broken reply, if there is one.
    pub event: Option<usize>,
    /// Whether the calls are shown with their documents.
    pub several: bool,
}

// The greatest number of calls of a timeline that have more words than their numbers.
const MOST_WITH_WORDS: usize = 40;

impl Drawn<'_, '_> {
    /// Returns the least distance from one event to the next.
    pub fn least_step(&self) -> u64 {
        match self.kind {
            DrawingKind::Evidence => 0,
            DrawingKind::Timeline => 10,
        }
    }

    /// Returns whether the bars have more words than the calls' numbers.
    pub fn has_words(&self) -> bool {
        matches!(self.kind, DrawingKind::Evidence) || self.calls.len() <= MOST_WITH_WORDS
    }

    /// Returns what the boxes of versions are.
    pub fn boxes_title(&self) -> &'static str {
        match self.kind {
            DrawingKind::Evidence => "The document's versions, in the order before that reply:",
            DrawingKind::Timeline => "The document's versions, in the order that was found:",
        }
    }

    /// Returns how to read the drawing.
    pub fn caption(&self) -> &'static str {
        match self.kind {
            DrawingKind::Evidence => {
                "Time runs from left to right, by event. A bar is a call from its line to the line of its reply: its number, what was asked, what was answered. A cross and the dotted line: the reply that broke it. A diamond and a thick edge: a call that the evidence or a reason names. A dashed bar with an arrow: no reply. A triangle and a dashed line: a note. Boxes: the document's versions in the order before that reply. `k` is the number that a write stores; 1/20 is the version with _primary_term 1 and _seq_no 20."
            }
            DrawingKind::Timeline => {
                "Time runs from left to right, by event. A bar is a call from its line to the line of its reply, with its number; pointed at, or reached by the tab key, it says more. A stroke across a bar: the moment at which the call takes effect in the order that was found. A dashed bar with an arrow: no reply. A cross and the dotted line: the reply that broke it. A diamond and a thick edge: a call that the evidence or a reason names. A triangle and a dashed line: a note. Boxes: the document's versions. `k` is the number that a write stores; 1/20 is the version with _primary_term 1 and _seq_no 20."
            }
        }
    }
}
