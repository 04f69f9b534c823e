use crate::subject::Unexplained;
use doc_register::Op;
use events::{History, Rec};
use evidence::Refuted;
use readings::{Gets, Reading, WayBack};

/// What an explanation is made from: the same findings twice, by the text and by what was judged. If the reading leaves
/// the events as they are, the two are one.
#[derive(Clone, Copy)]
pub struct Account<'h> {
    /// By the calls and events of the text, of which the explanation speaks.
    pub in_text: Unexplained<'h>,
    /// By those of the history that was judged, in which reasons and orders are searched.
    pub judged: Unexplained<'h>,
    /// As what the text was read.
    pub reading: Reading,
}

impl<'h> Account<'h> {
    // Returns the way back to the whole text, or to a prefix of it.
    fn back_to(&self, text: &'h History) -> WayBack<'h> {
        WayBack {
            text,
            writes: self.reading.writes,
        }
    }

    /// Returns whether the call is a get that is judged by itself.
    pub fn is_alone(&self, record: &Rec) -> bool {
        self.reading.gets == Gets::Any && record.op == Op::Get
    }

    /// Returns whether the evidence is of a get that is judged by itself.
    pub fn is_of_get_alone(&self) -> bool {
        let is_of_get = matches!(
            self.in_text.evidence,
            Some(Refuted::NoWriter(_) | Refuted::StaleGet(..) | Refuted::MissedWrite(..))
        );
        self.reading.gets == Gets::Any && is_of_get
    }

    /// Returns the way back to the history that the reasons are about.
    pub fn back(&self) -> WayBack<'h> {
        self.back_to(self.in_text.history)
    }

    /// Returns the way back to the whole text.
    pub fn whole_back(&self) -> WayBack<'h> {
        self.back_to(self.in_text.whole)
    }
}
