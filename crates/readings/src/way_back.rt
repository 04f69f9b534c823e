//! The way back from the history that is judged to the text.

ghost use Rattle.std.specs.Prelude.{◌≡◌, ◌<◌, length};
ghost use Rattle.readings.specs.WayBack.{evidence_in_text, number_in_text, number_of, reply_in_text};

use events::{Event, History};
use evidence::Refuted;
use history::Writes;

// Returns the number of the call of an event.
fn number_of(event: &Event) -> u64
    ensures { result ≡ number_of event.now }
{
    match event {
        Event::Call { no, .. } | Event::Reply { no, .. } | Event::Lost { no } => *no,
    }
}

/// Leads from the history that is judged back to the text's.
#[derive(Clone, Copy)]
pub struct WayBack<'t> {
    /// The text's own history.
    pub text: &'t History,
    /// How often a write is performed by the reading.
    pub writes: Writes,
}

impl WayBack<'_> {
    /// Returns the number in the text of the call that has this number in what is judged.
    pub fn number(&self, no: u64) -> u64
        ensures { result ≡ number_in_text self.now.writes self.now.text.now no }
    {
        match self.writes {
            Writes::Once => no,
            Writes::Repeated => {
                let place = (no / 2) as usize;
                if place < self.text.len() {
                    number_of(self.text.event(place))
                } else {
                    0
                }
            }
        }
    }

    /// Returns the position in the text of a reply, which has this position in what is judged, and answers the call
    /// that has this number in the text.
    pub fn reply(&self, place: usize, no: u64) -> usize
        ensures { result ≡ reply_in_text self.now.writes self.now.text.now place no }
    {
        match self.writes {
            Writes::Once => place,
            Writes::Repeated => self.text.ending(no).unwrap_or(0),
        }
    }

    /// Returns the evidence with the numbers of its calls in the text.
    pub fn evidence(&self, evidence: Refuted) -> Refuted
        ensures { result ≡ evidence_in_text self.now.writes self.now.text.now evidence }
    {
        match evidence {
            Refuted::PairTwice(one, two) => {
                Refuted::PairTwice(self.number(one), self.number(two))
            }
            Refuted::NoWriter(get) => Refuted::NoWriter(self.number(get)),
            Refuted::StaleGet(get, write) => Refuted::StaleGet(
                self.number(get),
                self.number(write),
            ),
            Refuted::MissedWrite(get, write) => {
                Refuted::MissedWrite(self.number(get), self.number(write))
            }
            Refuted::StaleSwap(one, two) => {
                Refuted::StaleSwap(self.number(one), self.number(two))
            }
            Refuted::RuledOut(call) => Refuted::RuledOut(self.number(call)),
        }
    }
}
