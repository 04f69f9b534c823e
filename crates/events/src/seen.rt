ghost use Rattle.std.specs.Prelude.{◌≡◌};
ghost use Rattle.events.specs.Seen.{pair_named, seen_in, seen_with};

use crate::event::Event;
use crate::front::Front;
use crate::history::History;
use version_pair::Pair;

/// The greatest primary term and the greatest sequence number in any reply or condition of a history. They
/// need not be of one pair. Both are 0 if no pair is named, and below 2^63.
#[derive(Clone, Copy, Debug, PartialEq, Eq)]
pub struct Seen {
    /// The greatest primary term.
    pub term: u64,
    /// The greatest sequence number.
    pub seq: u64,
}

impl Seen {
    // The greatest numbers with those of one more pair, if there is one.
    fn with(self, pair: Option<Pair>) -> Seen
        ensures { result ≡ seen_with self pair }
    {
        match pair {
            None => self,
            Some(pair) => Seen {
                term: self.term.max(pair.term()),
                seq: self.seq.max(pair.seq()),
            },
        }
    }
}

// The pair that an event names.
fn event_pair(event: &Event) -> Option<Pair>
    ensures { result ≡ pair_named event.now }
{
    match event {
        Event::Call { op, .. } => op.condition(),
        Event::Reply { reply, .. } => reply.pair(),
        Event::Lost { .. } => None,
    }
}

impl Front<'_> {
    /// Returns the greatest primary term and the greatest sequence number in any reply or condition.
    pub fn seen(&self) -> Seen
        ensures { result ≡ seen_in self.now }
    {
        let mut seen = Seen { term: 0, seq: 0 };
        for place in 0..self.len() {
            seen = seen.with(event_pair(self.event(place)));
        }
        seen
    }
}

impl History {
    /// Returns the greatest primary term and the greatest sequence number in any reply or condition.
    pub fn seen(&self) -> Seen
        ensures { result ≡ seen_in self.now }
    {
        self.whole().seen()
    }
}
