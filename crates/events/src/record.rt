ghost use Rattle.std.specs.Prelude.{◌≡◌, ◌↔◌, IsTrue};
ghost use Rattle.events.specs.Heard.{IsComplete, known_before, pair_of};

use doc_register::{Conflicts, Op, Reply};
use version_pair::Pair;

/// One call of a document, as a history has it. Positions are indices of events, from 0.
#[derive(Clone, Copy, Debug, PartialEq, Eq)]
pub struct Rec {
    /// The number of the call.
    pub no: u64,
    pub op: Op,
    /// The position of the call.
    pub call_at: usize,
    /// The position of the reply, and the reply, if the call was answered.
    pub heard: Option<(usize, Reply)>,
}

impl Rec {
    /// Returns the pair with which the call was performed, if its reply shows it.
    pub fn pair_taken(&self) -> Option<Pair>
        ensures { result ≡ pair_of self.now.heard }
    {
        match &self.heard {
            Some(heard) => heard.1.pair_taken(),
            None => None,
        }
    }

    /// Returns the call as it was known before an event: without what was heard later.
    pub fn known_before(self, event: usize) -> Rec
        ensures { result ≡ known_before event self }
    {
        match self.heard {
            Some(heard) if heard.0 < event => self,
            _ => Rec {
                heard: None,
                ..self
            },
        }
    }

    /// Returns whether the call is a get, or has a reply that says whether the write was performed. Under
    /// Maybe a conflict doesn't say it.
    pub fn is_complete(&self, conflicts: Conflicts) -> bool
        ensures { IsTrue result ↔ IsComplete conflicts self.now }
    {
        match (self.op, self.heard) {
            (Op::Get, _) => true,
            (_, Some((_, Reply::Conflict))) => conflicts == Conflicts::Plain,
            (_, Some(_)) => true,
            (_, None) => false,
        }
    }
}
