ghost use Rattle.std.specs.Prelude.{◌≡◌};
ghost use Rattle.readings.specs.Reading.{conflicts_as, leaves_events, opensearch_reading, rules_of, strict_reading};

use doc_register::Conflicts;
use evidence::Attempts;
use history::{Failed, TextRules, Writes};

/// What a reply to a get shows.
#[derive(Clone, Copy, Debug, PartialEq, Eq)]
pub enum Gets {
    /// The last change of the document.
    Last,
    /// The last change that the copy had which answered. So gets are judged one by one: each shows nothing
    /// older than what was acknowledged before it was called, and nothing that nobody wrote.
    Any,
}

/// What the status conflict shows.
#[derive(Clone, Copy, Debug, PartialEq, Eq)]
pub enum ConflictReading {
    /// The write was not performed, since the document was in a state that refuses it.
    Plain,
    /// The same, or the write was performed: its first try, say.
    Maybe,
    /// Nothing: neither whether the write was performed, nor what the document was.
    Unknown,
}

/// What a store promises, and so how its history is read.
#[derive(Clone, Copy, Debug, PartialEq, Eq)]
pub struct Reading {
    /// What a reply to a get shows.
    pub gets: Gets,
    /// What the status conflict shows.
    pub conflicts: ConflictReading,
    /// How often a write is performed.
    pub writes: Writes,
    /// What lost lines say that are marked as void.
    pub failed: Failed,
}

/// Returns how often a lost write may have been performed, as the search for documents that are ruled out takes it. If a
/// store may perform a write twice, it may do so a third time, though the reading doesn't try that: no document is ruled
/// out for it.
pub fn attempts_of(writes: Writes) -> Attempts {
    match writes {
        Writes::Once => Attempts::Once,
        Writes::Repeated => Attempts::Any,
    }
}

impl Reading {
    /// Returns the strict reading, which leaves each event as it is.
    pub fn strict() -> Reading
        ensures { result ≡ strict_reading }
    {
        Reading {
            gets: Gets::Last,
            conflicts: ConflictReading::Plain,
            writes: Writes::Once,
            failed: Failed::Lost,
        }
    }

    /// Returns the reading of OpenSearch's documentation: a realtime get may be answered by any active copy, a
    /// conflict is tested against the state of the primary alone, and the coordinating node sends a write again
    /// after it lost the connection to the primary.
    ///
    /// No order may be found for a write that a cluster performed three times. Two gets that a cluster may answer are
    /// refuted: one of a primary that is cut off, until it steps down, and one of a copy that has rolled back, since
    /// another one was promoted, and isn't in sync again.
    pub fn opensearch() -> Reading
        ensures { result ≡ opensearch_reading }
    {
        Reading {
            gets: Gets::Any,
            conflicts: ConflictReading::Unknown,
            writes: Writes::Repeated,
            failed: Failed::Trusted,
        }
    }

    /// Returns how the strict check reads the conflicts: whether a write that was answered with one may have been
    /// performed.
    pub fn conflicts_checked(self) -> Conflicts
        ensures { result ≡ conflicts_as self.conflicts }
    {
        match self.conflicts {
            ConflictReading::Plain => Conflicts::Plain,
            ConflictReading::Maybe | ConflictReading::Unknown => Conflicts::Maybe,
        }
    }

    /// Returns the rules by which a text is read.
    pub fn rules(self) -> TextRules
        ensures { result ≡ rules_of self }
    {
        TextRules {
            failed: self.failed,
            writes: self.writes,
        }
    }
    /// Returns whether the reading leaves each event as it is, so that the text's own history is judged.
    pub fn leaves_events(self) -> bool
        ensures { result ≡ leaves_events self }
    {
        let is_shown = match (self.gets, self.conflicts) {
            (Gets::Last, ConflictReading::Plain | ConflictReading::Maybe) => true,
            (Gets::Last, ConflictReading::Unknown) | (Gets::Any, _) => false,
        };
        let is_alone = match (self.writes, self.failed) {
            (Writes::Once, Failed::Lost) => true,
            (Writes::Once, Failed::Trusted) | (Writes::Repeated, _) => false,
        };
        is_shown && is_alone
    }
}
