ghost use Rattle.std.specs.Prelude.{◌≡◌};
ghost use Rattle.events.specs.Events.{IsHistory};
ghost use Rattle.covers.specs.Covers.{HasNoUnpairedCover};
ghost use Rattle.compose.specs.Verdicts.{HasNoOrderFound};
ghost use Rattle.evidence.specs.Evidence.{AreDocuments};

use covers::NotCovered;
use doc_register::Conflicts;
use events::History;
use std::marker::Model;

/// A history for which no order was found.
///
/// Contracts see the history and the reading of conflicts. The type guarantees that no witnesses without a
/// given pair cover the history. So it is not legal in response order; and if it is complete, that
/// is, if each write was answered (under Maybe, by a reply other than a conflict), no order of its calls
/// explains it.
#[derive(Debug, Drop)]
pub struct Case {
    history: History,
    conflicts: Conflicts,
    // The documents for which no order was found at first.
    unordered: Vec<usize>,
    // Why they have no orders that together explain the history, if numbers are too few.
    why: NotCovered,
}

impl Model for Case {
    ghost use Rattle.events.specs.Events.{IsHistory};
    ghost use Rattle.covers.specs.Covers.{HasNoUnpairedCover};
    ghost use Rattle.compose.specs.Verdicts.{Unproven};
    ghost use Rattle.evidence.specs.Evidence.{AreDocuments};

    ghost Value = { Unproven };

    ghost view = { λ c. record { events = c.history; conflicts = c.conflicts } };

    ghost invariant = { λ c. IsHistory c.history × HasNoUnpairedCover c.conflicts c.history
        × AreDocuments c.history c.unordered.items };
}

impl Case {
    // Returns the case of a history that no witnesses without a given pair cover. Of these documents of it no order was
    // found.
    pub(crate) fn of(
        history: History,
        conflicts: Conflicts,
        unordered: Vec<usize>,
        why: NotCovered,
    ) -> Case
        requires history { IsHistory history }
        requires uncovered { HasNoUnpairedCover conflicts history }
        requires within { AreDocuments history unordered.items }
        ensures { result ≡ record { events = history; conflicts = conflicts } }
    {
        Case {
            history,
            conflicts,
            unordered,
            why,
        }
    }

    /// Returns the history.
    #[tactic(auto, using(crate::proofs::VerdictLemmas::uncovered_has_none))]
    pub fn history(&self) -> &History
        // It is the history of the case.
        ensures same { result.now ≡ self.now.events }
        // It is a history, as its type guarantees.
        ensures history { IsHistory self.now.events }
        // No entries without a given pair cover it. So it is not legal in response order, and if it is
        // complete it is not linearizable.
        ensures none { HasNoOrderFound self.now.conflicts self.now.events }
    {
        // The access to a field makes the type's invariant known from here on.
        let _ = &self.conflicts;
        &self.history
    }

    // Returns the numbers of the documents for which no order was found at first.
    pub(crate) fn unordered(&self) -> &[usize]
        ensures { AreDocuments self.now.events result.now }
    {
        &self.unordered
    }

    // Returns the position of the reply with which the numbers seem to become too few, if that is why no
    // order was found: a guess.
    pub(crate) fn short_at(&self) -> Option<usize> {
        self.why.short_at
    }

    // Returns the numbers of the documents that need more numbers than are free, if that is why no order was found: a
    // guess.
    pub(crate) fn scarce(&self) -> &[usize] {
        &self.why.scarce
    }

    /// Returns how a conflict is read.
    pub fn conflicts(&self) -> Conflicts
        ensures { result ≡ self.now.conflicts }
    {
        self.conflicts
    }
}
