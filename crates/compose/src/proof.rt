ghost use Rattle.std.specs.Prelude.{◌≡◌};
ghost use Rattle.events.specs.Events.{IsHistory};
ghost use Rattle.events.specs.Order.{IsLinearizable};
ghost use Rattle.covers.specs.Covers.{AreWitnesses};
ghost use Rattle.compose.specs.Verdicts.{left_out_of};

use crate::counts::Counts;
use doc_register::Conflicts;
use events::History;
use places::DocWitness;
use std::marker::Model;

/// A history with the witnesses of its documents.
///
/// Contracts see the history, the witnesses and the reading of conflicts. The type guarantees that the
/// witnesses cover the history, each document once and no pair of a shard taken twice; so one order of all
/// its calls explains it.
#[derive(Debug, Drop)]
pub struct Proof {
    history: History,
    witnesses: Vec<DocWitness>,
    conflicts: Conflicts,
}

impl Model for Proof {
    ghost use Rattle.events.specs.Events.{IsHistory};
    ghost use Rattle.covers.specs.Covers.{AreWitnesses};
    ghost use Rattle.compose.specs.Verdicts.{Proven};

    ghost Value = { Proven };

    ghost view = { λ p. record {
      events = p.history;
      witnesses = p.witnesses.items;
      conflicts = p.conflicts;
    } };

    ghost invariant = { λ p. IsHistory p.history × AreWitnesses p.conflicts p.history p.witnesses.items };
}

impl Proof {
    // Returns the proof of a history that these witnesses cover.
    pub(crate) fn of(history: History, witnesses: Vec<DocWitness>, conflicts: Conflicts) -> Proof
        requires history { IsHistory history }
        requires cover { AreWitnesses conflicts history witnesses.items }
        ensures { result ≡ record {
          events = history;
          witnesses = witnesses.items;
          conflicts = conflicts;
        } }
    {
        Proof {
            history,
            witnesses,
            conflicts,
        }
    }

    /// Returns the history.
    #[tactic(auto, using(crate::proofs::VerdictLemmas::witnesses_explain))]
    pub fn history(&self) -> &History
        // It is the history of the proof.
        ensures same { result.now ≡ self.now.events }
        // It is a history, as its type guarantees.
        ensures history { IsHistory self.now.events }
        // One order of all its calls explains it.
        ensures linearizable { IsLinearizable self.now.conflicts self.now.events }
    {
        // The access to a field makes the type's invariant known from here on.
        let _ = &self.conflicts;
        &self.history
    }

    /// Returns the witnesses of its documents.
    pub fn witnesses(&self) -> &[DocWitness]
        // They are the witnesses of the proof.
        ensures same { result.now ≡ self.now.witnesses }
        // They cover the history.
        ensures cover { AreWitnesses self.now.conflicts self.now.events self.now.witnesses }
    {
        // The access to a field makes the type's invariant known from here on.
        let _ = &self.conflicts;
        &self.witnesses
    }

    /// Returns the number of its calls that are in no place: they are left out of the order.
    pub fn left_out(&self) -> usize
        ensures { result ≡ left_out_of self.now }
    {
        Counts::of(self).left_out
    }

    /// Returns how a conflict is read.
    pub fn conflicts(&self) -> Conflicts
        ensures { result ≡ self.now.conflicts }
    {
        self.conflicts
    }
}
