ghost use Rattle.std.specs.Prelude.{◌≡◌, ◌≢◌, ◌↔◌, ◌∷◌, [], All, IfNone, IfSome, IsTrue, Some};
ghost use Rattle.std.specs.List.Sorted.{IsPermutation};
ghost use Rattle.events.specs.Events.{HasShard};
ghost use Rattle.recorder.specs.Pens.{IsRising};
ghost use Rattle.recorder.specs.Recordings.{entries_of};
ghost use Rattle.recorder.specs.aids.Notes.{IsEntryAt};
ghost use Rattle.recorder.specs.aids.Merging.{next_number};

use events::Event;
use std::collections::VecDeque;
use std::marker::Model;

/// The entries of a pen's list that were not met yet, while pens are closed.
#[derive(Drop)]
pub struct Strand {
    entries: VecDeque<(u64, Event)>,
}

impl Model for Strand {
    ghost use Rattle.std.specs.Prelude.{List, ℕ};
    ghost use Rattle.events.specs.declared.event.Event.{Event};

    ghost Value = { List (ℕ × Event) };

    ghost use Rattle.std.specs.Prelude.{All};
    ghost use Rattle.recorder.specs.aids.Notes.{IsEntryAt};

    ghost view = { λ s. s.entries.items };

    ghost invariant = { λ s. All (λ entry. IsEntryAt entry.0 entry.1) s.entries.items };
}

impl Strand {
    /// Returns the strand of a whole list.
    pub fn new(list: Vec<(u64, Event)>) -> Strand
        requires { All (λ entry. IsEntryAt entry.0 entry.1) list.items }
        ensures { result ≡ list.items }
    {
        Strand {
            entries: VecDeque::from(list),
        }
    }

    /// Returns whether each entry was met.
    pub fn is_empty(&self) -> bool
        ensures { IsTrue result ↔ (self.now ≡ []) }
    {
        self.entries.is_empty()
    }

    /// Returns whether the next entry has this number.
    pub fn is_next(&self, number: u64) -> bool
        ensures { IsTrue result ↔ (next_number self.now ≡ Some number) }
    {
        match self.entries.front() {
            Some((next, _)) => *next == number,
            None => false,
        }
    }

    /// Takes the next entry, if it has this number.
    pub fn take_next(&mut self, number: u64) -> Option<Event>
        ensures some { IfSome result (λ event. self.old ≡ (number, event) ∷ self.new) }
        ensures shard { IfSome result HasShard }
        ensures none { IfNone result ((self.new ≡ self.old) × (next_number self.old ≢ Some number)) }
    {
        if !self.is_next(number) {
            return None;
        }
        let (_, event) = self.entries.pop_front()?;
        Some(event)
    }
}

/// Takes the entry with this number, if it is the next one of a strand.
pub fn take_numbered(strands: &mut Vec<Strand>, number: u64) -> Option<Event>
    ensures some { IfSome result (λ event. IsPermutation (entries_of strands.old.items)
        ((number, event) ∷ entries_of strands.new.items)) }
    ensures rising { All IsRising strands.old.items → All IsRising strands.new.items }
    ensures none { IfNone result (All (λ list. next_number list ≢ Some number) strands.old.items) }
    ensures shard { IfSome result HasShard }
{
    let strand = strands.iter().position(|strand| strand.is_next(number))?;
    let event = strands[strand].take_next(number)?;
    Some(event)
}

/// Returns whether each entry of each strand was met.
#[tactic(auto, using(crate::proofs::MergeLemmas::entries_none))]
pub fn are_all_met(strands: &[Strand]) -> bool
    ensures { IsTrue result ↔ (entries_of strands.now ≡ []) }
{
    for strand in strands {
        if !strand.is_empty() {
            return false;
        }
    }
    true
}
