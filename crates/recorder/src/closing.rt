ghost use Rattle.std.specs.Prelude.{◌≡◌, ◌≤◌, All, IfErr, IfOk, IsTrue, length};
ghost use Rattle.events.specs.declared.fault.HistFault.TheVariants as refused;
ghost use Rattle.events.specs.Events.{HasShard};
ghost use Rattle.events.specs.Refusal.{most_events};
ghost use Rattle.recorder.specs.Closing.{has_full};
ghost use Rattle.recorder.specs.Pens.{IsRising};
ghost use Rattle.recorder.specs.Recordings.{IsRecordingOf, entries_of, lists_of};
ghost use Rattle.recorder.specs.aids.Merging.{AreAccepted, AreDense};

use crate::pen::Pen;
use crate::same_event::is_same_event;
use crate::strand::{Strand, are_all_met, take_numbered};
use events::{Event, HistFault, History, MOST_EVENTS};
use std::alloc::Global;
use version_pair::NoMemory;

/// Returns the lists of the pens, in their order.
pub fn strands_of(alloc: Global, pens: Vec<Pen>) -> Result<Vec<Strand>, NoMemory>
    ensures { IfOk result (λ strands. strands.items ≡ lists_of pens.items) }
{
    let mut strands = Vec::new(alloc);
    for pen in pens {
        strands.push(pen.into_strand())?;
    }
    Ok(strands)
}

/// Returns whether a recording through one of the pens reported that the recording is full.
pub fn is_any_full(pens: &[Pen]) -> bool
    ensures { result ≡ has_full pens.now }
{
    pens.iter().any(|pen| pen.notes.is_full())
}

/// Returns whether these events are the recording of the strands, whose numbers must rise. The entries that
/// were met are taken from the strands.
pub fn is_recording(strands: &mut Vec<Strand>, events: &[Event]) -> bool
    ensures recording { IsTrue result → IsRecordingOf strands.old.items events.now }
    ensures found { All IsRising strands.old.items → IsRecordingOf strands.old.items events.now → IsTrue result }
    ensures shards { IsTrue result → All HasShard events.now }
{
    for (place, event) in events.iter().enumerate() {
        let Some(own) = take_numbered(strands, place as u64) else {
            return false;
        };
        if !is_same_event(&own, event) {
            return false;
        }
    }
    are_all_met(strands)
}

/// Returns the events of the strands in the order of their numbers.
pub fn merge(alloc: Global, mut strands: Vec<Strand>) -> Result<Vec<Event>, NoMemory>
    requires rising { All IsRising strands.items }
    requires dense { AreDense strands.items }
    requires few { length (entries_of strands.items) ≤ most_events }
    ensures recording { IfOk result (λ events. IsRecordingOf strands.items events.items) }
    ensures shards { IfOk result (λ events. All HasShard events.items) }
{
    let mut events = Vec::new(alloc);
    for number in 0..MOST_EVENTS {
        let Some(event) = take_numbered(&mut strands, number as u64) else {
            return Ok(events);
        };
        events.push(event)?;
    }
    Ok(events)
}

/// Returns the history of these events, or the first refusal of one.
pub fn history_of(alloc: Global, events: Vec<Event>) -> Result<History, HistFault>
    requires { All HasShard events.items }
    ensures history { IfOk result (λ history. history ≡ events.items) }
    ensures accepted { AreAccepted events.items → IfErr result (λ fault. fault ≡ refused.NoMemory) }
{
    let mut history = History::new(alloc);
    for event in events {
        history.push(event)?;
    }
    Ok(history)
}
