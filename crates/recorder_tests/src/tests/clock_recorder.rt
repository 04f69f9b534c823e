//! The recorder with one atomic number.

ghost use Rattle.std.specs.Prelude.{◌≡◌, ◌∷◌, [], IfSome};

use crate::tests::testing::{has_both, is_filled, record_both};
use recorder::{ClockPen, ClockRecorder, CloseFault, StartFault};
use std::alloc::Global;
use std::sync::Wait;

// Returns the number of the pens that a recorder is started with.
fn started(alloc: Global, count: usize) -> Result<usize, StartFault> {
    let (_, pens) = ClockRecorder::start(alloc, count)?;
    Ok(pens.len())
}

// Returns the number of events in the history of eight new pens.
fn events_of_eight(alloc: Global) -> Option<usize> {
    let (recorder, pens) = ClockRecorder::start(alloc, 8).ok()?;
    let history = recorder.close(pens).ok()?;
    Some(history.len())
}

#[test]
fn pen_counts(rt: HostRuntime) {
    for (count, wanted) in [
        (0, Err(StartFault::Count)),
        (8, Ok(8)),
        (9, Err(StartFault::Count)),
    ] {
        assert!(rt; started(rt.alloc(), count) == wanted, "{count}");
    }
    assert!(rt; events_of_eight(rt.alloc()) == Some(0));
}

// Returns the recorder and the pen that come back if the recorder is closed without its other pen.
fn handed_back(
    alloc: Global,
    recorder: ClockRecorder,
    pen: ClockPen,
) -> Option<(ClockRecorder, Vec<ClockPen>)>
    requires { pen.clock ≡ recorder.clock }
    ensures { IfSome result (λ back. (back.0 ≡ recorder) × (back.1.items ≡ pen ∷ [])) }
{
    match recorder.close(vec![in alloc; pen].ok()?) {
        Err(CloseFault::PenMissing(recorder, pens)) => Some((recorder, pens)),
        _ => None,
    }
}

// Returns whether two pens recorded what becomes one history, after one of them was missing.
fn is_closed(
    alloc: Global,
    recorder: ClockRecorder,
    first: ClockPen,
    second: ClockPen,
) -> Option<bool>
    requires { (first.clock ≡ recorder.clock) × (second.clock ≡ recorder.clock) }
{
    let (recorder, mut pens) = handed_back(alloc, recorder, first)?;
    pens.push(second).ok()?;
    let history = recorder.close(pens).ok()?;
    Some(has_both(&history))
}

// Returns whether what two pens record becomes one history.
fn is_recorded<R: Wait>(rt: &R, alloc: Global) -> Option<bool> {
    let (recorder, mut pens) = ClockRecorder::start(alloc, 2).ok()?;
    let mut second = pens.pop()?;
    let mut first = pens.pop()?;
    if record_both(rt, alloc, &recorder, &mut first, &mut second)? {
        is_closed(alloc, recorder, first, second)
    } else {
        Some(false)
    }
}

#[test]
fn pens_meet(rt: HostRuntime) {
    assert!(rt; is_recorded(&rt, rt.alloc()) == Some(true));
}

// Returns whether a recording that is filled through one pen becomes a history of the most events.
fn is_full<R: Wait>(rt: &R, alloc: Global) -> Option<bool> {
    let (recorder, mut pens) = ClockRecorder::start(alloc, 1).ok()?;
    let mut pen = pens.pop()?;
    let is_filled = is_filled(rt, alloc, &recorder, &mut pen)?;
    let history = recorder.close(vec![in alloc; pen].ok()?).ok()?;
    Some(is_filled && history.len() == 1_048_576)
}

#[test]
fn full(rt: HostRuntime) {
    assert!(rt; is_full(&rt, rt.alloc()) == Some(true));
}
