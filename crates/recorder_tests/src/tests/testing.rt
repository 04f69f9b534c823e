//! What tests of both recorders share.

use doc_register::{Op, Reply};
use events::History;
use recorder::{RecFault, Recording};
use std::alloc::Global;
use std::sync::Wait;
use version_pair::DocId;

// What a recorder says of an event: its number, or why it is refused.
type Said = Result<u64, RecFault>;

// Calls a get of `d`.
fn called<X: Recording, R: Wait>(
    rt: &R,
    alloc: Global,
    recorder: &X,
    pen: &mut X::Pen,
) -> Option<Said>
    requires { X.has_pen recorder.now pen.old }
    ensures { X.has_pen recorder.now pen.new }
{
    let id = DocId::new(alloc, "d").ok()?;
    Some(recorder.call(rt, pen, id, Op::Get))
}

// Ends the calls 0 and 1, which are those of two pens: the other pen's call, with a reply that a get can't
// have, with its reply, once more, and by its loss.
fn ended<X: Recording, R: Wait>(
    rt: &R,
    recorder: &X,
    first: &mut X::Pen,
    second: &mut X::Pen,
) -> [Said; 5]
    requires { X.has_pen recorder.now first.old × X.has_pen recorder.now second.old }
    ensures { X.has_pen recorder.now first.new × X.has_pen recorder.now second.new }
{
    [
        recorder.lost(rt, first, 1),
        recorder.reply(rt, second, 1, Reply::Conflict),
        recorder.reply(rt, first, 0, Reply::Missing),
        recorder.reply(rt, first, 0, Reply::Missing),
        recorder.lost(rt, second, 1),
    ]
}

// What is said of that.
const ENDED: [Said; 5] = [
    Err(RecFault::NotMine),
    Err(RecFault::Kind),
    Ok(2),
    Err(RecFault::Ended),
    Ok(3),
];

/// Records two calls through two pens, and their endings. Returns whether each pen gets the result that it
/// should.
pub fn record_both<X: Recording, R: Wait>(
    rt: &R,
    alloc: Global,
    recorder: &X,
    first: &mut X::Pen,
    second: &mut X::Pen,
) -> Option<bool>
    requires { X.has_pen recorder.now first.old × X.has_pen recorder.now second.old }
    ensures { X.has_pen recorder.now first.new × X.has_pen recorder.now second.new }
{
    let calls = [
        called(rt, alloc, recorder, first)?,
        called(rt, alloc, recorder, second)?,
    ];
    let endings = ended(rt, recorder, first, second);
    Some(calls == [Ok(0), Ok(1)] && endings == ENDED)
}

/// Returns whether a history has the two calls, the reply and the loss, and nothing else.
pub fn has_both(history: &History) -> bool {
    history.len() == 4
        && history.docs() == 1
        && history.call(0) == Some(0)
        && history.call(1) == Some(1)
        && history.heard(0) == Some((2, Reply::Missing))
        && history.ending(1) == Some(3)
        && history.heard(1).is_none()
}

// Records a get of `d` with a reply. Returns the reply's number.
fn record_answered_get<X: Recording, R: Wait>(
    rt: &R,
    alloc: Global,
    recorder: &X,
    pen: &mut X::Pen,
) -> Option<u64>
    requires { X.has_pen recorder.now pen.old }
    ensures { X.has_pen recorder.now pen.new }
{
    let no = called(rt, alloc, recorder, pen)?.ok()?;
    recorder.reply(rt, pen, no, Reply::Missing).ok()
}

// Fills a recording by gets of `d`, each called and answered. Returns the last number.
fn fill<X: Recording, R: Wait>(rt: &R, alloc: Global, recorder: &X, pen: &mut X::Pen) -> Option<u64>
    requires { X.has_pen recorder.now pen.old }
    ensures { X.has_pen recorder.now pen.new }
{
    let mut last = None;
    for _ in 0..524_288 {
        last = Some(record_answered_get(rt, alloc, recorder, pen)?);
    }
    last
}

// Calls a get through the pen of a full recording, ends call 0 once more, and calls another get.
fn refused<X: Recording, R: Wait>(
    rt: &R,
    alloc: Global,
    recorder: &X,
    pen: &mut X::Pen,
) -> Option<[Said; 3]>
    requires { X.has_pen recorder.now pen.old }
    ensures { X.has_pen recorder.now pen.new }
{
    let call = called(rt, alloc, recorder, pen)?;
    let ending = recorder.reply(rt, pen, 0, Reply::Missing);
    let further_call = called(rt, alloc, recorder, pen)?;
    Some([call, ending, further_call])
}

// What is said of that.
const REFUSED: [Said; 3] = [
    Err(RecFault::Full),
    Err(RecFault::Ended),
    Err(RecFault::Full),
];

/// Fills a recording. Returns whether it then refuses each call, and the second ending of a call as before.
pub fn is_filled<X: Recording, R: Wait>(
    rt: &R,
    alloc: Global,
    recorder: &X,
    pen: &mut X::Pen,
) -> Option<bool>
    requires { X.has_pen recorder.now pen.old }
    ensures { X.has_pen recorder.now pen.new }
{
    let last = fill(rt, alloc, recorder, pen)?;
    let refused = refused(rt, alloc, recorder, pen)?;
    Some(last == 1_048_575 && refused == REFUSED)
}
