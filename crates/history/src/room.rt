//! The room that the events of a text take.
ghost use Rattle.std.specs.Prelude.{◌≡◌, ◌≤◌, Err, IfErr, IfOk, Ok, OnErr, OnOk};
ghost use Rattle.api_lines.specs.Faults.{IfReported};
ghost use Rattle.api_lines.specs.Fields.{body_seen};
ghost use Rattle.history.specs.ByRules.{room_of_call as room_of_op};
ghost use Rattle.history.specs.aids.Rules.{IsRoomTaken, cause_without_room, room_said, takes_in_room};
ghost use Rattle.history.specs.aids.Taking.{HasSaidShard, takes_said};

use crate::line_event::{said_event, take_said};
use crate::line_fault::line_fault;
use crate::text_rules::Writes;
use api_lines::{BodyFields, LineFault, LineSaid, TextCause};
use doc_register::Op;
use events::{History, MOST_EVENTS};

// The room of a call.
fn room_of_call(writes: Writes, op: Op) -> usize
    ensures room { result ≡ room_of_op writes op }
    ensures within { result ≤ 2 }
{
    match writes {
        Writes::Once => 1,
        Writes::Repeated => match op {
            Op::Index { cond: None, .. } | Op::Delete { cond: None } | Op::Create { .. } => 2,
            Op::Index { .. } | Op::Delete { .. } | Op::Get => 1,
        },
    }
}

// The room that the event of what a line says takes.
fn room_of(writes: Writes, said: &LineSaid<'_>) -> usize
    ensures room { result ≡ room_said writes said.now }
    ensures within { result ≤ 2 }
{
    match said {
        LineSaid::Call { op, .. } => room_of_call(writes, *op),
        LineSaid::Reply { .. } | LineSaid::Lost { .. } => 1,
    }
}

// The reason to refuse a line for which there is no room: the first for which it is refused anyway, and `Full`
// if there is none.
#[inline(never)]
fn refusal_without_room(history: &History, said: LineSaid<'_>, body: &BodyFields<'_>) -> LineFault
    ensures { IfReported result (λ cause. cause
        ≡ cause_without_room (takes_said history.now (body_seen body.now) said.entry)) }
{
    match said_event(history, said, body) {
        Ok(event) => match history.refusal(&event) {
            Some(fault) => line_fault(fault),
            None => LineFault::Reported(TextCause::Full),
        },
        Err(fault) => fault,
    }
}

/// Takes what a line says by itself, with the body of a reply, if there is room for its event beside the room
/// that the events take. Returns the room that is taken then. A line that is refused leaves the history as it
/// was.
///
/// Causes: those of `take_said`; of them `Full` also if there is no room.
pub fn take_in_room(
    history: &mut History,
    room: usize,
    writes: Writes,
    said: LineSaid<'_>,
    body: &BodyFields<'_>,
) -> Result<usize, LineFault>
    requires shard { HasSaidShard said }
    requires taken { IsRoomTaken writes history.now room }
    ensures ok { OnOk result (takes_in_room writes history.old (body_seen body.now) said.entry ≡ Ok history.new) }
    ensures room { IfOk result (IsRoomTaken writes history.new) }
    ensures err { IfErr result (λ fault. IfReported fault
        (λ cause. takes_in_room writes history.old (body_seen body.now) said.entry ≡ Err cause)) }
    ensures unchanged { OnErr result (history.new ≡ history.old) }
{
    let after = room + room_of(writes, &said);
    if after > MOST_EVENTS {
        return Err(refusal_without_room(history, said, body));
    }
    take_said(history, said, body)?;
    Ok(after)
}
