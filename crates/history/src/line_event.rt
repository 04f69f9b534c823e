ghost use Rattle.std.specs.Prelude.{◌≡◌, IfErr, MatchResult, OnErr, OnOk, Ok, Err};
ghost use Rattle.api_lines.specs.Faults.{IfReported};
ghost use Rattle.api_lines.specs.Fields.{body_seen};
ghost use Rattle.api_lines.specs.declared.history_line.LineSaid.TheVariants.{Reply as SaysReply};
ghost use Rattle.history.specs.Reading.{event_said, heard_of_call};
ghost use Rattle.history.specs.aids.Taking.{HasSaidShard, line_result, takes_reply, takes_said};

use crate::line_fault::line_fault;
use api_lines::{BodyFields, Heard, LineFault, LineSaid, TextCause, heard_of};
use events::{Event, HistFault, History};

// What is heard of a call, by a status and a body.
fn heard_of_event(call: &Event, status: u16, body: &BodyFields<'_>) -> Heard
    ensures { result ≡ heard_of_call call.now status (body_seen body.now) }
{
    match call {
        Event::Call { id, op, .. } => heard_of(op, id, status, body),
        Event::Reply { .. } | Event::Lost { .. } => Heard::Unknown,
    }
}

// The result for an event as one for its line.
fn of_line(pushed: Result<(), HistFault>) -> Result<(), LineFault>
    ensures { result ≡ line_result pushed }
{
    match pushed {
        Ok(()) => Ok(()),
        Err(fault) => Err(line_fault(fault)),
    }
}

// Takes a reply line. Causes to refuse it: `NoCall`, `Ended`, `Stranger`, `Full`. Its call is looked up once.
fn take_reply(
    history: &mut History,
    no: u64,
    status: u16,
    body: &BodyFields<'_>,
) -> Result<(), LineFault>
    ensures ok { OnOk result (takes_reply history.old no status (body_seen body.now)
        ≡ Ok history.new) }
    ensures err { IfErr result (λ fault. IfReported fault (λ cause. takes_reply history.old no status
        (body_seen body.now) ≡ Err cause)) }
    ensures unchanged { OnErr result (history.new ≡ history.old) }
{
    let call = match history.open_call(no) {
        Ok(call) => call,
        Err(fault) => return Err(line_fault(fault)),
    };
    match heard_of_event(history.event(call), status, body) {
        Heard::Reply(reply) => of_line(history.push_answer(call, no, reply)),
        Heard::Unknown => of_line(history.push_loss(call, no)),
        Heard::Stranger => Err(LineFault::Reported(TextCause::Stranger)),
    }
}

/// Takes what a line says by itself, with the body of a reply. A line that is refused leaves the history as
/// it was.
///
/// Causes, in their order: for a call `SecondCall`, `ShardMoved`, `Full`; for a reply `NoCall`, `Ended`,
/// `Stranger`, `Full`; for a lost line `NoCall`, `Ended`, `Full`. A reply of unknown outcome counts as a lost
/// line.
pub fn take_said(
    history: &mut History,
    said: LineSaid<'_>,
    body: &BodyFields<'_>,
) -> Result<(), LineFault>
    requires { HasSaidShard said }
    ensures ok { OnOk result (takes_said history.old (body_seen body.now) said.entry ≡ Ok history.new) }
    ensures err { IfErr result (λ fault. IfReported fault
        (λ cause. takes_said history.old (body_seen body.now) said.entry ≡ Err cause)) }
    ensures unchanged { OnErr result (history.new ≡ history.old) }
{
    match said {
        LineSaid::Call { no, shard, id, op } => of_line(history.push_call(no, shard, &id, op)),
        LineSaid::Reply { no, status } => take_reply(history, no, status, body),
        LineSaid::Lost { no } => of_line(history.push_lost(no)),
    }
}

// The event of a reply line. Causes to refuse it: `NoCall`, `Ended`, `Stranger`.
fn reply_event(
    history: &History,
    no: u64,
    status: u16,
    body: &BodyFields<'_>,
) -> Result<Event, LineFault>
    ensures { MatchResult result
        (λ event. event_said history.now (body_seen body.now) (SaysReply no status) ≡ Ok event)
        (λ fault. IfReported fault
        (λ cause. event_said history.now (body_seen body.now) (SaysReply no status) ≡ Err cause)) }
{
    let call = match history.open_call(no) {
        Ok(call) => call,
        Err(fault) => return Err(line_fault(fault)),
    };
    match heard_of_event(history.event(call), status, body) {
        Heard::Reply(reply) => Ok(Event::Reply { no, reply }),
        Heard::Unknown => Ok(Event::Lost { no }),
        Heard::Stranger => Err(LineFault::Reported(TextCause::Stranger)),
    }
}

/// Returns the event of what a line says by itself, with the body of a reply. The history is left as it is.
///
/// Causes to refuse a reply: `NoCall`, `Ended`, `Stranger`.
pub fn said_event(
    history: &History,
    said: LineSaid<'_>,
    body: &BodyFields<'_>,
) -> Result<Event, LineFault>
    ensures { MatchResult result
        (λ event. event_said history.now (body_seen body.now) said.entry ≡ Ok event)
        (λ fault. IfReported fault
        (λ cause. event_said history.now (body_seen body.now) said.entry ≡ Err cause)) }
{
    match said {
        LineSaid::Call { no, shard, id, op } => {
            let id = id.to_id(history.allocator())?;
            Ok(Event::Call { shard, no, id, op })
        }
        LineSaid::Reply { no, status } => reply_event(history, no, status, body),
        LineSaid::Lost { no } => Ok(Event::Lost { no }),
    }
}
