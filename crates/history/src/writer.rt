ghost use Rattle.std.specs.Prelude.{◌≡◌, ◌∷◌, [], IfOk, IsSome, OnOk, Ok, option_map};
ghost use Rattle.serde_json.specs.View.{view};
ghost use Rattle.history.specs.Reading.{history_text};
ghost use Rattle.history.specs.Text.{IsHistoryText};
ghost use Rattle.history.specs.Written.{event_value as value_of_event, id_of, written_text};
ghost use Rattle.history.specs.aids.Writing.{AreWritten, HasItsCall, IsInRange};

use crate::written_line::{call_value, lost_value, reply_value, write_value};
use events::{Event, History};
use serde_json::Value;
use std::alloc::Global;
use version_pair::{DocId, NoMemory};

// The document of the call with this number.
fn called_id(history: &History, no: u64) -> Option<&DocId>
    ensures { option_map (λ id. id.now) result ≡ id_of history.now no }
{
    match history.event(history.call(no)?) {
        Event::Call { id, .. } => Some(id),
        Event::Reply { .. } | Event::Lost { .. } => None,
    }
}

// The line of an event of the history, as a value.
fn event_value(alloc: Global, history: &History, event: &Event) -> Result<Value, NoMemory>
    requires { HasItsCall history.now event.now }
    ensures value { IfOk result (λ value. view value ≡ value_of_event history.now event.now) }
    ensures in_range { IsInRange event.now }
{
    match event {
        Event::Call { no, shard, id, op } => call_value(alloc, *no, *shard, id, op),
        Event::Reply { no, reply } => match called_id(history, *no) {
            Some(id) => reply_value(alloc, *no, id, *reply),
            None => unreachable!(),
        },
        Event::Lost { no } => lost_value(alloc, *no),
    }
}

// Adds the line of an event of the history.
fn write_event(
    alloc: Global,
    history: &History,
    event: &Event,
    text: &mut Vec<u8>,
) -> Result<(), NoMemory>
    requires { HasItsCall history.now event.now }
    ensures { OnOk result (AreWritten history.now text.old.items text.new.items (event.now ∷ [])) }
{
    let value = event_value(alloc, history, event)?;
    write_value(alloc, &value, text)
}

/// Returns the text of a history: compact JSON lines with their keys in byte order, each ended by a line
/// feed. A call names its shard only if it is not 0. A reply has the status and the body that
/// `api_lines::write_reply` gives.
///
/// The result is a history text, and is read back as the same events.
pub fn write(alloc: Global, history: &History) -> Result<Vec<u8>, NoMemory>
    // The bytes are those that the definition gives for the events.
    ensures text { IfOk result (λ text. text.items ≡ written_text history.now) }
    // They are a history text of just these events.
    ensures is_text { IfOk result (λ text. IsHistoryText text.items history.now) }
    // They are read back as just these events.
    ensures reads_back { IfOk result (λ text. history_text text.items ≡ Ok history.now) }
{
    let mut text = Vec::new(alloc);
    for place in 0..history.len() {
        write_event(alloc, history, history.event(place), &mut text)?;
    }
    Ok(text)
}
