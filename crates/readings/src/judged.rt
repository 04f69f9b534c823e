ghost use Rattle.std.specs.Prelude.{◌≡◌, ◌++◌, ◌∷◌, ◌≤◌, ◌<◌, [], ℕ, IfOk, IfSome, OnOk, None, Some, slice_get, length};
ghost use Rattle.events.specs.declared.event.Event.{Event as AnyEvent};
ghost use Rattle.events.specs.declared.event.Event.TheVariants.{Call};
ghost use Rattle.std.specs.Option.{option_to_list};
ghost use Rattle.events.specs.Events.{HasShard};
ghost use Rattle.events.specs.Refusal.{most_events, refusal_of};
ghost use Rattle.history.specs.Laws.{AreLost};
ghost use Rattle.history.specs.ByRules.{is_repeatable, room_taken};
ghost use Rattle.readings.specs.Reading.{heeded, is_among, is_hidden, read_as};
ghost use Rattle.readings.specs.aids.Judging.{IsReadAs, call_number, ending_number, twin_event};

use crate::reading::{ConflictReading, Gets, Reading};
use doc_register::{Op, Reply};
use events::{Event, History};
use history::{Failed, Voids, Writes};
use version_pair::{DocId, NoMemory};

/// Returns whether a write may be performed a second time.
pub fn is_repeatable_write(op: &Op) -> bool
    ensures { result ≡ is_repeatable op.now }
{
    match op {
        Op::Get => false,
        Op::Index { cond, .. } | Op::Delete { cond } => cond.is_none(),
        Op::Create { .. } => true,
    }
}

impl Reading {
    // Whether the reply is read as a lost outcome.
    fn hides(self, reply: &Reply) -> bool
        ensures { result ≡ is_hidden self reply.now }
    {
        match reply {
            Reply::Indexed { .. } | Reply::Deleted { .. } => false,
            Reply::Found { .. } | Reply::Missing => self.gets == Gets::Any,
            Reply::Conflict => self.conflicts == ConflictReading::Unknown,
        }
    }

    /// Returns whether the call is read as void.
    pub(crate) fn is_void(self, voids: &Voids, no: u64) -> bool
        ensures { result ≡ is_among (heeded self.failed voids.now) no }
    {
        match self.failed {
            Failed::Lost => false,
            Failed::Trusted => voids.contains(no),
        }
    }
}

// An event as it is read, and the second call behind it if the store may have performed its write twice.
#[derive(Drop)]
struct ReadEvent {
    event: Event,
    twin: Option<Event>,
}

impl Reading {
    // The number of the call at a position, which has this number in the text.
    fn call_number(self, place: usize, no: u64) -> u64
        requires { place < most_events }
        ensures { result ≡ call_number self.writes place no }
    {
        match self.writes {
            Writes::Once => no,
            Writes::Repeated => 2 * place as u64,
        }
    }

    // The number by which an ending names the call that has this number in the text.
    fn ending_number(self, text: &History, no: u64) -> u64
        ensures { result ≡ ending_number self.writes text.now no }
    {
        // Calling `len` makes it known that the history is within the limit.
        let _ = text.len();
        match self.writes {
            Writes::Once => no,
            Writes::Repeated => match text.call(no) {
                Some(place) => 2 * place as u64,
                None => 0,
            },
        }
    }
}

// The twin of the call at a position, if its write may be performed twice.
fn twin_of(
    reading: Reading,
    place: usize,
    shard: u32,
    id: &DocId,
    op: &Op,
) -> Result<Option<Event>, NoMemory>
    requires { place < most_events }
    ensures { (no : ℕ) → IfOk result (λ twin. twin ≡ twin_event reading.writes place (Call shard no id.now op.now)) }
{
    match reading.writes {
        Writes::Once => Ok(None),
        Writes::Repeated if is_repeatable_write(op) => Ok(Some(Event::Call {
            shard,
            no: 2 * place as u64 + 1,
            id: id.copy()?,
            op: *op,
        })),
        Writes::Repeated => Ok(None),
    }
}

// The event of the text at a position, as it is read.
fn read_event(
    text: &History,
    voids: &Voids,
    reading: Reading,
    place: usize,
) -> Result<ReadEvent, NoMemory>
    requires { place < length text.now }
    ensures { (e : AnyEvent) → slice_get text.now place ≡ Some e
        → IfOk result (IsReadAs reading voids.now text.now place e) }
{
    // Calling `len` makes it known that the history is within the limit.
    let _ = text.len();
    match text.event(place) {
        Event::Call { shard, no, id, op } => {
            let op = if reading.is_void(voids, *no) {
                Op::Get
            } else {
                *op
            };
            let twin = twin_of(reading, place, *shard, id, &op)?;
            let event = Event::Call {
                shard: *shard,
                no: reading.call_number(place, *no),
                id: id.copy()?,
                op,
            };
            Ok(ReadEvent { event, twin })
        }
        Event::Reply { no, reply } => {
            let no = reading.ending_number(text, *no);
            let event = if reading.hides(reply) {
                Event::Lost { no }
            } else {
                Event::Reply { no, reply: *reply }
            };
            Ok(ReadEvent { event, twin: None })
        }
        Event::Lost { no } => Ok(ReadEvent {
            event: Event::Lost {
                no: reading.ending_number(text, *no),
            },
            twin: None,
        }),
    }
}

// Adds a twin, if there is one. It fails only if memory is refused.
fn push_twin(judged: &mut History, twin: Option<Event>) -> Result<(), NoMemory>
    requires { IfSome twin (λ twin. (refusal_of judged.old twin ≡ None) × HasShard twin) }
    ensures { OnOk result (judged.new ≡ judged.old ++ option_to_list twin) }
{
    if let Some(twin) = twin {
        judged.push_accepted(twin)?;
    }
    Ok(())
}

/// Returns the history that the strict check judges: the text's, as this reading reads it.
pub fn judged_history(text: &History, voids: &Voids, reading: Reading) -> Result<History, NoMemory>
    // The void calls are lost in the text.
    requires void { AreLost text.now voids.now }
    // There is room for what is read.
    requires room { room_taken reading.writes text.now ≤ most_events }
    // The events are those as which the reading reads the text's.
    ensures { IfOk result (λ judged. judged ≡ read_as reading voids.now text.now) }
{
    let mut judged = History::with_keys(text.allocator(), text.keys());
    for place in 0..text.len() {
        let read = read_event(text, voids, reading, place)?;
        judged.push_accepted(read.event)?;
        push_twin(&mut judged, read.twin)?;
    }
    Ok(judged)
}
