//! Eight clients on threads, each with many writes.

ghost use Rattle.std.specs.Prelude.{◌<◌, length};

use crate::tests::testing::{Pacing, alike, recorded_on_threads};
use doc_register::Op;
use events::{Event, History};
use std::alloc::Global;
use std::sync::Wait;
use std::thread::Threads;
use workload::{Kind, Turn};

// The number of clients, and the number of writes that each asks for: with their endings each client records
// 100,000 events.
const CLIENTS: usize = 8;

const WRITES: usize = 50_000;

// What a walk over the events knows of a client: the number of writes that it asked for, and its open call.
#[derive(Clone, Copy, PartialEq)]
struct Seen {
    writes: u64,
    open: Option<u64>,
}

// The client that wrote the number, and the index of the write among its own.
fn written_by(k: u64) -> (usize, u64) {
    let before = k.saturating_sub(1);
    let writes = WRITES as u64;
    ((before / writes) as usize, before % writes)
}

// The number that the event's write writes, and the number of its call.
fn write_of(history: &History, place: usize) -> Option<(u64, u64)>
    requires { place < length history.now }
{
    let no = match history.event(place) {
        Event::Call { no, .. } | Event::Lost { no } => *no,
        Event::Reply { .. } => return None,
    };
    match history.event(history.call(no)?) {
        Event::Call {
            op: Op::Index { k, .. },
            ..
        } => Some((*k, no)),
        _ => None,
    }
}

// Takes the event at the index as the next one of its client. Returns whether it is.
fn is_next(seen: &mut [Seen; CLIENTS], history: &History, place: usize) -> bool
    requires { place < length history.now }
{
    let Some((k, no)) = write_of(history, place) else {
        return false;
    };
    let (client, write) = written_by(k);
    let Some(seen) = seen.get_mut(client) else {
        return false;
    };
    if no == place as u64 {
        let is_turn = seen.open.is_none() && seen.writes == write;
        *seen = Seen {
            writes: write.saturating_add(1),
            open: Some(no),
        };
        is_turn
    } else {
        seen.open.take() == Some(no)
    }
}

// Returns what the clients record at a target that reports no outcome.
fn history_of<R: Threads + Wait + Sync>(rt: &R, alloc: Global) -> Option<History> {
    let turn = Turn {
        doc: 0,
        kind: Kind::Put,
    };
    let plan = alike(alloc, CLIENTS, WRITES, turn)?;
    recorded_on_threads(rt, alloc, &plan, &Pacing::new(&[]), 1)
}

// Returns what is known of the clients after all events, each of which is the next one of its client.
fn clients_of(history: &History) -> Option<[Seen; CLIENTS]> {
    let mut seen = [Seen {
        writes: 0,
        open: None,
    }; CLIENTS];
    for place in 0..history.len() {
        if !is_next(&mut seen, history, place) {
            return None;
        }
    }
    Some(seen)
}

// Returns whether each client's writes are recorded in their order, and all of them ended.
fn are_recorded<R: Threads + Wait + Sync>(rt: &R, alloc: Global) -> Option<bool> {
    let history = history_of(rt, alloc)?;
    let clients = clients_of(&history)?;
    let done = Seen {
        writes: WRITES as u64,
        open: None,
    };
    Some(history.len() == 2 * CLIENTS * WRITES && clients == [done; CLIENTS])
}

#[test]
fn eight_threads(rt: HostRuntime) {
    assert!(rt; are_recorded(&rt, rt.alloc()) == Some(true));
}
