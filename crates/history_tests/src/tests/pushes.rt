//! Events added to a history: what it answers to them, and what it has afterwards.

use doc_register::{Conflicts, Op, Reply};
use events::{Event, HistFault, History};
use history::read;
use std::alloc::Global;
use version_pair::{DocId, Pair};

// What an event says of its call: its shard and its operation, its reply, or that it is lost.
#[derive(Clone, Copy)]
enum Said {
    Call(u32, Op),
    Reply(Reply),
    Lost,
}

const CREATE: Op = Op::Create { k: 1 };

// The number of a call, its document, what an event says of it, and what a history answers.
const PUSHED: [(u64, &str, Said, Result<(), HistFault>); 12] = [
    (0, "d", Said::Call(3, CREATE), Ok(())),
    (0, "d", Said::Reply(Reply::Conflict), Ok(())),
    (1, "d", Said::Call(3, Op::Get), Ok(())),
    (2, "e", Said::Call(4, Op::Get), Ok(())),
    (2, "e", Said::Lost, Ok(())),
    (1, "g", Said::Call(9, CREATE), Err(HistFault::SecondCall)),
    (3, "d", Said::Call(5, Op::Get), Err(HistFault::ShardMoved)),
    (3, "d", Said::Reply(Reply::Missing), Err(HistFault::NoCall)),
    (0, "d", Said::Reply(Reply::Conflict), Err(HistFault::Ended)),
    (2, "e", Said::Lost, Err(HistFault::Ended)),
    (1, "d", Said::Reply(Reply::Conflict), Err(HistFault::Kind)),
    (1, "d", Said::Reply(Reply::Missing), Ok(())),
];

// Returns what a history answers to an event. The shard of a call is below 1,024.
fn push(
    alloc: Global,
    history: &mut History,
    no: u64,
    id: &str,
    said: Said,
) -> Option<Result<(), HistFault>> {
    match said {
        Said::Call(shard, op) if shard < 1_024 => {
            let id = DocId::new(alloc, id).ok()?;
            Some(history.push(Event::Call { shard, no, id, op }))
        }
        Said::Call(..) => None,
        Said::Reply(reply) => Some(history.push(Event::Reply { no, reply })),
        Said::Lost => Some(history.push(Event::Lost { no })),
    }
}

// Returns the number of the first events that are answered as they should be.
fn pushed(alloc: Global, history: &mut History) -> usize {
    for (place, (no, id, said, wanted)) in PUSHED.iter().enumerate() {
        if push(alloc, history, *no, id, *said) != Some(*wanted) {
            return place;
        }
    }
    PUSHED.len()
}

#[test]
fn events_pushed(rt: HostRuntime) {
    let mut history = History::new(rt.alloc());
    assert!(rt; history.is_empty());
    assert_eq!(rt; pushed(rt.alloc(), &mut history), 12);
    assert_eq!(rt; history.len(), 6);
}

// An index of "d" on shard 3 that was answered, a get of "d" that is pending, and a get of "e" whose outcome
// is lost (indeterminate).
const THREE_CALLS: &str = r#"{"e":"call","n":0,"id":"d","op":"index","k":1,"shard":3}
{"e":"reply","n":0,"status":201,"body":{"_id":"d","result":"created","_seq_no":0,"_primary_term":1}}
{"e":"call","n":1,"id":"d","op":"get","shard":3}
{"e":"call","n":2,"id":"e","op":"get","shard":4}
{"e":"lost","n":2}
"#;

// Returns the positions of the calls 0 to 3 and of their endings.
fn positions(history: &History) -> [[Option<usize>; 4]; 2] {
    [
        [
            history.call(0),
            history.call(1),
            history.call(2),
            history.call(3),
        ],
        [
            history.ending(0),
            history.ending(1),
            history.ending(2),
            history.ending(3),
        ],
    ]
}

// Returns whether the calls and the endings are where they should be.
fn are_placed(history: &History) -> bool {
    let calls = [Some(0), Some(2), Some(3), None];
    let endings = [Some(1), None, Some(4), None];
    positions(history) == [calls, endings]
}

// Returns whether the event at the position 3 is the get of "e".
fn has_get(history: &History) -> bool {
    if history.len() < 4 {
        return false;
    }
    match history.event(3) {
        Event::Call { shard, no, id, op } => *shard == 4
            && *no == 2
            && id.as_str() == "e"
            && *op == Op::Get,
        _ => false,
    }
}

// Returns the number of the document with this id.
fn number_of(alloc: Global, history: &History, id: &str) -> Option<usize> {
    let id = DocId::new(alloc, id).ok()?;
    history.doc_of(&id)
}

// Returns whether the second document is "e" on the shard 4, and there is no "f".
fn has_documents(alloc: Global, history: &History) -> bool {
    history.docs() == 2
        && history.doc(1).as_str() == "e"
        && history.shard(1) == 4
        && number_of(alloc, history, "e") == Some(1)
        && number_of(alloc, history, "f").is_none()
}

// Returns what is known before an event of the call with this number: whether it is complete, and the pair
// that it took.
fn known_of(history: &History, no: u64, event: usize) -> Option<(bool, Option<Pair>)> {
    let known = history.record(no)?.known_before(event);
    Some((known.is_complete(Conflicts::Plain), known.pair_taken()))
}

// Returns whether that is known of the three calls which should be.
fn are_known(history: &History) -> bool {
    known_of(history, 0, 2) == Some((true, Pair::new(1, 0)))
        && known_of(history, 0, 1) == Some((false, None))
        && known_of(history, 1, 5) == Some((true, None))
        && known_of(history, 3, 5).is_none()
}

// Returns whether the first call is heard at its reply, and the third one never.
fn are_heard(history: &History) -> Option<bool> {
    let heard = history.heard(0)?;
    Some(heard.0 == 1 && heard.1.pair() == Pair::new(1, 0) && history.heard(2).is_none())
}

// Returns whether all of that holds of the history of the three calls.
fn has_three_calls(alloc: Global) -> Option<bool> {
    let history = read(alloc, THREE_CALLS.as_bytes()).ok()?;
    let are_there = are_placed(&history) && has_get(&history) && has_documents(alloc, &history);
    Some(are_there && are_known(&history) && are_heard(&history)?)
}

#[test]
fn three_calls(rt: HostRuntime) {
    assert!(rt; has_three_calls(rt.alloc()) == Some(true));
}
