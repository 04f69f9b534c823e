//! What clients record, on threads and in turns.

use crate::tests::testing::{GET, Pacing, alike, recorded_in_turns, recorded_on_threads};
use events::History;
use history::write;
use std::alloc::Global;
use std::sync::Wait;
use std::thread::Threads;
use workload::{Kind, Plan, Turn};

// Returns whether a history is written as this text.
fn has_text(alloc: Global, history: &History, text: &str) -> Option<bool> {
    Some(write(alloc, history).ok()?.as_slice() == text.as_bytes())
}

const LOST: &str = r#"{"e":"call","id":"d0","n":0,"op":"get"}
{"e":"lost","n":0}
"#;

const FOUND: &str = r#"{"e":"call","id":"d0","n":0,"op":"get"}
{"body":{"_id":"d0","_primary_term":1,"_seq_no":0,"_source":{"k":0},"found":true},"e":"reply","n":0,"status":200}
"#;

// Each reply has the number of its ticket.
const EACH_FOUND: &str = r#"{"e":"call","id":"d0","n":0,"op":"get"}
{"body":{"_id":"d0","_primary_term":1,"_seq_no":0,"_source":{"k":0},"found":true},"e":"reply","n":0,"status":200}
{"e":"call","id":"d0","n":2,"op":"get"}
{"body":{"_id":"d0","_primary_term":1,"_seq_no":0,"_source":{"k":1},"found":true},"e":"reply","n":2,"status":200}
{"e":"call","id":"d0","n":4,"op":"get"}
{"body":{"_id":"d0","_primary_term":1,"_seq_no":0,"_source":{"k":2},"found":true},"e":"reply","n":4,"status":200}
"#;

// How many gets a client asks for, what its target reports, how often the client polls at most, and what is
// recorded.
const CASES: [(usize, &[bool], u32, &str); 5] = [
    (1, &[], 1, LOST),
    (1, &[true, true, false], 3, FOUND),
    (1, &[true, true, false], 2, LOST),
    (1, &[false], 0, LOST),
    (3, &[false, false, false], 1, EACH_FOUND),
];

// Returns whether this is recorded on threads.
fn is_recorded_on_threads<R: Threads + Wait + Sync>(
    rt: &R,
    alloc: Global,
    plan: &Plan,
    target: &Pacing<'_>,
    turns: u32,
    text: &str,
) -> Option<bool> {
    let history = recorded_on_threads(rt, alloc, plan, target, turns)?;
    has_text(alloc, &history, text)
}

// Returns whether this is recorded in turns.
fn is_recorded_in_turns<R: Wait>(
    rt: &R,
    alloc: Global,
    plan: &Plan,
    target: &Pacing<'_>,
    turns: u32,
    text: &str,
) -> Option<bool> {
    let history = recorded_in_turns(rt, alloc, plan, target, turns)?;
    has_text(alloc, &history, text)
}

// Returns whether one client with that many gets records this, in both ways.
fn is_recorded<R: Threads + Wait + Sync>(
    rt: &R,
    alloc: Global,
    gets: usize,
    waits: &[bool],
    turns: u32,
    text: &str,
) -> Option<bool> {
    let plan = alike(alloc, 1, gets, GET)?;
    let on_threads = is_recorded_on_threads(rt, alloc, &plan, &Pacing::new(waits), turns, text)?;
    let in_turns = is_recorded_in_turns(rt, alloc, &plan, &Pacing::new(waits), turns, text)?;
    Some(on_threads && in_turns)
}

#[test]
fn waiting_and_unknown(rt: HostRuntime) {
    for (gets, waits, turns, text) in CASES {
        assert!(rt;
            is_recorded(&rt, rt.alloc(), gets, waits, turns, text) == Some(true),
            "{text}"
        );
    }
}

// Call 0 waits at its first poll; so the second client gets its reply first, and begins its second turn in
// the round in which the first client gets its reply. Call 4, under the condition of the pair that was
// reported to the second client, waits at both polls.
const INTERLEAVED: &str = r#"{"e":"call","id":"d0","n":0,"op":"get"}
{"e":"call","id":"d1","n":1,"op":"get"}
{"body":{"_id":"d1","_primary_term":1,"_seq_no":0,"_source":{"k":1},"found":true},"e":"reply","n":1,"status":200}
{"body":{"_id":"d0","_primary_term":1,"_seq_no":0,"_source":{"k":0},"found":true},"e":"reply","n":0,"status":200}
{"e":"call","id":"d1","if_primary_term":1,"if_seq_no":0,"k":4,"n":4,"op":"index"}
{"e":"call","id":"d1","n":5,"op":"get"}
{"body":{"_id":"d1","_primary_term":1,"_seq_no":0,"_source":{"k":3},"found":true},"e":"reply","n":5,"status":200}
{"e":"lost","n":4}
{"e":"call","id":"d0","n":8,"op":"get"}
{"body":{"_id":"d0","_primary_term":1,"_seq_no":0,"_source":{"k":4},"found":true},"e":"reply","n":8,"status":200}
"#;

const FIRST: [Turn; 2] = [
    GET,
    Turn {
        doc: 1,
        kind: Kind::Get,
    },
];

const SECOND: [Turn; 3] = [
    Turn {
        doc: 1,
        kind: Kind::Get,
    },
    Turn {
        doc: 1,
        kind: Kind::PutIfSeen,
    },
    GET,
];

const WAITS: [bool; 7] = [true, false, false, true, false, true, false];

// Returns the plan of both.
fn two_clients(alloc: Global) -> Option<Plan> {
    let mut lists = Vec::new(alloc);
    lists.push(Vec::from_slice(alloc, &FIRST).ok()?).ok()?;
    lists.push(Vec::from_slice(alloc, &SECOND).ok()?).ok()?;
    Plan::of(lists).ok()
}

// Returns whether their calls are interleaved so.
fn are_interleaved<R: Wait>(rt: &R, alloc: Global) -> Option<bool> {
    let plan = two_clients(alloc)?;
    is_recorded_in_turns(rt, alloc, &plan, &Pacing::new(&WAITS), 2, INTERLEAVED)
}

#[test]
fn one_action_at_each_visit(rt: HostRuntime) {
    assert!(rt; are_interleaved(&rt, rt.alloc()) == Some(true));
}

const BOTH_LOST: &str = r#"{"e":"call","id":"d0","n":0,"op":"get"}
{"e":"call","id":"d0","n":1,"op":"get"}
{"e":"lost","n":0}
{"e":"lost","n":1}
"#;

// Returns whether the calls of two clients that never poll are lost, and were not polled.
fn are_lost<R: Wait>(rt: &R, alloc: Global) -> Option<bool> {
    let plan = alike(alloc, 2, 1, GET)?;
    let target = Pacing::new(&[]);
    let is_lost = is_recorded_in_turns(rt, alloc, &plan, &target, 0, BOTH_LOST)?;
    Some(is_lost && target.polls() == 0)
}

#[test]
fn lost_unpolled_at_the_next_visit(rt: HostRuntime) {
    assert!(rt; are_lost(&rt, rt.alloc()) == Some(true));
}
