//! Prefixes of histories: their first events.

use doc_register::{Op, Reply};
use events::{Front, History, Rec, Seen};
use history::read;
use std::alloc::Global;
use version_pair::{DocId, Pair};

const DOCUMENTS_INTERLEAVED: &str = r#"{"e":"call","n":0,"id":"a","op":"index","k":1}
{"e":"call","n":1,"id":"b","op":"index","k":2}
{"e":"reply","n":0,"status":201,"body":{"_id":"a","result":"created","_seq_no":0,"_primary_term":1}}
{"e":"reply","n":1,"status":201,"body":{"_id":"b","result":"created","_seq_no":1,"_primary_term":1}}
{"e":"call","n":2,"id":"a","op":"get"}
{"e":"call","n":3,"id":"b","op":"get"}
{"e":"reply","n":2,"status":200,"body":{"_id":"a","_seq_no":0,"_primary_term":1,"found":true,"_source":{"k":1}}}
{"e":"reply","n":3,"status":200,"body":{"_id":"b","_seq_no":1,"_primary_term":1,"found":true,"_source":{"k":2}}}
"#;

// Returns the only record of a document of a prefix, with its id and its shard.
fn only_record<'h>(front: &Front<'h>, doc: usize) -> Option<(&'h str, u32, Rec)> {
    if doc >= front.docs() {
        return None;
    }
    match front.records(doc).ok()?.as_slice() {
        [record] => Some((front.doc(doc).as_str(), front.shard(doc), *record)),
        _ => None,
    }
}

// Returns whether the first three events are those of an answered index of "a" and an open one of "b".
fn has_first_three(front: &Front<'_>) -> Option<bool> {
    let pair = Pair::new(1, 0)?;
    let answered = Rec {
        no: 0,
        op: Op::Index { k: 1, cond: None },
        call_at: 0,
        heard: Some((
            2,
            Reply::Indexed {
                pair,
                created: true,
            },
        )),
    };
    let open = Rec {
        no: 1,
        op: Op::Index { k: 2, cond: None },
        call_at: 1,
        heard: None,
    };
    Some(only_record(front, 0)? == ("a", 0, answered) && only_record(front, 1)? == ("b", 0, open))
}

// Returns whether the prefix of three events is that.
fn are_first_three(history: &History) -> Option<bool> {
    let front = history.front(3);
    let is_three = front.len() == 3 && front.seen() == Seen { term: 1, seq: 0 };
    Some(is_three && has_first_three(&front)?)
}

// Returns whether only a prefix with the call of a document has it.
fn is_found_once_called(alloc: Global, history: &History) -> Option<bool> {
    let id = DocId::new(alloc, "b").ok()?;
    Some(history.front(1).doc_of(&id).is_none() && history.front(2).doc_of(&id) == Some(1))
}

// Returns whether a prefix and the copy of its events have the same records of a document.
fn is_document_same(front: &Front<'_>, copied: &Front<'_>, doc: usize) -> Option<bool> {
    if doc >= front.docs() || doc >= copied.docs() {
        return None;
    }
    Some(front.records(doc).ok()? == copied.records(doc).ok()?)
}

// Returns whether a prefix and the copy of its events have the same documents.
fn are_same(front: &Front<'_>, copied: &Front<'_>) -> Option<bool> {
    for doc in 0..front.docs() {
        if !is_document_same(front, copied, doc)? {
            return Some(false);
        }
    }
    let is_counted = front.len() == copied.len() && front.docs() == copied.docs();
    Some(is_counted && front.seen() == copied.seen())
}

// Returns whether each prefix, and the one past the end, is as a copy of its events.
fn are_as_copied(history: &History) -> Option<bool> {
    for end in 0..10 {
        let copied = history.prefix(end).ok()?;
        if !are_same(&history.front(end), &copied.whole())? {
            return Some(false);
        }
    }
    Some(true)
}

// Returns whether all of that holds of the history of the text.
fn has_fronts(alloc: Global) -> Option<bool> {
    let history = read(alloc, DOCUMENTS_INTERLEAVED.as_bytes()).ok()?;
    let are_first = are_first_three(&history)? && is_found_once_called(alloc, &history)?;
    Some(are_first && are_as_copied(&history)?)
}

#[test]
fn first_events(rt: HostRuntime) {
    assert!(rt; has_fronts(rt.alloc()) == Some(true));
}
