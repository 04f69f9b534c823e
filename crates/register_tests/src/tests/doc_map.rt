//! Documents that take operations one after the other.

use doc_register::{DocMap, MapFault, Op, Reply};
use std::alloc::Global;
use version_pair::{DocId, Pair};

// An operation on a document, with a pair of the term 1 and this sequence number, and what is answered.
type Case<'a> = (&'a str, Op, u64, Result<Reply, MapFault>);

// Returns whether the case is answered as it says, if it can be asked.
fn is_answered(alloc: Global, documents: &mut DocMap, case: &Case<'_>) -> Option<bool> {
    let (id, op, seq, answer) = case;
    let id = DocId::new(alloc, id).ok()?;
    Some(documents.apply(&id, op, Pair::new(1, *seq)?) == *answer)
}

// Returns whether the cases are answered as they say, in their order.
fn are_answered(alloc: Global, documents: &mut DocMap, cases: &[Case<'_>]) -> Option<bool> {
    for case in cases {
        if !is_answered(alloc, documents, case)? {
            return Some(false);
        }
    }
    Some(true)
}

const INDEX: Op = Op::Index { k: 1, cond: None };

// Returns whether writes are refused that take a pair twice, or a lower one than that of the document.
fn are_refused(alloc: Global, documents: &mut DocMap) -> Option<bool> {
    are_answered(
        alloc,
        documents,
        &[
            ("d", INDEX, 5, Err(MapFault::PairUsed)),
            ("e", INDEX, 5, Err(MapFault::PairUsed)),
            ("d", INDEX, 3, Err(MapFault::PairLow)),
            ("e", Op::Get, 5, Ok(Reply::Missing)),
        ],
    )
}

// Returns whether a document is written with a pair, found, and not written under the condition of another.
fn is_written(alloc: Global, documents: &mut DocMap, pair: Pair, other: Pair) -> Option<bool> {
    let created = Reply::Indexed {
        pair,
        created: true,
    };
    let swap = Op::Index {
        k: 2,
        cond: Some(other),
    };
    are_answered(
        alloc,
        documents,
        &[
            ("d", INDEX, pair.seq(), Ok(created)),
            ("d", Op::Get, 3, Ok(Reply::Found { pair, k: 1 })),
            ("d", swap, 3, Ok(Reply::Conflict)),
            ("d", swap, pair.seq(), Ok(Reply::Conflict)),
        ],
    )
}

// Returns whether a missing document is deleted with a pair.
fn is_deleted(alloc: Global, documents: &mut DocMap, pair: Pair) -> Option<bool> {
    let absent = Reply::Deleted { pair, found: false };
    let delete = Op::Delete { cond: None };
    are_answered(alloc, documents, &[("e", delete, pair.seq(), Ok(absent))])
}

// Returns whether documents answer all of that.
fn all_answered(alloc: Global, documents: &mut DocMap) -> Option<bool> {
    let is_written = is_written(alloc, documents, Pair::new(1, 5)?, Pair::new(1, 4)?)?;
    let are_refused = are_refused(alloc, documents)?;
    let is_deleted = is_deleted(alloc, documents, Pair::new(1, 3)?)?;
    Some(is_written && are_refused && is_deleted)
}

#[test]
fn documents_answer(rt: HostRuntime) {
    let mut documents = DocMap::new(rt.alloc());
    assert!(rt; all_answered(rt.alloc(), &mut documents) == Some(true));
}
