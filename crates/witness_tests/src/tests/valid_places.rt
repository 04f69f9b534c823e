//! Places that no history leads to.

use doc_register::{Conflicts, Op, Reply};
use events::Rec;
use places::{Broken, DocWitness, Place};
use std::alloc::Global;
use version_pair::{DocId, Pair};
use witness::write_witness;

// Returns the witness of "d" with these records and places, or their first fault.
fn checked(
    alloc: Global,
    records: &[Rec],
    places: &[Place],
    conflicts: Conflicts,
) -> Result<DocWitness, Broken> {
    let Ok(id) = DocId::new(alloc, "d") else {
        return Err(Broken::NoMemory);
    };
    let Ok(records) = Vec::from_slice(alloc, records) else {
        return Err(Broken::NoMemory);
    };
    let Ok(places) = Vec::from_slice(alloc, places) else {
        return Err(Broken::NoMemory);
    };
    match DocWitness::check(alloc, id, records, places, conflicts) {
        Ok(witness) => Ok(witness),
        Err(refused) => Err(refused.0),
    }
}

// Returns the first fault of places, if there is one, in both readings of a conflict.
fn faults(alloc: Global, records: &[Rec], places: &[Place]) -> [Option<Broken>; 2] {
    [
        checked(alloc, records, places, Conflicts::Plain).err(),
        checked(alloc, records, places, Conflicts::Maybe).err(),
    ]
}

// Returns the place of a record, without a pair.
fn placed(rec: usize) -> Place {
    Place { rec, pair: None }
}

// Returns the record of a get that missed its document.
fn missed(call_at: usize, heard_at: usize) -> Rec {
    Rec {
        no: call_at as u64,
        op: Op::Get,
        call_at,
        heard: Some((heard_at, Reply::Missing)),
    }
}

// The positions of the call and of the reply of two gets, and the fault if they take their places in this
// order: a reply may be at the position of a call, but not before it.
const GETS: [([usize; 2], [usize; 2], Option<Broken>); 5] = [
    ([4, 3], [1, 6], Some(Broken::Late(0))),
    ([4, 4], [1, 4], None),
    ([4, 5], [1, 3], Some(Broken::Late(1))),
    ([4, 5], [6, 5], Some(Broken::Late(1))),
    ([4, 5], [6, 6], None),
];

#[test]
fn places_of_replies(rt: HostRuntime) {
    let places = [placed(0), placed(1)];
    for (first, second, fault) in GETS {
        let records = [missed(first[0], first[1]), missed(second[0], second[1])];
        assert!(rt; faults(rt.alloc(), &records, &places) == [fault, fault]);
    }
}

// Returns the faults of a document without calls.
fn faults_of_no_calls(alloc: Global, places: &[Place]) -> [Option<Broken>; 2] {
    faults(alloc, &[], places)
}

// A document without calls has no place, not even one of the greatest number.
#[test]
fn places_of_no_calls(rt: HostRuntime) {
    for rec in [0, usize::MAX] {
        let stranger = Some(Broken::Stranger(0));
        assert!(rt; faults_of_no_calls(rt.alloc(), &[placed(rec)]) == [stranger, stranger]);
    }
}

// Returns the faults of a create, and of another one whose reply says that it updated the document.
fn faults_of_creates(alloc: Global) -> Option<[Option<Broken>; 2]> {
    let op = Op::Create { k: 4 };
    let created = Reply::Indexed {
        pair: Pair::new(1, 0)?,
        created: true,
    };
    let updated = Reply::Indexed {
        pair: Pair::new(1, 1)?,
        created: false,
    };
    let records = [
        Rec {
            no: 0,
            op,
            call_at: 0,
            heard: Some((1, created)),
        },
        Rec {
            no: 2,
            op,
            call_at: 2,
            heard: Some((3, updated)),
        },
    ];
    Some(faults(alloc, &records, &[placed(0), placed(1)]))
}

#[test]
fn create_that_updates(rt: HostRuntime) {
    let illegal = Some(Broken::Illegal(1));
    assert!(rt; faults_of_creates(rt.alloc()) == Some([illegal, illegal]));
}

// Returns whether a witness has what it was made of.
fn is_kept(alloc: Global) -> Option<bool> {
    let records = [missed(0, 1)];
    let places = [placed(0)];
    let witness = checked(alloc, &records, &places, Conflicts::Maybe).ok()?;
    let is_of_d = witness.id().as_str() == "d" && witness.conflicts() == Conflicts::Maybe;
    Some(
        is_of_d && witness.records() == records.as_slice() && witness.places() == places.as_slice(),
    )
}

// Returns the witness of a document without calls.
fn empty_witness(alloc: Global) -> Result<DocWitness, Broken> {
    checked(alloc, &[], &[], Conflicts::Plain)
}

// Returns whether one document in two witnesses is written twice.
fn is_written_twice(alloc: Global) -> Option<bool> {
    let mut witnesses = Vec::new(alloc);
    witnesses.push(empty_witness(alloc).ok()?).ok()?;
    witnesses.push(empty_witness(alloc).ok()?).ok()?;
    let text = write_witness(alloc, &witnesses).ok()?;
    Some(text.as_slice() == "{\"doc\":\"d\"}\n{\"doc\":\"d\"}\n".as_bytes())
}

#[test]
fn witnesses(rt: HostRuntime) {
    assert!(rt; is_kept(rt.alloc()) == Some(true));
    assert!(rt; is_written_twice(rt.alloc()) == Some(true));
}
