//! The writes of a document by what they may have done.

ghost use Rattle.std.specs.Prelude.{◌≡◌, ◌++◌, IfOk, List, OnOk};
ghost use Rattle.events.specs.declared.record.Rec.{Rec as Record};
ghost use Rattle.deciding.specs.aids.KnownPairs.{AreKnown};
ghost use Rattle.deciding.specs.aids.Writes.{AreKeyed, AreWritesOf, IsFirst, entries_of, key_asked, key_by, key_given, key_shown, kind_of};

use crate::groups::{Entry, Groups};
use crate::known::Known;
use doc_register::Op;
use events::Rec;
use std::alloc::Global;
use version_pair::NoMemory;

/// A write without a reply and without a condition.
#[derive(Clone, Copy, PartialEq, Eq)]
pub enum Lost {
    Delete,
    Index,
    Create,
}

/// Returns which write without a reply and without a condition the call is, if it is one.
pub fn kind_of(call: Rec) -> Option<Lost>
    ensures { result ≡ kind_of call }
{
    match call.heard {
        Some(_) => None,
        None => match call.op {
            Op::Delete { cond: None } => Some(Lost::Delete),
            Op::Index { cond: None, .. } => Some(Lost::Index),
            Op::Create { .. } => Some(Lost::Create),
            Op::Get | Op::Index { cond: Some(_), .. } | Op::Delete { cond: Some(_) } => None,
        },
    }
}

// The first of the calls of this kind.
fn first_of(records: &[Rec], kind: Lost) -> Option<usize>
    ensures { IsFirst records.now kind result }
{
    for i in 0..records.len() {
        if kind_of(records[i]) == Some(kind) {
            return Some(i);
        }
    }
    None
}

// The version of the pair that the reply to a write shows.
fn key_shown(known: &Known, call: Rec) -> Option<u64>
    ensures { (records : List Record) → AreKnown records known.now.pairs.items → result ≡ key_shown records call }
{
    match call.pair_taken() {
        Some(pair) => Some(known.version_of(pair) as u64),
        None => None,
    }
}

// The position of the pair that a write without a reply asks for.
fn key_asked(known: &Known, call: Rec) -> Option<u64>
    ensures { (records : List Record) → AreKnown records known.now.pairs.items → result ≡ key_asked records call }
{
    match (call.heard, call.op.condition()) {
        (None, Some(condition)) => Some(known.position(Some(condition)) as u64),
        _ => None,
    }
}

// The number that an index or a create without a reply gives.
fn key_given(call: Rec) -> Option<u64>
    ensures { result ≡ key_given call }
{
    match kind_of(call) {
        Some(_) => call.op.value(),
        None => None,
    }
}

/// By what writes are grouped.
#[derive(Clone, Copy)]
pub enum By {
    /// Those whose reply shows their pair, by its version.
    Shown,
    /// Those without a reply that have a condition, by its position.
    Asked,
    /// Those without a reply and without a condition that give a number, by the number.
    Given,
}

// The key of a call.
fn key_by(known: &Known, by: By, call: Rec) -> Option<u64>
    ensures { (records : List Record) → AreKnown records known.now.pairs.items → result ≡ key_by records by call }
{
    match by {
        By::Shown => key_shown(known, call),
        By::Asked => key_asked(known, call),
        By::Given => key_given(call),
    }
}

// Adds an entry, if there is a key.
fn push_some(entries: &mut Vec<Entry>, key: Option<u64>, number: usize) -> Result<(), NoMemory>
    ensures ok { OnOk result (entries.new.items ≡ entries.old.items ++ entries_of key number) }
{
    if let Some(key) = key {
        entries.push(Entry { key, number })?;
    }
    Ok(())
}

// The writes of a document in groups.
fn grouped(alloc: Global, records: &[Rec], known: &Known, by: By) -> Result<Groups, NoMemory>
    ensures { IfOk result (λ groups. AreKnown records.now known.now.pairs.items
        → AreKeyed (key_by records.now by) records.now groups) }
{
    let mut entries = Vec::new(alloc);
    for i in 0..records.len() {
        push_some(&mut entries, key_by(known, by, records[i]), i)?;
    }
    Ok(Groups::of(entries))
}

/// The writes of a document by what they may have done.
#[derive(Drop)]
pub struct Writes {
    /// Those whose reply shows their pair, by its version.
    pub shown: Groups,
    /// Those without a reply that have a condition, by its position.
    pub asked: Groups,
    /// Those without a reply and without a condition that give a number, by the number.
    pub given: Groups,
    /// The first delete without a reply and without a condition.
    pub first_delete: Option<usize>,
    /// The first such index.
    pub first_index: Option<usize>,
    /// The first create without a reply.
    pub first_create: Option<usize>,
}

impl Writes {
    /// Returns the writes among a document's records.
    pub fn of(alloc: Global, records: &[Rec], known: &Known) -> Result<Writes, NoMemory>
        ensures { IfOk result (λ writes. AreKnown records.now known.now.pairs.items → AreWritesOf records.now writes) }
    {
        Ok(Writes {
            shown: grouped(alloc, records, known, By::Shown)?,
            asked: grouped(alloc, records, known, By::Asked)?,
            given: grouped(alloc, records, known, By::Given)?,
            first_delete: first_of(records, Lost::Delete),
            first_index: first_of(records, Lost::Index),
            first_create: first_of(records, Lost::Create),
        })
    }
}
