ghost use Rattle.std.specs.Prelude.{◌≡◌, ◌++◌, ◌∷◌, [], IfOk, IsSorted, OnOk};
ghost use Rattle.events.specs.Heard.{taken_by};
ghost use Rattle.shard_numbers.specs.Taken.{IsLeastTwice, by_shard, pair_at, pairs_at, pairs_of_document, pairs_taken, shard_in};

use doc_register::Reply;
use events::{Front, Rec, next_taken_again};
use places::{DocWitness, Place};
use std::alloc::Global;
use version_pair::{DocId, NoMemory, Pair};

// Returns the pair that a call takes: the one that its reply shows, or the one that is given to its place.
fn pair_taken(heard: Option<(usize, Reply)>, given: Option<Pair>) -> Option<Pair>
    ensures { result ≡ taken_by heard given }
{
    match heard {
        Some((_, Reply::Conflict)) | None => given,
        Some((_, reply)) => reply.pair_taken(),
    }
}

/// Returns the shard of the document, if the history has it.
pub fn shard_of(history: &Front<'_>, id: &DocId) -> Option<u32>
    ensures { result ≡ shard_in history.now id.now }
{
    match history.doc_of(id) {
        Some(doc) => Some(history.shard(doc)),
        None => None,
    }
}

/// Returns the pair that the call of a place takes.
pub fn pair_of_place(records: &[Rec], place: Place) -> Option<Pair>
    ensures { result ≡ pair_at records.now place }
{
    match records.get(place.rec) {
        Some(found) => pair_taken(found.heard, place.pair),
        None => None,
    }
}

// Adds the pair that the call of a place takes, with the shard.
fn add_place(
    pairs: &mut Vec<(u32, Pair)>,
    shard: u32,
    records: &[Rec],
    place: Place,
) -> Result<(), NoMemory>
    ensures { OnOk result (pairs.new.items ≡ pairs.old.items ++ pairs_at shard records.now (place ∷ [])) }
{
    if let Some(pair) = pair_of_place(records, place) {
        pairs.push((shard, pair))?;
    }
    Ok(())
}

// Adds the pairs that the calls of a document take.
fn add_document(
    pairs: &mut Vec<(u32, Pair)>,
    shard: u32,
    witness: &DocWitness,
) -> Result<(), NoMemory>
    ensures { OnOk result (pairs.new.items ≡ pairs.old.items ++ pairs_at shard witness.now.records witness.now.places) }
{
    let records = witness.records();
    let places = witness.places();
    for i in 0..places.len() {
        add_place(pairs, shard, records, places[i])?;
    }
    Ok(())
}

// Adds the pairs that the calls of a document of the history take.
fn add_witness(
    pairs: &mut Vec<(u32, Pair)>,
    history: &Front<'_>,
    witness: &DocWitness,
) -> Result<(), NoMemory>
    ensures { OnOk result (pairs.new.items ≡ pairs.old.items
        ++ pairs_of_document (shard_in history.now witness.now.doc) witness.now) }
{
    match shard_of(history, witness.id()) {
        Some(shard) => add_document(pairs, shard, witness),
        None => Ok(()),
    }
}

// Returns the number of places of all documents: no fewer than the pairs that their calls take.
fn places_of(witnesses: &[DocWitness]) -> usize {
    let mut count = 0usize;
    for witness in witnesses {
        count = count.saturating_add(witness.places().len());
    }
    count
}

// Returns the pairs that the calls of all documents take, each with its shard.
fn pairs_of(
    alloc: Global,
    history: &Front<'_>,
    witnesses: &[DocWitness],
) -> Result<Vec<(u32, Pair)>, NoMemory>
    ensures { IfOk result (λ pairs. pairs.items ≡ pairs_taken history.now witnesses.now) }
{
    let mut pairs = Vec::with_capacity(alloc, places_of(witnesses))?;
    for i in 0..witnesses.len() {
        add_witness(&mut pairs, history, &witnesses[i])?;
    }
    Ok(pairs)
}

// Returns the first pair of a sorted list that is in it twice: the least.
fn first_repeated(pairs: &[(u32, Pair)]) -> Option<(u32, Pair)>
    ensures { IsSorted by_shard pairs.now → IsLeastTwice pairs.now result }
{
    match next_taken_again(pairs, 1) {
        Some(k) => Some(pairs[k]),
        None => None,
    }
}

/// Returns the least pair that two calls of a shard take, by shard and then by pair, with the shard; `None` if
/// there is none. The only error is `NoMemory`.
pub fn pair_twice(
    alloc: Global,
    history: &Front<'_>,
    witnesses: &[DocWitness],
) -> Result<Option<(u32, Pair)>, NoMemory>
    // It is the least that is in the list of the pairs taken twice.
    ensures { IfOk result (IsLeastTwice (pairs_taken history.now witnesses.now)) }
{
    let mut pairs = pairs_of(alloc, history, witnesses)?;
    pairs.sort_unstable();
    Ok(first_repeated(&pairs))
}
