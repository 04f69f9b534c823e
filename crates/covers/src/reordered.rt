ghost use Rattle.std.specs.Prelude.{◌≡◌, IfOk, IfSome, Ok};
ghost use Rattle.covers.specs.aids.Searched.{AreAlike, IsAlike};

use events::Rec;
use places::{Broken, DocWitness, Place};
use shard_numbers::Change;
use std::alloc::{AllocError, Global};
use version_pair::{DocId, NoMemory};

/// Returns the witness, if the places that were checked are valid.
pub fn if_valid(
    checked: Result<DocWitness, (Broken, DocId, Vec<Rec>, Vec<Place>)>,
) -> Result<Option<DocWitness>, NoMemory>
    ensures { IfOk result (λ found. IfSome found (λ w. checked ≡ Ok w)) }
{
    match checked {
        Ok(witness) => Ok(Some(witness)),
        Err(back) => match back.0 {
            Broken::NoMemory => Err(AllocError),
            _ => Ok(None),
        },
    }
}

/// Returns a copy of the witness with these places in place of its own, if they are valid.
pub fn reordered_copy(
    alloc: Global,
    witness: &DocWitness,
    places: Vec<Place>,
) -> Result<Option<DocWitness>, NoMemory>
    ensures { IfOk result (λ other. IfSome other (IsAlike witness.now)) }
{
    let id = witness.id().copy()?;
    let records = Vec::from_slice(alloc, witness.records())?;
    if_valid(DocWitness::check(alloc, id, records, places, witness.conflicts()))
}

/// New places of some witnesses.
#[derive(Clone, Copy)]
pub enum NewPlaces<'a> {
    /// Those of the witness with this number.
    Of(usize, &'a [Place]),
    /// Their own, with other pairs. The changes are in the order of their witnesses.
    Paired(&'a [Change]),
}

// Returns the changes of the witness with this number.
fn changes_of(changes: &[Change], number: usize) -> &[Change] {
    let later = &changes[changes.partition_point(|change| change.witness < number)..];
    &later[..later.partition_point(|change| change.witness == number)]
}

// Returns the places with these changes; `None` if there are none.
fn changed(
    alloc: Global,
    places: &[Place],
    changes: &[Change],
) -> Result<Option<Vec<Place>>, NoMemory> {
    if changes.is_empty() {
        return Ok(None);
    }
    let mut places = Vec::from_slice(alloc, places)?;
    for change in changes {
        if let Some(found) = places.get_mut(change.place) {
            found.pair = Some(change.pair);
        }
    }
    Ok(Some(places))
}

impl NewPlaces<'_> {
    // Returns the new places of the witness with this number, if it gets some.
    fn places(
        self,
        alloc: Global,
        number: usize,
        witness: &DocWitness,
    ) -> Result<Option<Vec<Place>>, NoMemory> {
        match self {
            NewPlaces::Of(own, places) if own == number => {
                Ok(Some(Vec::from_slice(alloc, places)?))
            }
            NewPlaces::Of(..) => Ok(None),
            NewPlaces::Paired(changes) => {
                changed(alloc, witness.places(), changes_of(changes, number))
            }
        }
    }
}

// Returns the witness, with these places in place of its own if there are some. `None` if they are not valid.
fn reordered(
    alloc: Global,
    witness: DocWitness,
    places: Option<Vec<Place>>,
) -> Result<Option<DocWitness>, NoMemory>
    ensures { IfOk result (λ other. IfSome other (IsAlike witness)) }
{
    let Some(places) = places else {
        // Calling `places` makes it known from here on that its places are valid.
        let _ = witness.places();
        return Ok(Some(witness));
    };
    let conflicts = witness.conflicts();
    let (id, records, _) = witness.into_parts();
    if_valid(DocWitness::check(alloc, id, records, places, conflicts))
}

/// Returns the witnesses, those that get new places with these; `None` if some are not valid.
pub fn with_new_places(
    alloc: Global,
    witnesses: Vec<DocWitness>,
    new: NewPlaces<'_>,
) -> Result<Option<Vec<DocWitness>>, NoMemory>
    ensures { IfOk result (λ others. IfSome others (λ ws. AreAlike witnesses.items ws.items)) }
{
    let mut others = Vec::with_capacity(alloc, witnesses.len())?;
    for witness in witnesses {
        let places = new.places(alloc, others.len(), &witness)?;
        let Some(other) = reordered(alloc, witness, places)? else {
            return Ok(None);
        };
        others.push(other)?;
    }
    Ok(Some(others))
}
