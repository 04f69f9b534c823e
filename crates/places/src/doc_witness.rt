ghost use Rattle.std.specs.Prelude.{◌≡◌, ◌≢◌, ◌<◌, IfOk, IfErr, IfSome, IsOk, length, slice_get};
ghost use Rattle.places.specs.declared.broken.Broken.TheVariants.{NoMemory as Unchecked};
ghost use Rattle.places.specs.Places.{AreValid, IsPlaceOf};
ghost use Rattle.places.specs.Faults.{IsFirstFault};

use crate::broken::Broken;
use crate::check::{first_fault, start};
use crate::place::Place;
use doc_register::Conflicts;
use events::Rec;
use std::alloc::Global;
use std::marker::Model;
use version_pair::DocId;

/// An order of the calls of one document that explains them.
///
/// Contracts see its id, its records, its places and its reading of conflicts. The type guarantees that its
/// places are valid for its records in this reading.
#[derive(Debug, Drop)]
pub struct DocWitness {
    id: DocId,
    records: Vec<Rec>,
    places: Vec<Place>,
    conflicts: Conflicts,
}

impl Model for DocWitness {
    ghost use Rattle.places.specs.Witness.{Witness};
    ghost use Rattle.places.specs.Places.{AreValid};

    ghost Value = { Witness };

    ghost view = { λ w. record {
      doc = w.id;
      records = w.records.items;
      places = w.places.items;
      conflicts = w.conflicts;
    } };

    ghost invariant = { λ w. AreValid w.conflicts w.records.items w.places.items };
}

impl DocWitness {
    /// Returns the witness of these places if they are valid for the records. Otherwise returns the first
    /// fault, with all that was passed in. So there is a witness exactly if the places are valid, unless
    /// memory is refused.
    ///
    /// Errors: `NoMemory` before any other if memory was refused (which is tested, not proved). Then, place
    /// by place: `Stranger`, `Twice`, `PairMissing`, `PairGiven`, `Late`, `Illegal`. Last comes `Absent`,
    /// with the least record.
    pub fn check(
        alloc: Global,
        id: DocId,
        records: Vec<Rec>,
        places: Vec<Place>,
        conflicts: Conflicts,
    ) -> Result<DocWitness, (Broken, DocId, Vec<Rec>, Vec<Place>)>
        // The witness has just the id, the records, the places and the reading of conflicts that were passed
        // in.
        ensures ok { IfOk result
            (λ w. w ≡ record {
              doc = id;
              records = records.items;
              places = places.items;
              conflicts = conflicts;
            }) }
        // If there is a witness, the places are valid.
        ensures valid { IsOk result → AreValid conflicts records.items places.items }
        // An error other than `NoMemory` is the first fault of the places.
        ensures fault { IfErr result
            (λ e. e.0 ≢ Unchecked → IsFirstFault conflicts records.items places.items e.0) }
        // With an error other than `NoMemory` the places are not valid.
        ensures invalid { IfErr result
            (λ e. e.0 ≢ Unchecked → ¬ AreValid conflicts records.items places.items) }
        // With every error, also `NoMemory`, the id, the records and the places come back.
        ensures given_back { IfErr result
            (λ e. (e.1 ≡ id) × (e.2.items ≡ records.items) × (e.3.items ≡ places.items)) }
    {
        let Ok(walk) = start(alloc, &records) else {
            return Err((Broken::NoMemory, id, records, places));
        };
        match first_fault(walk, &records, &places, conflicts) {
            Some(fault) => Err((fault, id, records, places)),
            None => Ok(DocWitness {
                id,
                records,
                places,
                conflicts,
            }),
        }
    }

    /// Returns the document's id.
    pub fn id(&self) -> &DocId
        ensures { result.now ≡ self.now.doc }
    {
        &self.id
    }

    /// Returns the document's calls, in their order in the history.
    pub fn records(&self) -> &[Rec]
        ensures same { result.now ≡ self.now.records }
        ensures valid { AreValid self.now.conflicts self.now.records self.now.places }
    {
        // The access to a field makes the type's invariant known from here on.
        let _ = &self.id;
        &self.records
    }

    /// Returns the order that explains the calls.
    pub fn places(&self) -> &[Place]
        ensures same { result.now ≡ self.now.places }
        ensures valid { AreValid self.now.conflicts self.now.records self.now.places }
    {
        // The access to a field makes the type's invariant known from here on.
        let _ = &self.id;
        &self.places
    }

    /// Returns the call of the place with this index in the order.
    pub fn call(&self, index: usize) -> Rec
        // There is such a place.
        requires { index < length self.now.places }
        // The place names the call.
        ensures { IfSome (slice_get self.now.places index) (λ place. IsPlaceOf self.now.records place result) }
    {
        self.records[self.places[index].rec]
    }

    /// Returns the document's id, its calls, and the order that explains them.
    pub fn into_parts(self) -> (DocId, Vec<Rec>, Vec<Place>)
        ensures id { result.0 ≡ self.doc }
        ensures records { result.1.items ≡ self.records }
        ensures places { result.2.items ≡ self.places }
    {
        (self.id, self.records, self.places)
    }

    /// Returns how conflicts are read.
    pub fn conflicts(&self) -> Conflicts
        ensures { result ≡ self.now.conflicts }
    {
        self.conflicts
    }
}
