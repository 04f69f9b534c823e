ghost use Rattle.std.specs.Prelude.{◌≡◌, ◌≢◌, ◌<◌, ◌++◌, ◌∷◌, [], IfErr, IfOk, IsOk, List, MatchOption, MatchResult, OnOk, Some, false, true, ℕ, length, map, slice_get};
ghost use Rattle.doc_register.specs.declared.state.Conflicts.{Conflicts as Reading};
ghost use Rattle.events.specs.Events.{documents_of};
ghost use Rattle.places.specs.Documents.{DocPlaces, doc_places, witness_places};
ghost use Rattle.compose.specs.VerifyFaults.{IsFirstVerifyFault};
ghost use Rattle.covers.specs.Covers.{AreCover, AreWitnesses};
ghost use Rattle.compose.specs.aids.Verified.{AreVerified, IsFaultOfDocument, IsFaultOfEntry, IsFaultOfPlaces, IsOpen, IsWitnessAt};
ghost use Rattle.compose.specs.declared.verify_fault.VerifyFault.TheVariants.{NoMemory as Unverified};

use crate::proof::Proof;
use crate::verify_fault::VerifyFault;
use doc_register::Conflicts;
use events::History;
use places::{Broken, DocWitness, Place};
use shard_numbers::pair_twice;
use std::alloc::Global;
use version_pair::{DocId, NoMemory};

// The entries that were verified: their witnesses, and for each document of the history whether it is
// entered.
#[derive(Drop)]
struct Verification {
    entered: Vec<bool>,
    witnesses: Vec<DocWitness>,
}

// Returns the witness of a document with these places.
fn witness_of(
    alloc: Global,
    history: &History,
    doc: usize,
    entry: usize,
    places: (DocId, Vec<Place>),
    conflicts: Conflicts,
) -> Result<DocWitness, VerifyFault>
    requires { doc < length (documents_of history.now) }
    ensures { MatchResult result (IsWitnessAt conflicts history.now doc (doc_places places))
        (λ fault. fault ≢ Unverified
        → IsFaultOfPlaces conflicts history.now doc entry (doc_places places) fault) }
{
    let Ok(records) = history.records(doc) else {
        return Err(VerifyFault::NoMemory);
    };
    match DocWitness::check(alloc, places.0, records, places.1, conflicts) {
        Ok(witness) => Ok(witness),
        Err(back) => match back.0 {
            Broken::NoMemory => Err(VerifyFault::NoMemory),
            broken => Err(VerifyFault::Broken(entry, broken)),
        },
    }
}

impl Verification {
    // Returns a verification of no entries.
    fn new(alloc: Global, history: &History) -> Result<Verification, VerifyFault>
        ensures size { IfOk result (λ v. length v.entered.items ≡ length (documents_of history.now)) }
        ensures ok { IfOk result (λ v. (conflicts : Reading) → AreVerified conflicts history.now [] v.entered.items v.witnesses.items) }
        ensures fault { IfErr result (λ fault. fault ≡ Unverified) }
    {
        match vec![in alloc; false; history.docs()] {
            Ok(entered) => Ok(Verification {
                entered,
                witnesses: Vec::new(alloc),
            }),
            Err(_) => Err(VerifyFault::NoMemory),
        }
    }

    // Returns the document of an entry, if it is one of the history and not entered yet.
    fn document(&self, history: &History, entry: usize, id: &DocId) -> Result<usize, VerifyFault>
        requires { length self.now.entered.items ≡ length (documents_of history.now) }
        ensures { MatchResult result (IsOpen history.now self.now.entered.items id.now)
            (IsFaultOfDocument history.now self.now.entered.items entry id.now) }
    {
        match history.doc_of(id) {
            Some(doc) => {
                if self.entered[doc] {
                    Err(VerifyFault::DocTwice(entry))
                } else {
                    Ok(doc)
                }
            }
            None => Err(VerifyFault::DocStranger(entry)),
        }
    }

    // Verifies one more entry.
    fn enter(
        &mut self,
        alloc: Global,
        history: &History,
        entry: usize,
        places: (DocId, Vec<Place>),
        conflicts: Conflicts,
    ) -> Result<(), VerifyFault>
        requires { length self.old.entered.items ≡ length (documents_of history.now) }
        ensures size { length self.new.entered.items ≡ length (documents_of history.now) }
        ensures ok { OnOk result ((before : List DocPlaces)
            → AreVerified conflicts history.now before self.old.entered.items self.old.witnesses.items
            → AreVerified conflicts history.now (before ++ doc_places places ∷ [])
            self.new.entered.items self.new.witnesses.items) }
        ensures fault { IfErr result (λ fault. fault ≢ Unverified → (before : List DocPlaces)
            → AreVerified conflicts history.now before self.old.entered.items self.old.witnesses.items
            → length before ≡ entry
            → IsFaultOfEntry conflicts history.now before (doc_places places) fault) }
    {
        let doc = match self.document(history, entry, &places.0) {
            Ok(doc) => doc,
            Err(fault) => return Err(fault),
        };
        let witness = match witness_of(alloc, history, doc, entry, places, conflicts) {
            Ok(witness) => witness,
            Err(fault) => return Err(fault),
        };
        if self.witnesses.push(witness).is_err() {
            return Err(VerifyFault::NoMemory);
        }
        self.entered[doc] = true;
        Ok(())
    }

    // Returns the first document that is not entered.
    fn missing(&self) -> Option<usize>
        ensures { MatchOption result
            ((k : ℕ) → k < length self.now.entered.items → slice_get self.now.entered.items k ≡ Some true)
            (λ doc. (slice_get self.now.entered.items doc ≡ Some false)
            × ((k : ℕ) → k < doc → slice_get self.now.entered.items k ≡ Some true)) }
    {
        for doc in 0..self.entered.len() {
            if !self.entered[doc] {
                return Some(doc);
            }
        }
        None
    }
}

// Returns the witnesses of entries that were verified, if they cover the history: each document is entered,
// and no pair of a shard is taken twice.
fn covering(
    alloc: Global,
    history: &History,
    verification: Verification,
    conflicts: Conflicts,
) -> Result<Vec<DocWitness>, VerifyFault>
    ensures ok { IfOk result (λ ws. (entries : List DocPlaces)
        → AreVerified conflicts history.now entries verification.entered.items verification.witnesses.items
        → (map witness_places ws.items ≡ entries) × AreWitnesses conflicts history.now ws.items) }
    ensures fault { IfErr result (λ fault. fault ≢ Unverified → (entries : List DocPlaces)
        → AreVerified conflicts history.now entries verification.entered.items verification.witnesses.items
        → IsFirstVerifyFault conflicts history.now entries fault) }
{
    if let Some(doc) = verification.missing() {
        return Err(VerifyFault::DocMissing(doc));
    }
    match pair_twice(alloc, &history.whole(), &verification.witnesses) {
        Ok(None) => Ok(verification.witnesses),
        Ok(Some((shard, pair))) => Err(VerifyFault::PairTwice(shard, pair)),
        Err(_) => Err(VerifyFault::NoMemory),
    }
}

// Returns the witnesses of the entries, if they cover the history.
fn witnesses_of(
    alloc: Global,
    history: &History,
    entries: Vec<(DocId, Vec<Place>)>,
    conflicts: Conflicts,
) -> Result<Vec<DocWitness>, VerifyFault>
    ensures ok { IfOk result (λ ws. (map witness_places ws.items ≡ map doc_places entries.items)
        × AreWitnesses conflicts history.now ws.items) }
    ensures fault { IfErr result (λ fault. fault ≢ Unverified
        → IsFirstVerifyFault conflicts history.now (map doc_places entries.items) fault) }
{
    let mut verification = match Verification::new(alloc, history) {
        Ok(verification) => verification,
        Err(fault) => return Err(fault),
    };
    let mut entry = 0;
    for places in entries {
        match verification.enter(alloc, history, entry, places, conflicts) {
            Ok(()) => {}
            Err(fault) => return Err(fault),
        }
        entry += 1;
    }
    covering(alloc, history, verification, conflicts)
}

/// Returns the proof of a history that the entries of a witness text cover; otherwise the first fault, with
/// the history. The entries are dropped.
///
/// Errors, in this order: entry by entry `DocStranger`, `DocTwice`, `Broken`; then `DocMissing`, with the
/// first document in the order of first calls; then `PairTwice`, with the least shard and then the least
/// pair. `NoMemory` may come before any of them.
pub fn verify(
    alloc: Global,
    history: History,
    entries: Vec<(DocId, Vec<Place>)>,
    conflicts: Conflicts,
) -> Result<Proof, (VerifyFault, History)>
    // The proof is of this history and this reading of conflicts, and its witnesses have just the places of
    // the entries.
    ensures ok { IfOk result (λ proof. (proof.events ≡ history) × (proof.conflicts ≡ conflicts)
        × (map witness_places proof.witnesses ≡ map doc_places entries.items)) }
    // If there is a proof, the entries cover the history.
    ensures cover { IsOk result → AreCover conflicts history (map doc_places entries.items) }
    // An error other than `NoMemory` is the first fault of the entries.
    ensures fault { IfErr result (λ e. e.0 ≢ Unverified
        → IsFirstVerifyFault conflicts history (map doc_places entries.items) e.0) }
    // With an error other than `NoMemory` the entries do not cover the history.
    ensures no_cover { IfErr result (λ e. e.0 ≢ Unverified
        → ¬ AreCover conflicts history (map doc_places entries.items)) }
    // With every error the history comes back.
    ensures back { IfErr result (λ e. e.1 ≡ history) }
{
    // Calling `len` makes it known from here on that this is a history.
    let _ = history.len();
    match witnesses_of(alloc, &history, entries, conflicts) {
        Ok(witnesses) => Ok(Proof::of(history, witnesses, conflicts)),
        Err(fault) => Err((fault, history)),
    }
}
