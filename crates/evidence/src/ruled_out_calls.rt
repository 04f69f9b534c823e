//! The calls at which documents of a history are ruled out.

ghost use Rattle.std.specs.Prelude.{◌≡◌, ◌<◌, ◌⊎◌, IfOk, IfSome, IsTrue, List, Some as Just, ℕ, length, slice_get, true};
ghost use Rattle.version_pair.specs.declared.pair.Pair.{Pair as PairOf};
ghost use Rattle.deciding.specs.Laws.{IsElsewhere};
ghost use Rattle.deciding.specs.Elsewhere.{is_kept};
ghost use Rattle.deciding.specs.Records.{AreInOrder};
ghost use Rattle.deciding.specs.Tables.{IsRuledOut};
ghost use Rattle.evidence.specs.aids.KnownPairs.{AreKnownOf};
ghost use Rattle.events.specs.Events.{IsHistory, documents_of};
ghost use Rattle.evidence.specs.Evidence.{AreDocuments, IsDocumentRuledOut, IsRuledOutIn};
ghost use Rattle.evidence.specs.aids.RuledOutCalls.{AreJudgedOf, IsRuledOutDocument};

use crate::allowance::Allowance;
use crate::known_pairs::{KnownPair, count_up_to, known_pairs, pairs_elsewhere};
use deciding::{
    Attempts, Budget, Contradiction, Elsewhere, contradiction_at, ruled_out_at, shown_pairs,
};
use doc_register::Conflicts;
use events::{History, Rec};
use std::alloc::Global;
use version_pair::{NoMemory, Pair};

/// The documents of a history, of which each may be found to be ruled out: provably not linearizable.
#[derive(Drop)]
pub struct Rulings<'a> {
    history: &'a History,
    conflicts: Conflicts,
    attempts: Attempts,
    // The pairs that the documents are known to have, in their order.
    known: Vec<KnownPair>,
    ghost known_of: { AreKnownOf history.now known.items },
}

// The calls of a document, and the pairs that other documents of its shard are known to have.
#[derive(Drop)]
struct Judged {
    records: Vec<Rec>,
    elsewhere: Elsewhere,
}

// The greatest of the pairs that the replies to the calls show.
fn greatest_pair(alloc: Global, records: &[Rec]) -> Result<Option<Pair>, NoMemory> {
    let pairs = shown_pairs(alloc, records)?;
    Ok(pairs.iter().copied().max())
}

impl<'a> Rulings<'a> {
    /// Returns the documents of the history, in this reading of conflicts. `attempts` states how often a lost write may have
    /// been performed.
    pub fn of(
        alloc: Global,
        history: &'a History,
        conflicts: Conflicts,
        attempts: Attempts,
    ) -> Result<Rulings<'a>, NoMemory>
        // They are of this history, and of this reading.
        ensures { IfOk result (λ rulings. (rulings.history.now ≡ history.now) × (rulings.conflicts ≡ conflicts)) }
    {
        let known = known_pairs(alloc, history)?;
        Ok(Rulings {
            history,
            conflicts,
            attempts,
            known,
        })
    }

    // The pairs that other documents are known to have up to the greatest one of this document; none once the allowance is
    // used up.
    fn elsewhere(
        &self,
        alloc: Global,
        doc: usize,
        records: &[Rec],
        allowance: &mut Allowance,
    ) -> Result<Elsewhere, NoMemory>
        requires history { IsHistory self.now.history.now }
        requires within { doc < length (documents_of self.now.history.now) }
        ensures { IfOk result (λ elsewhere. (q : PairOf) → is_kept elsewhere.ends q ≡ true
            → (d : List ℕ × ℕ) → slice_get (documents_of self.now.history.now) doc ≡ Just d → IsElsewhere self.now.history.now d.0 q) }
    {
        let greatest = match greatest_pair(alloc, records)? {
            Some(greatest) if allowance.pairs > 0 => greatest,
            _ => return Ok(Elsewhere::of(alloc, Vec::new(alloc))?),
        };
        let shard = self.history.shard(doc);
        let pairs = pairs_elsewhere(alloc, &self.known, shard, doc, greatest)?;
        let passed = count_up_to(&self.known, shard, greatest);
        allowance.pairs = allowance.pairs.saturating_sub(passed);
        Elsewhere::of(alloc, pairs)
    }

    // The document of this number.
    fn judged(
        &self,
        alloc: Global,
        doc: usize,
        allowance: &mut Allowance,
    ) -> Result<Judged, NoMemory>
        requires { doc < length (documents_of self.now.history.now) }
        ensures { IfOk result (λ judged. AreJudgedOf self.now.history.now doc judged.records.items (is_kept judged.elsewhere.ends)) }
    {
        // Calling `len` makes it known from here on that this is a history.
        let _ = self.history.len();
        let records = self.history.records(doc)?;
        let elsewhere = self.elsewhere(alloc, doc, &records, allowance)?;
        Ok(Judged { records, elsewhere })
    }

    // The call at which a document is ruled out, if that is found.
    fn call_in(
        &self,
        alloc: Global,
        judged: &Judged,
        budget: &mut Budget,
    ) -> Result<Option<u64>, NoMemory>
        requires { AreInOrder judged.now.records.items }
        ensures { IfOk result (λ found. IfSome found
            (IsRuledOut (record { conflicts = self.now.conflicts; elsewhere = is_kept judged.now.elsewhere.ends }) judged.now.records.items)) }
    {
        ruled_out_at(
            alloc,
            &judged.records,
            self.conflicts,
            &judged.elsewhere,
            self.attempts,
            budget,
        )
    }

    // The call at which the document of this number is ruled out, if that is found.
    fn call(
        &self,
        alloc: Global,
        doc: usize,
        allowance: &mut Allowance,
    ) -> Result<Option<u64>, NoMemory>
        requires { doc < length (documents_of self.now.history.now) }
        ensures { IfOk result (λ found. IfSome found (IsRuledOutDocument self.now.conflicts self.now.history.now doc)) }
    {
        let judged = self.judged(alloc, doc, allowance)?;
        self.call_in(alloc, &judged, &mut allowance.budget)
    }
}

impl Rulings<'_> {
    /// Returns what the walks over all documents may cost together.
    pub fn allowance(&self) -> Allowance {
        Allowance::of(self.known.len())
    }

    /// Returns tables along the last events of the document of this number that show that it is ruled out, as
    /// `deciding::contradiction_at` finds them: a guess, of which nothing is promised. `None` if the document isn't found
    /// to be ruled out. It takes one walk over its calls, and several over the last of them if it is.
    pub fn contradiction(
        &self,
        alloc: Global,
        doc: usize,
        allowance: &mut Allowance,
    ) -> Result<Option<Contradiction>, NoMemory>
        // The document is one of the history.
        requires { doc < length (documents_of self.now.history.now) }
        // If there are tables, the document is provably not linearizable.
        ensures { IfOk result (λ found. IfSome found (λ _. IsDocumentRuledOut self.now.conflicts self.now.history.now doc)) }
    {
        let judged = self.judged(alloc, doc, allowance)?;
        match self.call_in(alloc, &judged, &mut allowance.budget)? {
            Some(call) => contradiction_at(
                alloc,
                &judged.records,
                self.conflicts,
                &judged.elsewhere,
                self.attempts,
                call,
                &mut allowance.budget,
            ),
            None => Ok(None),
        }
    }
}

/// Returns whether the document of this number is found to be provably not linearizable, in this reading of
/// conflicts. `attempts` states how often a lost write may have been performed. It takes one walk over all calls; for
/// several documents take `Rulings`.
pub fn is_document_ruled_out(
    alloc: Global,
    history: &History,
    doc: usize,
    conflicts: Conflicts,
    attempts: Attempts,
) -> Result<bool, NoMemory>
    // The document is one of the history.
    requires { doc < length (documents_of history.now) }
    // If the result is true, the document is provably not linearizable.
    ensures { IfOk result (λ ruled_out. IsTrue ruled_out → IsDocumentRuledOut conflicts history.now doc) }
{
    let rulings = Rulings::of(alloc, history, conflicts, attempts)?;
    let mut allowance = rulings.allowance();
    let call = rulings.call(alloc, doc, &mut allowance)?;
    Ok(call.is_some())
}

// The lesser of two call numbers, either of which may be missing.
fn lesser(one: Option<u64>, two: Option<u64>) -> Option<u64>
    ensures { IfSome result (λ n. (one ≡ Just n) ⊎ (two ≡ Just n)) }
{
    match (one, two) {
        (Some(a), Some(b)) => Some(a.min(b)),
        (Some(n), None) | (None, Some(n)) => Some(n),
        (None, None) => None,
    }
}

// Whether the call is one of the records.
fn has_call(records: &[Rec], call: u64) -> bool {
    for record in records {
        if record.no == call {
            return true;
        }
    }
    false
}

// The number of the document of the call.
fn document_of(history: &History, call: u64) -> Result<Option<usize>, NoMemory>
    ensures { IfOk result (λ found. IfSome found (λ doc. doc < length (documents_of history.now))) }
{
    for doc in 0..history.docs() {
        if has_call(&history.records(doc)?, call) {
            return Ok(Some(doc));
        }
    }
    Ok(None)
}

/// Returns whether the document of a call is found to be ruled out at it. It takes one walk over the calls of this
/// document.
pub fn is_ruled_out(
    alloc: Global,
    history: &History,
    call: u64,
    conflicts: Conflicts,
) -> Result<bool, NoMemory>
    requires { IsHistory history.now }
    ensures { IfOk result (λ ruled_out. IsTrue ruled_out → IsRuledOutIn conflicts history.now call) }
{
    let Some(doc) = document_of(history, call)? else {
        return Ok(false);
    };
    let rulings = Rulings::of(alloc, history, conflicts, Attempts::Once)?;
    let mut allowance = rulings.allowance();
    let found = rulings.call(alloc, doc, &mut allowance)?;
    Ok(found == Some(call))
}

/// A document that is ruled out, and tables along its last events that show it.
#[derive(Drop)]
pub struct RuledOutDocument {
    /// The number of the document.
    pub doc: usize,
    pub contradiction: Contradiction,
}

/// Returns the document of the call, at which it is ruled out, and tables along its last events that show it, as
/// `Rulings::contradiction` returns them. `None` if the document isn't found to be ruled out.
pub fn contradiction_of(
    alloc: Global,
    history: &History,
    call: u64,
    conflicts: Conflicts,
    attempts: Attempts,
) -> Result<Option<RuledOutDocument>, NoMemory> {
    let Some(doc) = document_of(history, call)? else {
        return Ok(None);
    };
    let rulings = Rulings::of(alloc, history, conflicts, attempts)?;
    let mut allowance = rulings.allowance();
    let found = rulings.contradiction(alloc, doc, &mut allowance)?;
    Ok(found.map(|contradiction| RuledOutDocument { doc, contradiction }))
}

/// Returns the least call at which one of these documents is found to be ruled out.
pub fn least_ruled_out(
    alloc: Global,
    history: &History,
    conflicts: Conflicts,
    attempts: Attempts,
    docs: &[usize],
) -> Result<Option<u64>, NoMemory>
    requires history { IsHistory history.now }
    requires within { AreDocuments history.now docs.now }
    ensures { IfOk result (λ found. IfSome found (IsRuledOutIn conflicts history.now)) }
{
    let rulings = Rulings::of(alloc, history, conflicts, attempts)?;
    let mut allowance = rulings.allowance();
    let mut least = None;
    for i in 0..docs.len() {
        let call = rulings.call(alloc, docs[i], &mut allowance)?;
        least = lesser(least, call);
    }
    Ok(least)
}
