ghost use Rattle.std.specs.Prelude.{◌≡◌, ◌↔◌, IfOk, IsTrue, List};
ghost use Rattle.events.specs.declared.record.Rec.{Rec as Record};
ghost use Rattle.deciding.specs.Reported.{IsReportedOf};
ghost use Rattle.deciding.specs.aids.KnownPairs.{AreKnown};
ghost use Rattle.deciding.specs.aids.Versions.{AreNumbersFound, AreVersions, IsNoted, version_reported, unreported};

use crate::known::Known;
use crate::version::{FoundNumbers, UNREPORTED, Version};
use events::Rec;
use std::alloc::Global;
use version_pair::{NoMemory, Pair};

/// The known pairs of a document, and what replies say of each.
#[derive(Drop)]
pub struct Versions {
    pub known: Known,
    // What replies say of each known pair, by the number of known pairs below it.
    reported: Vec<Version>,
}

// Adds what was heard of a call.
fn note_reply(versions: &mut Vec<Version>, known: &Known, call: Rec)
    ensures { (records : List Record) → AreKnown records known.now.pairs.items
        → IsNoted records call.heard versions.old.items versions.new.items }
{
    if let Some(heard) = call.heard
        && let Some(pair) = heard.1.pair()
    {
        let below = known.count_below(pair);
        if below < versions.len() {
            versions[below] = versions[below].with(heard.1);
        }
    }
}

// What the replies say of the known pairs.
fn versions_reported(
    alloc: Global,
    known: &Known,
    records: &[Rec],
) -> Result<Vec<Version>, NoMemory>
    ensures { IfOk result (λ versions. AreKnown records.now known.now.pairs.items
        → AreVersions records.now versions.items) }
{
    let mut versions = vec![in alloc; UNREPORTED; known.pairs().len()]?;
    for call in records {
        note_reply(&mut versions, known, *call);
    }
    Ok(versions)
}

impl Versions {
    ghost use Rattle.deciding.specs.aids.VersionsOf.{AreOf};

    /// Returns the versions of a document's records.
    pub fn of(alloc: Global, records: &[Rec]) -> Result<Versions, NoMemory>
        ensures { IfOk result (AreOf records.now) }
    {
        let known = Known::of(alloc, records)?;
        let reported = versions_reported(alloc, &known, records)?;
        Ok(Versions { known, reported })
    }

    // What replies say of a pair.
    fn version(&self, pair: Pair) -> Version
        ensures { (records : List Record) → AreOf records self.now
            → result ≡ version_reported unreported pair records }
    {
        if !self.known.contains(pair) {
            return UNREPORTED;
        }
        let below = self.known.count_below(pair);
        self.reported.get(below).copied().unwrap_or(UNREPORTED)
    }

    /// Returns whether a reply says which call took the pair.
    pub fn is_reported(&self, pair: Pair) -> bool
        ensures { (records : List Record) → AreOf records self.now
            → IsTrue result ↔ IsReportedOf records pair }
    {
        self.version(pair).reported
    }

    /// Returns the numbers that gets found with the pair.
    pub fn numbers(&self, pair: Pair) -> FoundNumbers
        ensures { (records : List Record) → AreOf records self.now
            → AreNumbersFound records pair result }
    {
        self.version(pair).numbers
    }
}
