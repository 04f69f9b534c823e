ghost use Rattle.std.specs.Prelude.{◌≡◌, ◌++◌, IfOk, OnOk, ℕ};
ghost use Rattle.std.specs.Option.{option_to_list};
ghost use Rattle.deciding.specs.aids.Candidates.{AreCandidates, AreIn, AreLostIn, AreOpen, IsDocument, facts_of, numbers_in};
ghost use Rattle.deciding.specs.aids.Rows.{IsPositioned, branch_of};
ghost use Rattle.deciding.specs.Elsewhere.{is_kept};
ghost use Rattle.deciding.specs.Records.{AreInOrder};

use crate::attempts::Attempts;
use crate::elsewhere::Elsewhere;
use crate::groups::Entry;
use crate::row::Row;
use crate::version::FoundNumbers;
use crate::versions::Versions;
use crate::writes::Writes;
use doc_register::Conflicts;
use events::Rec;
use std::alloc::Global;
use version_pair::{NoMemory, Pair};

/// A document's records, and what they say of it.
#[derive(Drop)]
pub struct Document<'a> {
    pub records: &'a [Rec],
    pub conflicts: Conflicts,
    pub elsewhere: &'a Elsewhere,
    pub attempts: Attempts,
    pub versions: Versions,
    pub writes: Writes,
}

// Adds the numbers of the entries.
fn push_group(numbers: &mut Vec<usize>, group: &[Entry]) -> Result<(), NoMemory>
    ensures ok { OnOk result (numbers.new.items ≡ numbers.old.items ++ numbers_in group.now) }
{
    for i in 0..group.len() {
        numbers.push(group[i].number)?;
    }
    Ok(())
}

// Adds the number, if there is one.
fn push_first(numbers: &mut Vec<usize>, first: Option<usize>) -> Result<(), NoMemory>
    ensures ok { OnOk result (numbers.new.items ≡ numbers.old.items ++ option_to_list first) }
{
    if let Some(number) = first {
        numbers.push(number)?;
    }
    Ok(())
}

impl<'a> Document<'a> {
    /// Returns the document of these records.
    pub fn of(
        alloc: Global,
        records: &'a [Rec],
        conflicts: Conflicts,
        elsewhere: &'a Elsewhere,
        attempts: Attempts,
    ) -> Result<Document<'a>, NoMemory>
        ensures document { IfOk result (λ document. AreInOrder records.now → IsDocument document) }
        ensures facts { IfOk result (λ document. facts_of document ≡ record { conflicts = conflicts; elsewhere = is_kept elsewhere.now.ends }) }
        ensures records { IfOk result (λ document. document.records.now ≡ records.now) }
    {
        let versions = Versions::of(alloc, records)?;
        let writes = Writes::of(alloc, records, &versions.known)?;
        Ok(Document {
            records,
            conflicts,
            elsewhere,
            attempts,
            versions,
            writes,
        })
    }
}

impl Document<'_> {
    // Adds the writes without a reply and without a condition that may have taken the pair, or for each kind the first
    // that may have.
    fn push_lost(&self, numbers: &mut Vec<usize>, pair: Pair) -> Result<(), NoMemory>
        ensures ok { OnOk result (IsDocument self.now → AreIn numbers.old.items numbers.new.items × AreLostIn self.now.records.now pair numbers.new.items) }
    {
        push_first(numbers, self.writes.first_delete)?;
        match self.versions.numbers(pair) {
            FoundNumbers::One(k) => push_group(numbers, self.writes.given.group(k))?,
            FoundNumbers::Unseen | FoundNumbers::Several => {
                push_first(numbers, self.writes.first_index)?;
                push_first(numbers, self.writes.first_create)?;
            }
        }
        Ok(())
    }

    /// Returns the numbers of calls among which each one that may be performed on the row with the pair is represented:
    /// those whose reply shows the pair, if there are any, and otherwise those whose reply shows none. `open` has the
    /// conflicts that are made and not answered.
    pub fn candidates(
        &self,
        alloc: Global,
        row: &Row,
        pair: Pair,
        open: &[usize],
    ) -> Result<Vec<usize>, NoMemory>
        ensures { IfOk result (λ numbers. IsDocument self.now → IsPositioned self.now.records.now row.now
            → (event : ℕ) → AreOpen self.now.conflicts self.now.records.now event open.now
            → AreCandidates (facts_of self.now) self.now.records.now event (branch_of row.now) pair numbers.items) }
    {
        let mut numbers = Vec::new(alloc);
        if self.versions.is_reported(pair) {
            let version = self.versions.known.version_of(pair) as u64;
            push_group(&mut numbers, self.writes.shown.group(version))?;
            return Ok(numbers);
        }
        push_group(&mut numbers, self.writes.asked.group(row.position as u64))?;
        self.push_lost(&mut numbers, pair)?;
        numbers.extend_from_slice(open)?;
        Ok(numbers)
    }
}
