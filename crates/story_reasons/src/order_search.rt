use doc_register::Conflicts;
use events::{History, Rec, Seen};
use evidence::RulingOut;
use places::DocWitness;
use readings::Reading;
use std::alloc::Global;
use version_pair::{DocId, NoMemory};

/// A search for an order of a document's calls. An explanation shows an order of the calls before the reply
/// that broke it, if this search finds one, and what a check says of the text under other readings.
pub trait OrderSearch {
    /// Returns an order of these calls of the document, if one is found. `seen` are the greatest numbers in the
    /// events before.
    fn order(
        &self,
        alloc: Global,
        id: DocId,
        records: Vec<Rec>,
        seen: Seen,
        conflicts: Conflicts,
    ) -> Result<Option<DocWitness>, NoMemory>;

    /// Returns the line of a check of the text under this reading, none of whose calls are void; `None` if there is no
    /// room for what it is read as.
    fn line(
        &self,
        alloc: Global,
        text: &History,
        reading: Reading,
        ruling_out: RulingOut,
    ) -> Result<Option<Vec<u8>>, NoMemory>;

    /// Returns whether documents are looked for that are provably not linearizable.
    fn ruling_out(&self) -> RulingOut;

    /// Returns whether this is the line of a check by the strict reading that looks for such documents.
    fn is_strict(&self, line: &[u8]) -> bool;
}
