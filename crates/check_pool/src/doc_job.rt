use doc_register::Conflicts;
use events::{Rec, Seen};
use version_pair::DocId;

/// The search for one document.
#[derive(Debug, Drop)]
pub struct DocJob {
    /// The number of the job: its index in the list of jobs, from 0.
    pub doc: usize,
    pub id: DocId,
    /// The document's calls, in their order in the history.
    pub recs: Vec<Rec>,
    /// The greatest primary term and the greatest sequence number that the whole history names.
    pub seen: Seen,
    /// How conflicts are read.
    pub conflicts: Conflicts,
}
