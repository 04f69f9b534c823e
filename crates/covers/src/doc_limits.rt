use completing_forward::Limit;
use std::alloc::Global;
use version_pair::NoMemory;

// A limit on what is inserted in the order of a document.
#[derive(Clone, Copy)]
struct DocLimit {
    doc: usize,
    limit: Limit,
}

/// Limits on what is inserted in the orders of documents, by their numbers.
#[derive(Drop)]
pub struct DocLimits {
    limits: Vec<DocLimit>,
}

impl DocLimits {
    /// Returns no limits.
    pub fn none(alloc: Global) -> DocLimits {
        DocLimits {
            limits: Vec::new(alloc),
        }
    }

    /// Adds a limit on a document.
    pub fn note(&mut self, doc: usize, limit: Limit) -> Result<(), NoMemory> {
        self.limits.push(DocLimit { doc, limit })?;
        Ok(())
    }

    /// Returns the limits on a document, with one more.
    pub fn with(&self, alloc: Global, doc: usize, more: Limit) -> Result<Vec<Limit>, NoMemory> {
        let mut limits = Vec::new(alloc);
        for entry in &self.limits {
            if entry.doc == doc {
                limits.push(entry.limit)?;
            }
        }
        limits.push(more)?;
        Ok(limits)
    }
}
