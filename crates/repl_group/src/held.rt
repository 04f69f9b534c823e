ghost use Rattle.std.specs.Prelude.{◌≡◌, ℕ, ◌+◌, ◌==◌, [], IfOk, OnErr, OnOk, max, unwrap_or};
ghost use Rattle.std.specs.Map.{lookup};
ghost use Rattle.repl_group.specs.Copies.{document_after, is_above as above, made_by};

use crate::held_write::HeldWrite;
use doc_register::{DocState, exceeds, state_after};
use indexmap::IndexMap;
use std::alloc::Global;
use std::marker::Model;
use version_pair::{NoMemory, Pair};

/// What a copy holds: its position in the log of the group.
///
/// The state of each document there and the next sequence number are kept beside it, so that no look-up walks
/// over the writes.
#[derive(Debug, Drop)]
pub struct Held {
    place: usize,
    documents: IndexMap<usize, DocState>,
    next_seq: u64,
}

impl Model for Held {
    ghost use Rattle.repl_group.specs.aids.Holding.{HeldState};

    ghost Value = { HeldState };

    ghost view = { λ h. record { place = h.place; documents = h.documents.entries; next_seq = h.next_seq } };
}

// Whether the pair is greater than that of the document's last change, if it has one.
fn is_above(pair: Pair, state: DocState) -> bool
    ensures { result ≡ above pair state }
{
    exceeds(pair, state)
}

// The state of its document after the write.
fn state_made(write: HeldWrite) -> DocState
    ensures { result ≡ made_by write }
{
    state_after(DocState::Never, &write.op, write.pair)
}

// Sets the state of its document after the write. If memory is refused, nothing changes.
fn note_document(
    documents: &mut IndexMap<usize, DocState>,
    write: HeldWrite,
) -> Result<(), NoMemory>
    ensures ok { OnOk result ((d : ℕ) → unwrap_or (lookup (◌==◌ d) documents.new.entries) DocState.Never
        ≡ document_after d (unwrap_or (lookup (◌==◌ d) documents.old.entries) DocState.Never) write) }
    ensures err { OnErr result (documents.new.entries ≡ documents.old.entries) }
{
    let state = documents
        .get(&write.doc)
        .copied()
        .unwrap_or(DocState::Never);
    if is_above(write.pair, state) {
        documents.insert(write.doc, state_made(write))?;
    }
    Ok(())
}

impl Held {
    /// Returns the value that holds nothing, which is position 0 of the log. It allocates nothing.
    pub fn new(alloc: Global) -> Held
        ensures { result ≡ record { place = 0; documents = []; next_seq = 0 } }
    {
        Held {
            place: 0,
            documents: IndexMap::new(alloc),
            next_seq: 0,
        }
    }

    /// Returns the position in the log.
    pub fn place(&self) -> usize
        ensures { result ≡ self.now.place }
    {
        self.place
    }

    /// Returns the document of this number.
    pub fn document(&self, doc: usize) -> DocState
        ensures { result ≡ unwrap_or (lookup (◌==◌ doc) self.now.documents) DocState.Never }
    {
        self.documents.get(&doc).copied().unwrap_or(DocState::Never)
    }

    /// Returns the sequence number of the next write, at most 2^63; 2^63 itself is no longer a sequence
    /// number.
    pub fn next_seq(&self) -> u64
        ensures { result ≡ self.now.next_seq }
    {
        self.next_seq
    }

    /// Moves to a position of the log at which one more write is held. If memory is refused, nothing changes.
    pub fn add(&mut self, place: usize, write: HeldWrite) -> Result<(), NoMemory>
        ensures place { OnOk result (self.new.place ≡ place) }
        ensures documents { OnOk result ((d : ℕ) → unwrap_or (lookup (◌==◌ d) self.new.documents) DocState.Never
            ≡ document_after d (unwrap_or (lookup (◌==◌ d) self.old.documents) DocState.Never) write) }
        ensures next { OnOk result (self.new.next_seq ≡ max self.old.next_seq (write.pair.seq + 1)) }
        ensures err { OnErr result (self.new ≡ self.old) }
    {
        note_document(&mut self.documents, write)?;
        self.place = place;
        self.next_seq = self.next_seq.max(write.pair.seq() + 1);
        Ok(())
    }

    /// Returns the same value once more. The time is proportional to the number of documents.
    pub fn copy(&self) -> Result<Held, NoMemory>
        ensures { IfOk result (λ held. held ≡ self.now) }
    {
        Ok(Held {
            place: self.place,
            documents: self.documents.clone()?,
            next_seq: self.next_seq,
        })
    }
}
