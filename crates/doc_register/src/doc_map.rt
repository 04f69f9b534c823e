ghost use Rattle.std.specs.Prelude.{◌≡◌, ◌↔◌, ◌==◌, ◌<◌, ◌++◌, ℕ, List, [], ◌∷◌, Contains, Err, IfErr, IfOk, IsTrue, OnErr, OnOk, Some, cond};
ghost use Rattle.std.specs.Cmp.Lexicographic.{pointwise};
ghost use Rattle.std.specs.Map.{lookup};
ghost use Rattle.indexmap.specs.IndexSet.{spare};
ghost use Rattle.doc_register.specs.Documents.{Accepts, IsTooLow, IsUsedTwice, no_documents, state_of};
ghost use Rattle.doc_register.specs.Register.{IsPerformed, performed_state, shown};
ghost use Rattle.doc_register.specs.aids.Answers.{unperformed_reply as the_unperformed_reply};

use crate::map_fault::MapFault;
use crate::transition::{exceeds, is_performed, performed_reply};
use crate::{DocState, Op, Reply};
use indexmap::{IndexMap, IndexSet};
use std::alloc::Global;
use std::marker::Model;
use version_pair::{DocId, Pair};

/// The documents of one shard, with the pairs used so far: a register that answers calls as a cluster does.
#[derive(Debug, Drop)]
pub struct DocMap {
    states: IndexMap<DocId, DocState>,
    // The pairs used so far, in the order of their use.
    used: IndexSet<Pair>,
}

impl Model for DocMap {
    ghost use Rattle.std.specs.Prelude.{reverse};
    ghost use Rattle.doc_register.specs.Documents.{Documents};

    ghost Value = { Documents };

    ghost view = { λ m. record { states = m.states.entries; used = reverse m.used.keys } };
}

/// Returns the reply of a get.
pub fn shown_reply(state: DocState) -> Reply
    ensures { result ≡ shown state }
{
    match state {
        DocState::Never | DocState::Gone(_) => Reply::Missing,
        DocState::Here(pair, k) => Reply::Found { pair, k },
    }
}

// The reply to a call that is not a performed write.
fn unperformed_reply(state: DocState, op: &Op) -> Reply
    ensures { result ≡ the_unperformed_reply state op.now }
{
    match op {
        Op::Get => shown_reply(state),
        Op::Index { .. } | Op::Delete { .. } | Op::Create { .. } => Reply::Conflict,
    }
}

/// Returns the document after a performed write that takes the pair. A get leaves the document as it was.
pub fn state_after(state: DocState, op: &Op, pair: Pair) -> DocState
    ensures { result ≡ performed_state state op.now pair }
{
    match op {
        Op::Get => state,
        Op::Index { k, .. } | Op::Create { k } => DocState::Here(pair, *k),
        Op::Delete { .. } => DocState::Gone(pair),
    }
}

// Sets the state of the document. If memory is refused, nothing changes.
fn note_state(
    states: &mut IndexMap<DocId, DocState>,
    id: &DocId,
    state: DocState,
) -> Result<(), MapFault>
    ensures ok { OnOk result ((d : List ℕ) → lookup (λ e. pointwise ◌==◌ d e) states.new.entries
        ≡ cond (pointwise ◌==◌ id.now d) (Some state) (lookup (λ e. pointwise ◌==◌ d e) states.old.entries)) }
    ensures err { OnErr result (states.new.entries ≡ states.old.entries) }
    ensures fault { IfErr result (λ fault. fault ≡ MapFault.NoMemory) }
{
    let Ok(key) = id.copy() else {
        return Err(MapFault::NoMemory);
    };
    match states.insert(key, state) {
        Ok(_) => Ok(()),
        Err(_) => Err(MapFault::NoMemory),
    }
}

// Adds the pair to the used ones. There must be room for it.
fn note_pair(used: &mut IndexSet<Pair>, pair: Pair)
    requires room { 0 < spare used.old }
    requires unused { ¬ Contains used.old.keys pair }
    ensures { used.new.keys ≡ used.old.keys ++ pair ∷ [] }
{
    match used.insert(pair) {
        Ok(_) => {}
        Err(_) => unreachable!(),
    }
}

impl DocMap {
    /// Returns a map without documents. It allocates nothing; documents are added in this memory later.
    pub fn new(alloc: Global) -> DocMap
        ensures { result ≡ no_documents }
    {
        DocMap {
            states: IndexMap::new(alloc),
            used: IndexSet::new(alloc),
        }
    }

    // The state of the document.
    fn state(&self, id: &DocId) -> DocState
        ensures { result ≡ state_of self.now id.now }
    {
        self.states.get(id).copied().unwrap_or(DocState::Never)
    }

    // Whether the pair is used.
    fn is_used(&self, pair: Pair) -> bool
        ensures { IsTrue result ↔ Contains self.now.used pair }
    {
        self.used.contains(&pair)
    }

    // Sets the state of the document, and adds the pair to the used ones. If memory is refused, nothing
    // changes.
    fn note(&mut self, id: &DocId, state: DocState, pair: Pair) -> Result<(), MapFault>
        requires { ¬ Contains self.old.used pair }
        ensures states { OnOk result ((d : List ℕ) → state_of self.new d ≡ cond (pointwise ◌==◌ id.now d) state (state_of self.old d)) }
        ensures used { OnOk result (self.new.used ≡ pair ∷ self.old.used) }
        ensures err { OnErr result (self.new ≡ self.old) }
        ensures fault { IfErr result (λ fault. fault ≡ MapFault.NoMemory) }
    {
        if self.used.reserve(1).is_err() {
            return Err(MapFault::NoMemory);
        }
        note_state(&mut self.states, id, state)?;
        note_pair(&mut self.used, pair);
        Ok(())
    }

    /// Returns the reply to a call. A write that is performed takes the pair.
    ///
    /// A get is answered with what the document shows, and a write that is not performed with a conflict.
    /// Both leave the documents as they were, use no pair and never fail.
    ///
    /// Errors of a performed write, in this order: `PairUsed` if its pair is already used, by any document;
    /// `PairLow` if its pair is not greater than that of the document's last change; `NoMemory`. An error
    /// changes nothing.
    pub fn apply(&mut self, id: &DocId, op: &Op, pair: Pair) -> Result<Reply, MapFault>
        // An accepted call is a step of its document with the reply, and the pair in the reply of a write is
        // the one that was passed in.
        ensures accepted { IfOk result (λ reply. Accepts self.old id.now op.now pair reply self.new) }
        ensures used { (result ≡ Err MapFault.PairUsed) ↔ IsUsedTwice self.old id.now op.now pair }
        ensures low { (result ≡ Err MapFault.PairLow) ↔ IsTooLow self.old id.now op.now pair }
        // An error leaves the documents as they were.
        ensures refused { OnErr result (self.new ≡ self.old) }
        // Only a write that would be performed gets an error.
        ensures performed { OnErr result (IsPerformed (state_of self.old id.now) op.now) }
    {
        let state = self.state(id);
        if !is_performed(state, *op) {
            return Ok(unperformed_reply(state, op));
        }
        if self.is_used(pair) {
            return Err(MapFault::PairUsed);
        }
        if !exceeds(pair, state) {
            return Err(MapFault::PairLow);
        }
        let reply = performed_reply(state, *op, pair);
        self.note(id, state_after(state, op, pair), pair)?;
        Ok(reply)
    }
}
