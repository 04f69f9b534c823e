ghost use Rattle.std.specs.Prelude.{◌≡◌, ℕ, ◌<◌, ◌≤◌, ◌↔◌, ◌==◌, ◌⊎◌, List, [], length, IsTrue, IfOk, IfSome, IsErrOf, None};
ghost use Rattle.std.specs.Arc.{arc_str_bytes};
ghost use Rattle.std.specs.Cmp.{partial_equiv_from_equiv};
ghost use Rattle.std.specs.Cmp.Lexicographic.{pointwise, nat_list_eq_equiv};
ghost use Rattle.std.specs.Cmp.Rules.{hashing};
ghost use Rattle.std.specs.Hash as fed;
ghost use Rattle.std.proofs.Common.{rules};
ghost use Rattle.version_pair.specs.Id.{IsIdLength};

use std::alloc::{AllocError, Global};
use std::hash::{Hash, Hasher};
use std::marker::Model;
use std::sync::ArcStr;
use thiserror::Error;

/// The error of a call that fails only if it is refused memory.
pub type NoMemory = AllocError;

/// The greatest length of a document id, in bytes.
pub const LONGEST_ID: usize = 512;

/// The reason why a text is not a document id.
#[derive(Clone, Copy, Debug, PartialEq, Eq, Error)]
pub enum IdFault {
    /// The text has no byte.
    #[error("a document's id has at least one byte")]
    Empty,
    /// The text has more than 512 bytes.
    #[error("a document's id has at most 512 bytes")]
    TooLong,
    /// Memory for the copy of the text was refused.
    #[error("no memory")]
    NoMemory,
}

/// A borrowed text that is a document id: it has 1 to 512 bytes.
#[derive(Debug, Drop)]
pub struct IdText<'t> {
    text: &'t str,
}

impl<'t> Model for IdText<'t> {
    ghost Value = { List ℕ };

    ghost view = { λ d. d.text.now };

    ghost invariant = { λ d. IsIdLength (length d.text.now) };
}

impl<'t> IdText<'t> {
    /// Returns the text as an id, or `None` unless it has 1 to 512 bytes.
    pub fn new(text: &'t str) -> Option<IdText<'t>>
        ensures some { IfSome result (λ id. (id ≡ text.now) × IsIdLength (length text.now)) }
        ensures none { (result ≡ None) ↔ ((length text.now ≡ 0) ⊎ (512 < length text.now)) }
    {
        if text.is_empty() || text.len() > LONGEST_ID {
            return None;
        }
        Some(IdText { text })
    }

    /// Returns the id as text.
    pub fn as_str(&self) -> &'t str
        ensures same { result.now ≡ self.now }
        ensures id { IsIdLength (length self.now) }
    {
        self.text
    }

    /// Returns the id with the same bytes, in memory of its own.
    pub fn to_id(&self, alloc: Global) -> Result<DocId, NoMemory>
        ensures { IfOk result (λ id. id ≡ self.now) }
    {
        Ok(DocId {
            text: ArcStr::from_str(alloc, self.text)?,
        })
    }
}

/// The id of a document: a text of 1 to 512 bytes. Its copies share the text.
#[derive(Debug, Drop)]
pub struct DocId {
    text: ArcStr,
}

impl Model for DocId {
    ghost Value = { List ℕ };

    ghost view = { λ d. arc_str_bytes d.text };

    ghost invariant = { λ d. IsIdLength (length (arc_str_bytes d.text)) };
}

impl DocId {
    /// Returns the id with the bytes of the text.
    ///
    /// Errors, in this order: `Empty` for the empty text, `TooLong` for a text of more than 512 bytes,
    /// `NoMemory`.
    pub fn new(alloc: Global, text: &str) -> Result<DocId, IdFault>
        ensures ok { IfOk result (λ id. (id ≡ text.now) × IsIdLength (length text.now)) }
        ensures empty { IsErrOf result IdFault.Empty ↔ (length text.now ≡ 0) }
        ensures too_long { IsErrOf result IdFault.TooLong ↔ (512 < length text.now) }
    {
        let Some(id) = IdText::new(text) else {
            return Err(if text.is_empty() {
                IdFault::Empty
            } else {
                IdFault::TooLong
            });
        };
        id.to_id(alloc).map_err(|_| IdFault::NoMemory)
    }

    /// Returns the text of the id, borrowed from the id.
    pub fn text(&self) -> IdText<'_>
        ensures { result ≡ self.now }
    {
        IdText {
            text: self.text.as_str(),
        }
    }

    /// Returns the id as text.
    pub fn as_str(&self) -> &str
        ensures same { result.now ≡ self.now }
        ensures id { IsIdLength (length self.now) }
    {
        self.text.as_str()
    }

    /// Returns another id with the same bytes, whose text it shares.
    ///
    /// No memory is allocated: the error is returned only if there are more copies than can be counted.
    pub fn copy(&self) -> Result<DocId, NoMemory>
        ensures { IfOk result (λ id. id ≡ self.now) }
    {
        Ok(DocId {
            text: self.text.clone()?,
        })
    }
}

impl PartialEq for DocId {
    // Two ids are equal exactly if their bytes are.
    ghost eq = { λ a b. pointwise ◌==◌ a b };

    ghost laws = { partial_equiv_from_equiv nat_list_eq_equiv };

    fn eq(&self, other: &DocId) -> bool {
        self.text == other.text
    }
}

impl Eq for DocId {
    ghost laws = { nat_list_eq_equiv };
}

impl Hash for DocId {
    // The hash is that of the bytes, so equal ids have equal hashes.
    ghost hash_input = { λ d. fed.str d };

    ghost respects_eq = { Prim.search (hashing, rules) };

    fn hash<H: Hasher>(&self, state: &mut H) {
        self.text.hash(state);
    }
}
