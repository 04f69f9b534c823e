ghost use Rattle.std.specs.Prelude.{◌≡◌, ◌<◌, ◌+◌, ◌++◌, ◌∷◌, [], ℕ, IfOk, List, None, OnErr, OnOk, Some, false, is_some, length, option_map, position, set, slice_get};
ghost use Rattle.std.specs.Map.{lookup};
ghost use Rattle.std.specs.Map.Iter.{deref_pair};
ghost use Rattle.events.specs.Events.{is_same, with_document};
ghost use Rattle.events.specs.Refusal.{most_events};
ghost use Rattle.events.specs.aids.Documents.{IsCutAt, no_documents};
ghost use Rattle.events.specs.aids.Fronts.{starts_below};
ghost use Rattle.events.specs.aids.Indexes.{with_listed};

use crate::by_text::ByText;
use crate::hash_keys::HashKeys;
use indexmap::IndexMap;
use std::alloc::Global;
use std::marker::Model;
use version_pair::{DocId, IdText, NoMemory};

/// A call: its position in the history, and the link of the previous call of its document.
#[derive(Clone, Copy, Debug)]
pub(crate) struct Link {
    place: u32,
    before: u32,
}

/// The calls of one document: the position of the first one, the link of the last one, and how many there
/// are.
#[derive(Clone, Copy, Debug)]
pub(crate) struct Ends {
    first: u32,
    last: u32,
    count: u32,
}

/// The documents of a history in the order of their first calls, each with its shard and the positions of its
/// calls.
///
/// The calls of all documents are in one list, each linked to the previous one of its document. So a document
/// needs no list of its own, and one more call touches none of the earlier ones. As no history has more than
/// 1,048,576 events, positions and links take 32 bits.
#[derive(Debug, Drop)]
pub(crate) struct Documents {
    shards: IndexMap<DocId, u32, HashKeys>,
    // The calls of each document, with the documents in the same order.
    ends: Vec<Ends>,
    links: Vec<Link>,
}

impl Model for Documents {
    ghost use Rattle.indexmap.specs.IndexMap.{hasher_of};
    ghost use Rattle.events.specs.aids.Documents.{AreLinked, Documented, documented};

    ghost Value = { Documented };

    ghost view = { λ d. documented (hasher_of d.shards) d.shards.entries d.links.items d.ends.items };

    ghost invariant = { λ d. AreLinked d.links.items d.ends.items };
}

impl Documents {
    /// Returns an empty list of documents. It allocates nothing.
    pub fn with_keys(alloc: Global, keys: HashKeys) -> Documents
        ensures { result ≡ no_documents keys }
    {
        Documents {
            shards: IndexMap::with_hasher(alloc, keys),
            ends: Vec::new(alloc),
            links: Vec::new(alloc),
        }
    }

    /// Returns the keys of the hashes by which documents are found.
    pub fn keys(&self) -> HashKeys
        ensures { result ≡ self.now.keys }
    {
        *self.shards.hasher()
    }

    /// Returns the number of documents.
    pub fn len(&self) -> usize
        ensures { result ≡ length self.now.entries }
    {
        self.shards.len()
    }

    /// Returns the id of a document and its shard.
    pub fn get(&self, doc: usize) -> Option<(&DocId, &u32)>
        ensures { option_map deref_pair result ≡ slice_get self.now.entries doc }
    {
        self.shards.get_index(doc)
    }

    /// Returns the index of the document with this id.
    pub fn index_of(&self, id: &IdText<'_>) -> Option<usize>
        ensures { result ≡ position (λ d. is_same id.now d.0) self.now.entries }
    {
        self.shards.get_index_of(ByText::of(id))
    }

    // Adds the position of one more call of the document with the index `doc`. If memory is refused, nothing
    // is added.
    fn note_known(&mut self, doc: usize, place: usize) -> Result<(), NoMemory>
        requires there { doc < length self.old.lists }
        requires place { place < most_events }
        requires few { self.old.calls < most_events }
        ensures keys { self.new.keys ≡ self.old.keys }
        ensures entries { self.new.entries ≡ self.old.entries }
        ensures counted { OnOk result (self.new.calls ≡ self.old.calls + 1) }
        ensures listed { OnOk result ((places : List ℕ) → slice_get self.old.lists doc ≡ Some places
            → self.new.lists ≡ set self.old.lists doc (places ++ place ∷ [])) }
        ensures err { OnErr result (self.new ≡ self.old) }
    {
        self.links.reserve(1)?;
        let Ends { first, last, count } = self.ends[doc];
        self.ends[doc] = Ends {
            first,
            last: self.links.len() as u32,
            count: count + 1,
        };
        self.links.push_reserved(Link {
            place: place as u32,
            before: last,
        });
        Ok(())
    }

    // Adds a document at the end, with the position of its first call. If memory is refused, nothing is
    // added.
    fn note_new(&mut self, id: &DocId, shard: u32, place: usize) -> Result<(), NoMemory>
        requires new { is_some (lookup (is_same id.now) self.old.entries) ≡ false }
        requires place { place < most_events }
        requires few { self.old.calls < most_events }
        ensures keys { self.new.keys ≡ self.old.keys }
        ensures counted { OnOk result (self.new.calls ≡ self.old.calls + 1) }
        ensures ok { OnOk result (self.new.entries ≡ with_document self.old.entries id.now shard) }
        ensures listed { OnOk result (self.new.lists ≡ self.old.lists ++ (place ∷ []) ∷ []) }
        ensures err { OnErr result (self.new ≡ self.old) }
    {
        let id = id.copy()?;
        self.ends.reserve(1)?;
        self.links.reserve(1)?;
        self.shards.insert(id, shard)?;
        let last = self.links.len() as u32;
        let place = place as u32;
        self.ends.push_reserved(Ends {
            first: place,
            last,
            count: 1,
        });
        self.links.push_reserved(Link {
            place,
            before: last,
        });
        Ok(())
    }

    /// Adds the position of a call to those of its document, which has the index `doc`, or is new and goes to
    /// the end of the documents. If memory is refused, nothing is added.
    pub fn note_call(
        &mut self,
        doc: Option<usize>,
        id: &DocId,
        shard: u32,
        place: usize,
    ) -> Result<(), NoMemory>
        requires sizes { length self.old.lists ≡ length self.old.entries }
        requires stands { doc ≡ position (λ d. is_same id.now d.0) self.old.entries }
        requires place { place < most_events }
        requires few { self.old.calls < most_events }
        ensures keys { self.new.keys ≡ self.old.keys }
        ensures counted { OnOk result (self.new.calls ≡ self.old.calls + 1) }
        ensures ok { OnOk result (self.new.entries ≡ with_document self.old.entries id.now shard) }
        ensures listed { OnOk result (self.new.lists ≡ with_listed self.old.entries self.old.lists id.now place) }
        ensures err { OnErr result (self.new ≡ self.old) }
    {
        match doc {
            Some(doc) => self.note_known(doc, place),
            None => self.note_new(id, shard, place),
        }
    }

    /// Returns the positions of a document's calls, in their order.
    pub fn calls(&self, doc: usize) -> Result<Vec<usize>, NoMemory>
        requires { doc < length self.now.lists }
        ensures { IfOk result (λ places. slice_get self.now.lists doc ≡ Some places.items) }
    {
        let Ends { last, count, .. } = self.ends[doc];
        let mut places = Vec::with_capacity(*self.links.allocator(), count as usize)?;
        let mut at = last;
        for _ in 0..count {
            let Link { place, before } = self.links[at as usize];
            places.push(place as usize)?;
            at = before;
        }
        places.reverse();
        Ok(places)
    }

    /// Returns how many documents have their first call before the position, if these are the first ones.
    pub fn called_before(&self, end: usize) -> usize
        ensures { (count : ℕ) → IsCutAt (starts_below end) self.now.lists count → result ≡ count }
    {
        self.ends
            .partition_point(|calls| (calls.first as usize) < end)
    }
}
