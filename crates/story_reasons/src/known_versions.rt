use doc_register::Reply;
use events::Rec;
use evidence::{Stage, least_above, shown_pairs};
use std::alloc::Global;
use version_pair::{NoMemory, Pair};

// The numbers that gets found with a version.
#[derive(Clone, Copy)]
enum FoundNumbers {
    // No get found the version.
    Unseen,
    // Each get that found it found this number.
    One(u64),
    // Two gets found different numbers.
    Several,
}

// A version that a reply shows, and what replies say of it.
#[derive(Clone, Copy)]
struct KnownVersion {
    pair: Pair,
    // Whether a reply says that the document was deleted with it.
    is_gone: bool,
    numbers: FoundNumbers,
}

/// The versions that replies show a document to have had.
#[derive(Drop)]
pub struct KnownVersions {
    // Each once, in their order.
    list: Vec<KnownVersion>,
}

impl FoundNumbers {
    // The numbers with one more.
    fn with(self, k: u64) -> FoundNumbers {
        match self {
            FoundNumbers::Unseen => FoundNumbers::One(k),
            FoundNumbers::One(known) if known == k => self,
            FoundNumbers::One(_) | FoundNumbers::Several => FoundNumbers::Several,
        }
    }
}

impl KnownVersion {
    // What is known of the version, with one more reply that shows it.
    fn with(self, reply: Reply) -> KnownVersion {
        match reply {
            Reply::Deleted { .. } => KnownVersion {
                is_gone: true,
                ..self
            },
            Reply::Found { k, .. } => KnownVersion {
                numbers: self.numbers.with(k),
                ..self
            },
            Reply::Indexed { .. } | Reply::Missing | Reply::Conflict => self,
        }
    }
}

impl KnownVersions {
    /// Returns the versions that the replies to a document's calls show.
    pub fn of(alloc: Global, records: &[Rec]) -> Result<KnownVersions, NoMemory> {
        let mut pairs = shown_pairs(alloc, records)?;
        pairs.sort_unstable();
        pairs.dedup();
        let mut list = Vec::with_capacity(alloc, pairs.len())?;
        for pair in pairs.iter() {
            list.push(KnownVersion {
                pair: *pair,
                is_gone: false,
                numbers: FoundNumbers::Unseen,
            })?;
        }
        let mut versions = KnownVersions { list };
        for call in records {
            versions.note(call);
        }
        Ok(versions)
    }

    // Notes what the reply to the call says.
    fn note(&mut self, call: &Rec) {
        if let Some(heard) = call.heard
            && let Some(pair) = heard.1.pair()
        {
            let below = self.count_below(pair);
            if below < self.list.len() {
                self.list[below] = self.list[below].with(heard.1);
            }
        }
    }

    // The number of versions below this one.
    fn count_below(&self, pair: Pair) -> usize {
        self.list
            .partition_point(|version| version.pair.is_below(pair))
    }

    // The version, if it is known.
    fn find(&self, pair: Pair) -> Option<KnownVersion> {
        let below = self.count_below(pair);
        self.list
            .get(below)
            .copied()
            .filter(|version| version.pair == pair)
    }

    /// Returns whether a reply says that the document was deleted with the version.
    pub fn is_gone(&self, pair: Pair) -> bool {
        match self.find(pair) {
            Some(version) => version.is_gone,
            None => false,
        }
    }

    /// Returns whether a write of this number may have made the version.
    pub fn allows(&self, pair: Pair, k: u64) -> bool {
        match self.find(pair) {
            Some(version) => match version.numbers {
                FoundNumbers::Unseen => true,
                FoundNumbers::One(found) => found == k,
                FoundNumbers::Several => false,
            },
            None => true,
        }
    }

    /// Returns the least version above this one, or the least of all if none is given.
    pub fn next_above(&self, pair: Option<Pair>) -> Option<Pair> {
        let least = least_above(pair)?;
        let version = self.list.get(self.count_below(least))?;
        Some(version.pair)
    }

    /// Returns the greatest version below this one.
    pub fn last_below(&self, pair: Pair) -> Option<Pair> {
        let below = self.count_below(pair).checked_sub(1)?;
        let version = self.list.get(below)?;
        Some(version.pair)
    }

    /// Returns whether some number is free right above the version, or below all if none is given.
    pub fn has_room_above(&self, pair: Option<Pair>) -> bool {
        match least_above(pair) {
            Some(least) => self.find(least).is_none(),
            None => false,
        }
    }

    /// Returns the state of a document whose last change has at least this pair; `None` if it was never changed.
    pub fn stage(&self, least: Option<Pair>) -> Stage {
        match least {
            None => Stage::Never,
            Some(pair) if self.find(pair).is_some() => Stage::At(pair),
            Some(pair) => Stage::Behind(self.last_below(pair)),
        }
    }
}
