//! The pairs that the documents of a history are known to have.

ghost use Rattle.std.specs.Prelude.{◌≡◌, ◌<◌, IfOk, List, OnOk, Some as Just, ℕ, length, slice_get};
ghost use Rattle.events.specs.declared.event.Event.{Event as EventOf};
ghost use Rattle.events.specs.Events.{documents_of};
ghost use Rattle.version_pair.specs.declared.pair.Pair.{Pair as PairOf};
ghost use Rattle.evidence.specs.aids.KnownPairs.{AreKnownOf, IsOther};

use deciding::shown_pairs;
use events::History;
use std::alloc::Global;
use version_pair::{NoMemory, Pair};

/// A pair that a document is known to have. They are ordered by shard, then by pair.
#[derive(Clone, Copy, PartialEq, Eq, PartialOrd, Ord)]
pub struct KnownPair {
    pub shard: u32,
    pub pair: Pair,
    /// The number of the document.
    pub doc: usize,
}

// Adds the pairs of the document of this number.
fn push_document(known: &mut Vec<KnownPair>, history: &History, doc: usize) -> Result<(), NoMemory>
    requires { doc < length (documents_of history.now) }
    ensures ok { OnOk result (AreKnownOf history.now known.old.items → AreKnownOf history.now known.new.items) }
{
    let shard = history.shard(doc);
    let pairs = shown_pairs(*known.allocator(), &history.records(doc)?)?;
    for i in 0..pairs.len() {
        known.push(KnownPair {
            shard,
            pair: pairs[i],
            doc,
        })?;
    }
    Ok(())
}

// The pairs in their order.
fn sorted(mut known: Vec<KnownPair>) -> Vec<KnownPair>
    ensures { (events : List EventOf) → AreKnownOf events known.items → AreKnownOf events result.items }
{
    known.sort_unstable();
    known
}

/// Returns the pairs that the documents of the history are known to have, in their order.
pub fn known_pairs(alloc: Global, history: &History) -> Result<Vec<KnownPair>, NoMemory>
    ensures { IfOk result (λ known. AreKnownOf history.now known.items) }
{
    let mut known = Vec::new(alloc);
    for doc in 0..history.docs() {
        push_document(&mut known, history, doc)?;
    }
    Ok(sorted(known))
}

/// Returns the number of known pairs of the shard up to the greatest one.
pub fn count_up_to(known: &[KnownPair], shard: u32, greatest: Pair) -> usize {
    let before = known.partition_point(|entry| entry.shard < shard);
    let until = known.partition_point(|entry| {
        entry.shard < shard || entry.shard == shard && !greatest.is_below(entry.pair)
    });
    until.saturating_sub(before)
}

// Whether the pair is the last one of the list.
fn is_last(pairs: &[Pair], pair: Pair) -> bool {
    pairs.last().copied() == Some(pair)
}

/// Returns the pairs up to the greatest one that other documents of the shard than that of this number are known to have,
/// each once, in their order.
pub fn pairs_elsewhere(
    alloc: Global,
    known: &[KnownPair],
    shard: u32,
    doc: usize,
    greatest: Pair,
) -> Result<Vec<Pair>, NoMemory>
    ensures { IfOk result (λ pairs. (i : ℕ) (q : PairOf) → slice_get pairs.items i ≡ Just q → IsOther known.now shard doc q) }
{
    let mut pairs = Vec::new(alloc);
    for i in known.partition_point(|entry| entry.shard < shard)..known.len() {
        let entry = known[i];
        if entry.shard != shard || greatest.is_below(entry.pair) {
            break;
        }
        if entry.doc != doc && !is_last(&pairs, entry.pair) {
            pairs.push(entry.pair)?;
        }
    }
    Ok(pairs)
}
