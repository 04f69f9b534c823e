use events::{History, Rec, TakenPair, next_taken_again};
use std::alloc::Global;
use version_pair::{NoMemory, Pair};

// The pair that the reply to the call shows, with the index of the reply.
fn shown_to(found: Rec) -> Option<(usize, Pair)> {
    let (place, reply) = found.heard?;
    Some((place, reply.pair()?))
}

// The lesser of two indices, the second of which may be missing.
fn earlier(place: usize, other: Option<usize>) -> Option<usize> {
    Some(other.map_or(place, |least| least.min(place)))
}

// The replies of a document that show a pair, by their indices.
fn shown_pairs(alloc: Global, records: &[Rec]) -> Result<Vec<(usize, Pair)>, NoMemory> {
    let mut shown = Vec::new(alloc);
    for found in records {
        if let Some(entry) = shown_to(*found) {
            shown.push(entry)?;
        }
    }
    shown.sort_unstable();
    Ok(shown)
}

// The index of the reply to the call, if it shows a pair below this one.
fn shown_below(found: Rec, greatest: Option<Pair>) -> Option<usize> {
    let (place, pair) = shown_to(found)?;
    if Some(pair) < greatest {
        Some(place)
    } else {
        None
    }
}

// The first reply of a document that shows a pair below one that was shown before its call.
fn first_below(alloc: Global, records: &[Rec]) -> Result<Option<usize>, NoMemory> {
    let shown = shown_pairs(alloc, records)?;
    let mut passed = 0;
    let mut greatest = None;
    let mut first = None;
    for found in records {
        for next in passed..shown.len() {
            let (place, pair) = shown[next];
            if place >= found.call_at {
                break;
            }
            greatest = greatest.max(Some(pair));
            passed = next + 1;
        }
        if let Some(place) = shown_below(*found, greatest) {
            first = earlier(place, first);
        }
    }
    Ok(first)
}

// Adds the pairs that are given to the calls of a document.
fn note_given(
    given: &mut Vec<TakenPair<usize>>,
    shard: u32,
    records: &[Rec],
) -> Result<(), NoMemory> {
    for found in records {
        if let (Some(heard), Some(pair)) = (found.heard, found.pair_taken()) {
            given.push(TakenPair {
                shard,
                pair,
                by: heard.0,
            })?;
        }
    }
    Ok(())
}

// The first reply that gives a pair of its shard for the second time. The list must be sorted.
fn first_given_twice(given: &[TakenPair<usize>]) -> Option<usize> {
    let mut first = None;
    let mut from = 1;
    while let Some(again) = next_taken_again(given, from) {
        first = earlier(given[again].by, first);
        from = again + 1;
    }
    first
}

/// Returns the index of the first reply, over all documents, that contradicts an earlier one by the pairs
/// that both show: it shows a pair of its document below one that was shown before its call, or gives a pair
/// of its shard for the second time. Returns `None` if there is none. The result comes with no guarantee.
pub fn first_contradiction(alloc: Global, history: &History) -> Result<Option<usize>, NoMemory> {
    let mut given = Vec::new(alloc);
    let mut first = None;
    for doc in 0..history.docs() {
        let records = history.records(doc)?;
        if let Some(place) = first_below(alloc, &records)? {
            first = earlier(place, first);
        }
        note_given(&mut given, history.shard(doc), &records)?;
    }
    given.sort_unstable();
    if let Some(place) = first_given_twice(&given) {
        first = earlier(place, first);
    }
    Ok(first)
}
