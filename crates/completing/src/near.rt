ghost use Rattle.std.specs.Prelude.{◌≤◌, length};

use version_pair::Pair;

/// A value that has a pair.
pub trait HasPair {
    /// Returns the pair.
    fn pair(&self) -> Pair;
}

impl<T> HasPair for (Pair, T) {
    fn pair(&self) -> Pair {
        self.0
    }
}

// The number of entries on either side that are examined before the whole list is searched.
const NEAR: usize = 16;

// The index of the first entry from an index on that is not below the pair, if it is one of the next few.
fn place_above<T: HasPair>(entries: &[T], pair: Pair, from: usize) -> Option<usize>
    requires { from ≤ length entries.now }
{
    for at in from..from + NEAR.min(entries.len() - from) {
        if entries[at].pair() >= pair {
            return Some(at);
        }
    }
    None
}

// The number of these entries that are below the pair, if it isn't below more than the last few.
fn place_below<T: HasPair>(before: &[T], pair: Pair) -> Option<usize> {
    let mut lesser = before;
    for _ in 0..NEAR {
        match lesser.split_last() {
            Some((last, rest)) if last.pair() >= pair => lesser = rest,
            _ => return Some(lesser.len()),
        }
    }
    None
}

// The index of the first entry that is not below the pair. It is searched for near another index first.
fn place_near<T: HasPair>(entries: &[T], pair: Pair, near: usize) -> usize {
    let from = near.min(entries.len());
    let (before, after) = entries.split_at(from);
    let place = match after.first() {
        Some(entry) if entry.pair() < pair => place_above(entries, pair, from),
        _ => place_below(before, pair),
    };
    match place {
        Some(at) => at,
        None => entries.partition_point(|entry| entry.pair() < pair),
    }
}

// The entry at the index, if it has the pair.
fn entry_at<T: HasPair + Copy>(entries: &[T], pair: Pair, place: usize) -> Option<T> {
    match entries.get(place) {
        Some(entry) if entry.pair() == pair => Some(*entry),
        _ => None,
    }
}

/// Returns the entry with the pair, in a list by rising pair, if there is one.
pub fn find<T: HasPair + Copy>(entries: &[T], pair: Pair) -> Option<T> {
    let place = entries.partition_point(|entry| entry.pair() < pair);
    entry_at(entries, pair, place)
}

/// Returns the same entry. It is searched for near another index first, since pairs that are asked for one
/// after the other are mostly near one another; that index becomes the one of the entry, or of the first entry
/// with a greater pair.
pub fn find_near<T: HasPair + Copy>(entries: &[T], pair: Pair, near: &mut usize) -> Option<T> {
    *near = place_near(entries, pair, *near);
    entry_at(entries, pair, *near)
}
