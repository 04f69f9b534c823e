ghost use Rattle.std.specs.Prelude.{◌≡◌, ◌<◌, ◌≤◌, ℕ, IfSome, length};
ghost use Rattle.version_pair.specs.declared.pair.Pair.{Pair as AnyPair};
ghost use Rattle.events.specs.TakenPairs.{AreApart, IsTakenAgain, end_of};

use version_pair::Pair;

/// An entry of a list of pairs that are taken.
pub trait TakesPair {
    /// The pair that it takes, behind its shard.
    ghost takes: { Self → ℕ × AnyPair };

    /// Returns the pair that it takes, behind its shard.
    fn taken(&self) -> (u32, Pair)
        ensures { result ≡ takes self.now };
}

/// A pair of a shard, with the call or the reply that takes it.
#[derive(Clone, Copy, PartialEq, Eq, PartialOrd, Ord)]
pub struct TakenPair<By> {
    /// From 0 to 1,023.
    pub shard: u32,
    /// The pair that is taken.
    pub pair: Pair,
    /// The number of the call, or the index of the reply.
    pub by: By,
}

impl<By> TakesPair for TakenPair<By> {
    ghost takes = { λ t. (t.shard, t.pair) };

    fn taken(&self) -> (u32, Pair) {
        (self.shard, self.pair)
    }
}

impl TakesPair for (u32, Pair) {
    ghost takes = { λ t. t };

    fn taken(&self) -> (u32, Pair) {
        *self
    }
}

/// Returns the index of the first entry, from an index on, that takes the pair of the entry before it; `None` if
/// there is none. So the pairs of a sorted list that are taken twice are found one after the other.
pub fn next_taken_again<T: TakesPair>(taken: &[T], from: usize) -> Option<usize>
    // The first entry has none before it.
    requires { 1 ≤ from }
    // The entry takes the pair of the one before it.
    ensures again { IfSome result (λ k. (from ≤ k) × (k < length taken.now) × IsTakenAgain T.takes taken.now k) }
    // No entry between does.
    ensures first { AreApart T.takes taken.now from (end_of taken.now result) }
{
    for k in from..taken.len() {
        if taken[k - 1].taken() == taken[k].taken() {
            return Some(k);
        }
    }
    None
}
