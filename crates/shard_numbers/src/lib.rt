//! The pairs of a shard, which its documents share: those that calls take, those that are in use, and numbers
//! for the pairs that orders invent.
//!
//! ```text
//! if let Some((shard, pair)) = pair_twice(alloc, &history, &witnesses)? {
//!     // Two calls of the shard take the pair. The gaps of invented pairs get other numbers.
//!     let gaps = Gaps::of(alloc, &history, &witnesses)?;
//!     let used = UsedPairs::taken(alloc, &history, &witnesses, &gaps.kept)?;
//!     let numbers = numbers_of(alloc, history.keys(), &witnesses, &gaps, &used)?; // GapNumbers
//! }
//! ```
#![tactic(auto)]

mod renumbered;
mod shortage;
mod taken;
mod used_pairs;

pub use renumbered::gaps::{Gap, Gaps};
pub use renumbered::{Change, GapNumbers, numbers_of};
pub use shortage::Shortage;
pub use taken::{pair_twice, shard_of};
pub use used_pairs::{ShownCalls, UsedPairs};
