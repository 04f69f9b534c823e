//! A guess at the reply at which the search for an order first fails. It comes with no guarantee: two
//! searches confirm it, or all replies are searched by bisection.
//!
//! ```text
//! let place = guess(alloc, &history, Conflicts::Plain, &docs)?; // Option<usize>
//! ```
#![tactic(auto)]

mod past;
mod suspicion;
mod unordered;
mod window;

pub use unordered::guess;
