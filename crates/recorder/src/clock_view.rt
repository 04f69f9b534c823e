use std::collections::LinkedList;

/// What a seat of the clock word knows. Only proofs read it; no value of it is made.
pub enum ClockView {
    /// The maker's seat: how many seats were split off, how many were joined, and the numbers that those had
    /// drawn.
    Maker {
        split_off: u64,
        joined: u64,
        gained: LinkedList<u64>,
    },
    /// A pen's seat: the numbers that it drew.
    Drew(LinkedList<u64>),
    /// The seat of a pen that was joined.
    Spent,
}
