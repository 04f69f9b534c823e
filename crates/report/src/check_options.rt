use evidence::RulingOut;
use readings::Reading;

/// How a history is checked.
#[derive(Clone, Copy)]
pub struct CheckOptions {
    /// The number of workers that search for an order, 1 to 16. One worker is the caller's thread.
    pub workers: usize,
    /// What the store promises, and so how its history is read.
    pub reading: Reading,
    /// Whether documents are checked for being provably not linearizable, if no other evidence is found.
    pub ruling_out: RulingOut,
}
