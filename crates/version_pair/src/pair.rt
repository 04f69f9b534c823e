ghost use Rattle.std.specs.Prelude.{◌≡◌, ◌<◌, ◌≤◌, ◌^◌, ◌↔◌, IsTrue, IsSome, IfSome};

/// The greatest primary term and the greatest sequence number: both are counted in a signed 64-bit number.
pub const GREATEST: u64 = 0x7fff_ffff_ffff_ffff;

/// The primary term and the sequence number of one change of a document.
///
/// Terms are 1 to 2^63-1 and sequence numbers 0 to 2^63-1. Pairs are ordered by term, then by sequence
/// number.
#[derive(Clone, Copy, Debug, PartialEq, Eq, PartialOrd, Ord, Hash)]
pub struct Pair {
    term: u64,
    seq: u64,
    pub ghost term_from_one: { 1 ≤ term },
    pub ghost term_fits: { term < 2 ^ 63 },
    pub ghost seq_fits: { seq < 2 ^ 63 },
}

impl Pair {
    ghost use Rattle.version_pair.specs.PairOrder.{IsBelow};

    /// Returns the pair of a term and a sequence number, or `None` if one of them is out of range.
    pub fn new(term: u64, seq: u64) -> Option<Pair>
        ensures some { IsSome result ↔ ((1 ≤ term) × (term < 2 ^ 63) × (seq < 2 ^ 63)) }
        ensures value { IfSome result (λ p. (p.term ≡ term) × (p.seq ≡ seq)) }
    {
        if term >= 1 && term <= GREATEST && seq <= GREATEST {
            Some(Pair { term, seq })
        } else {
            None
        }
    }

    /// Returns the primary term, 1 to 2^63-1.
    pub fn term(self) -> u64
        ensures { result ≡ self.term }
    {
        self.term
    }

    /// Returns the sequence number, 0 to 2^63-1.
    pub fn seq(self) -> u64
        ensures { result ≡ self.seq }
    {
        self.seq
    }

    /// Returns whether this pair is below the other: its term is smaller, or the terms are equal and its
    /// sequence number is smaller.
    pub fn is_below(self, other: Pair) -> bool
        ensures { IsTrue result ↔ IsBelow self other }
    {
        self < other
    }
}
