//! Pairs and their order.

use version_pair::Pair;

// Returns whether the term comes before the sequence number in each order of pairs.
fn is_ordered() -> Option<bool> {
    let older = Pair::new(1, 7)?;
    let newer = Pair::new(2, 5)?;
    Some(older.is_below(newer) && older < newer && !newer.is_below(older))
}

// Returns the term and the sequence number of a pair.
fn numbers() -> Option<[u64; 2]> {
    let pair = Pair::new(2, 5)?;
    Some([pair.term(), pair.seq()])
}

#[test]
fn term_before_sequence_number(rt: HostRuntime) {
    assert!(rt; is_ordered() == Some(true));
    assert!(rt; numbers() == Some([2, 5]));
}

#[test]
fn ranges(rt: HostRuntime) {
    let greatest = 9_223_372_036_854_775_807;
    for (term, seq, is_pair) in [
        (greatest, greatest, true),
        (1, 0, true),
        (0, 0, false),
        (greatest + 1, 0, false),
        (1, greatest + 1, false),
    ] {
        assert_eq!(rt; Pair::new(term, seq).is_some(), is_pair);
    }
}
