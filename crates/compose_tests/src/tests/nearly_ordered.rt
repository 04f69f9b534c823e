//! The sort of lists whose items are near their positions, and of one whose items aren't.

use std::alloc::Global;
use write_chain::sort_nearly_ordered;

// Lists, and their items in order.
const CASES: [(&[u64], &[u64]); 7] = [
    (&[], &[]),
    (&[7], &[7]),
    (&[1, 2, 3], &[1, 2, 3]),
    (&[2, 1, 4, 3, 6, 5], &[1, 2, 3, 4, 5, 6]),
    (&[4, 1, 2, 3, 8, 5, 6, 7], &[1, 2, 3, 4, 5, 6, 7, 8]),
    (&[3, 3, 1, 2, 2], &[1, 2, 2, 3, 3]),
    (
        &[9, 8, 7, 6, 5, 4, 3, 2, 1, 0],
        &[0, 1, 2, 3, 4, 5, 6, 7, 8, 9],
    ),
];

// Returns whether the items are sorted so.
fn is_sorted(alloc: Global, given: &[u64], wanted: &[u64]) -> Option<bool> {
    let mut list = Vec::from_slice(alloc, given).ok()?;
    sort_nearly_ordered(&mut list);
    Some(list.as_slice() == wanted)
}

#[test]
fn sorted(rt: HostRuntime) {
    for (given, wanted) in CASES {
        assert!(rt; is_sorted(rt.alloc(), given, wanted) == Some(true));
    }
}

// Returns the numbers below 100, the greatest first.
fn falling(alloc: Global) -> Option<Vec<u64>> {
    let mut list = Vec::new(alloc);
    for k in 0..100 {
        list.push(99 - k).ok()?;
    }
    Some(list)
}

// Returns whether they are sorted.
fn are_sorted(alloc: Global) -> Option<bool> {
    let mut list = falling(alloc)?;
    sort_nearly_ordered(&mut list);
    let mut wanted = falling(alloc)?;
    wanted.reverse();
    Some(list == wanted)
}

#[test]
fn far_from_their_places(rt: HostRuntime) {
    assert!(rt; are_sorted(rt.alloc()) == Some(true));
}
