//! A disturbed group that threads share, compared with the one that one caller owns.

use crate::tests::testing::{FAULTS, plays_alike};
use disturbances::{Disturbance, DisturbedCore, DisturbedGroup};
use repl_group::Fault;
use std::alloc::Global;
use std::sync::Wait;

// All disturbances.
const DISTURBANCES: [Disturbance; 4] = [
    Disturbance::None,
    Disturbance::Cuts,
    Disturbance::Promotions,
    Disturbance::Storm,
];

// Returns whether a group that is disturbed by twenty incidents answers as its core.
fn is_its_core<R: Wait>(
    rt: &R,
    alloc: Global,
    copies: u32,
    fault: Fault,
    disturbance: Disturbance,
) -> Option<bool> {
    let group = DisturbedGroup::new(alloc, copies, fault, 9, disturbance, 20).ok()?;
    let mut core = DisturbedCore::new(alloc, copies, fault, 9, disturbance, 20).ok()?;
    plays_alike(rt, alloc, &group, &mut core)
}

// Returns whether that holds of groups of one to five copies.
fn are_their_cores<R: Wait>(
    rt: &R,
    alloc: Global,
    fault: Fault,
    disturbance: Disturbance,
) -> Option<bool> {
    for copies in 1..=5 {
        if !is_its_core(rt, alloc, copies, fault, disturbance)? {
            return Some(false);
        }
    }
    Some(true)
}

#[test]
fn disturbed_group_is_its_core_under_a_lock(rt: HostRuntime) {
    for fault in FAULTS {
        for disturbance in DISTURBANCES {
            let are_alike = are_their_cores(&rt, rt.alloc(), fault, disturbance);
            assert!(rt; are_alike == Some(true), "{fault:?}, {disturbance:?}");
        }
    }
}
