//! Plans: those that are refused, and those that are drawn.

use crate::tests::testing::GET;
use std::alloc::Global;
use workload::{Kind, Plan, PlanFault, Turn};

#[test]
fn plan_refusals(rt: HostRuntime) {
    for (clients, calls, docs, wanted) in [
        (0, 1, 1, Some(PlanFault::Zero)),
        (9, 1, 1, Some(PlanFault::TooMany)),
        (9, 1, 0, Some(PlanFault::Zero)),
        (8, 1, 1_024, None),
        (1, 1, 1_025, Some(PlanFault::TooMany)),
        (1, 524_289, 1, Some(PlanFault::TooMany)),
        (u32::MAX, u32::MAX, u32::MAX, Some(PlanFault::TooMany)),
    ] {
        let drawn = Plan::draw(rt.alloc(), 7, clients, calls, docs);
        assert!(rt; drawn.err() == wanted, "{clients} {calls} {docs}");
    }
}

// Returns the plan of one client with these turns, and another one if there are more.
fn plan_of(alloc: Global, first: &[Turn], second: &[Turn]) -> Option<Result<Plan, PlanFault>> {
    let mut lists = Vec::new(alloc);
    lists.push(Vec::from_slice(alloc, first).ok()?).ok()?;
    lists.push(Vec::from_slice(alloc, second).ok()?).ok()?;
    Some(Plan::of(lists))
}

const PUT: Turn = Turn {
    doc: 1_023,
    kind: Kind::Put,
};

// A document past the last one.
const FAR: Turn = Turn {
    doc: 1_024,
    kind: Kind::Put,
};

// Returns whether a plan has the turns that it was made of.
fn has_turns(alloc: Global) -> Option<bool> {
    let plan = plan_of(alloc, &[GET, PUT], &[PUT])?.ok()?;
    let first = [plan.turn(0, 0), plan.turn(0, 1), plan.turn(0, 2)];
    let others = [plan.turn(1, 0), plan.turn(1, 1), plan.turn(2, 0)];
    let is_first = first == [Some(GET), Some(PUT), None];
    Some(plan.clients() == 2 && is_first && others == [Some(PUT), None, None])
}

// Returns why the plan of these turns is refused.
fn refusal_of(alloc: Global, first: &[Turn], second: &[Turn]) -> Option<PlanFault> {
    plan_of(alloc, first, second)?.err()
}

#[test]
fn plan_of_lists(rt: HostRuntime) {
    assert!(rt; has_turns(rt.alloc()) == Some(true));
    assert!(rt; Plan::of(Vec::new(rt.alloc())).err() == Some(PlanFault::Zero));
    assert!(rt; refusal_of(rt.alloc(), &[FAR], &[]) == Some(PlanFault::Zero));
    assert!(rt; refusal_of(rt.alloc(), &[FAR], &[GET]) == Some(PlanFault::TooMany));
}

// The turns of the first of two clients that the seed 7 draws, with six calls each on 100 documents, computed
// by another program from the definition of the generator.
const DRAWN: [(u32, Kind); 6] = [
    (3, Kind::PutIfSeen),
    (33, Kind::Get),
    (80, Kind::Delete),
    (6, Kind::Put),
    (35, Kind::PutIfSeen),
    (68, Kind::DeleteIfSeen),
];

// Returns the document and the kind of a turn.
fn drawn(plan: &Plan, client: usize, i: usize) -> Option<(u32, Kind)> {
    let turn = plan.turn(client, i)?;
    Some((turn.doc, turn.kind))
}

// Returns whether the seed draws these turns, and this one as the first of the second client.
fn are_drawn(alloc: Global) -> Option<bool> {
    let plan = Plan::draw(alloc, 7, 2, 6, 100).ok()?;
    for (i, turn) in DRAWN.iter().enumerate() {
        if drawn(&plan, 0, i) != Some(*turn) {
            return Some(false);
        }
    }
    Some(drawn(&plan, 1, 0) == Some((34, Kind::DeleteIfSeen)))
}

#[test]
fn drawn_turns(rt: HostRuntime) {
    assert!(rt; are_drawn(rt.alloc()) == Some(true));
}

// Returns the document of a turn.
fn document(plan: &Plan, client: usize, i: usize) -> Option<u32> {
    Some(plan.turn(client, i)?.doc)
}

// Returns the documents of a client's first four turns.
fn documents(plan: &Plan, client: usize) -> [Option<u32>; 4] {
    [
        document(plan, client, 0),
        document(plan, client, 1),
        document(plan, client, 2),
        document(plan, client, 3),
    ]
}

// Returns whether the seed draws two clients with three turns each, if they are asked for, all on document 0.
fn are_on_one_document(alloc: Global) -> Option<bool> {
    let plan = Plan::draw(alloc, 7, 2, 3, 1).ok()?;
    let wanted = [Some(0), Some(0), Some(0), None];
    let are_alike = documents(&plan, 0) == wanted && documents(&plan, 1) == wanted;
    Some(plan.clients() == 2 && are_alike)
}

#[test]
fn turns_on_one_document(rt: HostRuntime) {
    assert!(rt; are_on_one_document(rt.alloc()) == Some(true));
}
