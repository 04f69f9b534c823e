ghost use Rattle.std.specs.Prelude.{◌≡◌, ◌↔◌, IsTrue};

use doc_register::{Op, Reply};
use events::Event;
use version_pair::Pair;

// Whether two pairs are the same.
fn is_same_pair(left: Pair, right: Pair) -> bool
    ensures { IsTrue result ↔ (left ≡ right) }
{
    left == right
}

// Whether two conditions are the same.
fn is_same_condition(left: Option<Pair>, right: Option<Pair>) -> bool
    ensures { IsTrue result ↔ (left ≡ right) }
{
    match (left, right) {
        (None, None) => true,
        (Some(pair), Some(other)) => is_same_pair(pair, other),
        _ => false,
    }
}

// Whether two operations are the same.
fn is_same_op(left: Op, right: Op) -> bool
    ensures { IsTrue result ↔ (left ≡ right) }
{
    match (left, right) {
        (Op::Get, Op::Get) => true,
        (Op::Index { k, cond }, Op::Index { k: j, cond: other }) => {
            k == j && is_same_condition(cond, other)
        }
        (Op::Delete { cond }, Op::Delete { cond: other }) => is_same_condition(cond, other),
        (Op::Create { k }, Op::Create { k: j }) => k == j,
        _ => false,
    }
}

// Whether two replies are the same.
fn is_same_reply(left: Reply, right: Reply) -> bool
    ensures { IsTrue result ↔ (left ≡ right) }
{
    match (left, right) {
        (
            Reply::Indexed { pair, created },
            Reply::Indexed {
                pair: other,
                created: other_created,
            },
        ) => created == other_created && is_same_pair(pair, other),
        (
            Reply::Deleted { pair, found },
            Reply::Deleted {
                pair: other,
                found: other_found,
            },
        ) => found == other_found && is_same_pair(pair, other),
        (Reply::Found { pair, k }, Reply::Found { pair: other, k: j }) => {
            k == j && is_same_pair(pair, other)
        }
        (Reply::Missing, Reply::Missing) | (Reply::Conflict, Reply::Conflict) => true,
        _ => false,
    }
}

/// Returns whether two events are the same.
pub fn is_same_event(left: &Event, right: &Event) -> bool
    ensures { IsTrue result ↔ (left.now ≡ right.now) }
{
    match (left, right) {
        (
            Event::Call { no, shard, id, op },
            Event::Call {
                no: other_no,
                shard: other_shard,
                id: other_id,
                op: other_op,
            },
        ) => {
            no == other_no
                && shard == other_shard
                && id.as_str() == other_id.as_str()
                && is_same_op(*op, *other_op)
        }
        (
            Event::Reply { no, reply },
            Event::Reply {
                no: other_no,
                reply: other_reply,
            },
        ) => no == other_no && is_same_reply(*reply, *other_reply),
        (Event::Lost { no }, Event::Lost { no: other_no }) => no == other_no,
        _ => false,
    }
}
