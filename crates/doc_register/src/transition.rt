ghost use Rattle.doc_register.specs.declared.op.Op.TheVariants.{Get};
ghost use Rattle.std.specs.Prelude.{◌≡◌, ◌↔◌, IsTrue, IfSome, IfNone};
ghost use Rattle.doc_register.specs.declared.state.DocState.{DocState as State};
ghost use Rattle.doc_register.specs.Register.{DocStep, Exceeds, HasPair, IsMet, IsPerformed, Performs, WriteStep, is_here, performed_reply as answer, performed_state, shown};

use crate::{DocState, Op, Reply};
use version_pair::Pair;

// Whether this is the reply of a get of the document.
fn shows(state: DocState, reply: Reply) -> bool
    ensures { IsTrue result ↔ (reply ≡ shown state) }
{
    match (state, reply) {
        (DocState::Never | DocState::Gone(_), Reply::Missing) => true,
        (DocState::Here(last, number), Reply::Found { pair, k }) => pair == last && k == number,
        _ => false,
    }
}

// Whether the document exists.
fn is_live(state: DocState) -> bool
    ensures { result ≡ is_here state }
{
    matches!(state, DocState::Here(..))
}

/// Returns whether the pair is greater than that of the document's last change, or the document was never
/// written.
pub fn exceeds(pair: Pair, state: DocState) -> bool
    ensures { IsTrue result ↔ Exceeds pair state }
{
    match state {
        DocState::Never => true,
        DocState::Gone(last) | DocState::Here(last, _) => last.is_below(pair),
    }
}

// Whether a condition, if there is one, is met.
fn is_met(state: DocState, cond: Option<Pair>) -> bool
    ensures { IsTrue result ↔ IsMet state cond }
{
    match (state, cond) {
        (_, None) => true,
        (DocState::Here(last, _), Some(pair)) => last == pair,
        (_, Some(_)) => false,
    }
}

/// Returns whether the operation is a write that is performed in this state.
pub fn is_performed(state: DocState, op: Op) -> bool
    ensures { IsTrue result ↔ IsPerformed state op }
{
    match op {
        Op::Get => false,
        Op::Index { cond, .. } | Op::Delete { cond } => is_met(state, cond),
        Op::Create { .. } => !is_live(state),
    }
}

/// Returns the reply to a performed write that takes the pair. Its `created` or `found` says whether the
/// document existed. A get is not a write; for it the result is `Missing`.
pub fn performed_reply(state: DocState, op: Op, pair: Pair) -> Reply
    ensures { result ≡ answer state op pair }
{
    match op {
        Op::Get => Reply::Missing,
        Op::Index { .. } | Op::Create { .. } => Reply::Indexed {
            pair,
            created: !is_live(state),
        },
        Op::Delete { .. } => Reply::Deleted {
            pair,
            found: is_live(state),
        },
    }
}

// The document after the write is performed with the pair; `None` if it is not performed.
fn perform(state: DocState, op: Op, pair: Pair) -> Option<DocState>
    ensures some { IfSome result (λ after. Performs state op pair after) }
    ensures none { IfNone result ((after : State) → ¬ Performs state op pair after) }
{
    if !is_performed(state, op) || !exceeds(pair, state) {
        return None;
    }
    match op {
        Op::Get => None,
        Op::Index { k, .. } | Op::Create { k } => Some(DocState::Here(pair, k)),
        Op::Delete { .. } => Some(DocState::Gone(pair)),
    }
}

// The document after a get with this reply, which leaves it as it was; `None` if there is no such step.
fn get(state: DocState, reply: Reply, hidden: Option<Pair>) -> Option<DocState>
    ensures some { IfSome result (λ after. DocStep state Get reply hidden after) }
    ensures none { IfNone result ((after : State) → ¬ DocStep state Get reply hidden after) }
{
    if hidden.is_none() && shows(state, reply) {
        Some(state)
    } else {
        None
    }
}

// The document after a write with this reply; `None` if there is no such step.
fn write(state: DocState, op: Op, reply: Reply, hidden: Option<Pair>) -> Option<DocState>
    ensures some { IfSome result (λ after. WriteStep state op reply hidden after) }
    ensures none { IfNone result ((after : State) → ¬ WriteStep state op reply hidden after) }
{
    match (reply, hidden) {
        (Reply::Indexed { pair, .. } | Reply::Deleted { pair, .. }, None) => {
            if reply == performed_reply(state, op, pair) {
                perform(state, op, pair)
            } else {
                None
            }
        }
        (Reply::Conflict, Some(pair)) => perform(state, op, pair),
        (Reply::Conflict, None) => {
            if is_performed(state, op) {
                None
            } else {
                Some(state)
            }
        }
        _ => None,
    }
}

/// Returns the document after one step, or `None` if the operation cannot have this reply in this state.
///
/// A get shows the document and leaves it as it was. A write without a condition is performed. A write with a
/// condition is performed if the document exists with exactly that pair, and a create if the document does
/// not exist. The reply to a performed write has a pair greater than the document's, and says whether the
/// document existed. Any other write is answered with a conflict, and leaves the document as it was. `hidden`
/// is the pair of a write that was performed although its reply is a conflict, and `None` for every other
/// reply.
pub fn step(state: DocState, op: &Op, reply: &Reply, hidden: Option<Pair>) -> Option<DocState>
    ensures some { IfSome result (λ after. DocStep state op.now reply.now hidden after) }
    // There is no result only if the definition allows no state after the step.
    ensures none { IfNone result ((after : State) → ¬ DocStep state op.now reply.now hidden after) }
{
    match *op {
        Op::Get => get(state, *reply, hidden),
        _ => write(state, *op, *reply, hidden),
    }
}
