//! Scripts of tests: what is done to a core, and what it answers.

use doc_register::{Op, Reply};
use repl_group::{Answer, Core, Fault, Step};
use std::alloc::Global;
use version_pair::{DocId, NoMemory, Pair};

/// What is done to a core: an operation on a document is submitted, or a step is taken. `Swap` is an
/// index under the condition (1,0).
#[derive(Clone, Copy)]
pub enum Act {
    Get,
    Index(u64),
    Swap(u64),
    Delete,
    Create(u64),
    Serve(u64),
    Copy(u64, u32),
    Ack(u64),
    Cut(u32),
    Heal(u32),
    Drop(u32),
    Promote(u32),
}

/// What is done, with its answers.
pub type Script = &'static [(Act, Answer)];

// Returns the operation that is submitted, if one is.
fn op_of(act: Act) -> Option<Op> {
    match act {
        Act::Get => Some(Op::Get),
        Act::Index(k) => Some(Op::Index { k, cond: None }),
        Act::Swap(k) => Some(Op::Index {
            k,
            cond: Pair::new(1, 0),
        }),
        Act::Delete => Some(Op::Delete { cond: None }),
        Act::Create(k) => Some(Op::Create { k }),
        _ => None,
    }
}

// Returns the step of a ticket or a copy, if it is one.
fn step_of(act: Act) -> Option<Step> {
    match act {
        Act::Serve(ticket) => Some(Step::Serve(ticket)),
        Act::Copy(ticket, copy) => Some(Step::Copy(ticket, copy)),
        Act::Ack(ticket) => Some(Step::Ack(ticket)),
        Act::Cut(copy) => Some(Step::Cut(copy)),
        Act::Heal(copy) => Some(Step::Heal(copy)),
        Act::Drop(copy) => Some(Step::Drop(copy)),
        Act::Promote(copy) => Some(Step::Promote(copy)),
        _ => None,
    }
}

// Returns the answer of a core.
fn answer(core: &mut Core, id: &DocId, act: Act) -> Result<Answer, NoMemory> {
    if let Some(op) = op_of(act) {
        return core.step(Step::Submit(id.copy()?, op));
    }
    match step_of(act) {
        Some(step) => core.step(step),
        None => Ok(Answer::NotNow),
    }
}

/// Returns whether a core answers as a script says, whose document has this id.
pub fn is_played(core: &mut Core, id: &DocId, script: Script) -> Result<bool, NoMemory> {
    for (act, wanted) in script {
        if answer(core, id, *act)? != *wanted {
            return Ok(false);
        }
    }
    Ok(true)
}

/// Returns the replies to the first four tickets, if a core answers as a script says.
pub fn replies(
    core: &mut Core,
    id: &DocId,
    script: Script,
) -> Result<Option<[Option<Reply>; 4]>, NoMemory> {
    if !is_played(core, id, script)? {
        return Ok(None);
    }
    Ok(Some([
        core.result(0),
        core.result(1),
        core.result(2),
        core.result(3),
    ]))
}

/// Returns whether these are the replies of a new core after a script.
pub fn has_replies(
    alloc: Global,
    copies: u32,
    fault: Fault,
    script: Script,
    wanted: [Option<Reply>; 4],
) -> bool {
    let Ok(id) = DocId::new(alloc, "d") else {
        return false;
    };
    let Ok(mut core) = Core::new(alloc, copies, fault) else {
        return false;
    };
    replies(&mut core, &id, script) == Ok(Some(wanted))
}
