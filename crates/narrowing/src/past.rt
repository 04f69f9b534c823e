use doc_register::{Conflicts, DocState, Op, Reply, exceeds, is_performed, state_after};
use events::Rec;
use std::alloc::Global;
use version_pair::NoMemory;

// The number of calls that a window also has before the first one that it must have: what a reply contradicts
// is mostly near it.
const MARGIN: usize = 64;

// The greatest number of calls that are examined for the first one that was open where a window begins.
const MOST_OPEN: usize = 1024;

/// A summary of what came before a window of a document's calls.
#[derive(Drop)]
pub struct Past {
    /// The number of calls before the window.
    pub calls: usize,
    /// The state of the document as the replies before the window show it.
    pub state: DocState,
    /// Those of the calls that may change the document in the window, in their order: unanswered writes, and
    /// writes that are answered in it.
    pub open: Vec<Rec>,
}

// The state of the document after the call, as its reply shows it; `Never` if it doesn't.
fn state_shown(op: Op, reply: Reply) -> DocState {
    match reply {
        Reply::Found { pair, k } => DocState::Here(pair, k),
        Reply::Indexed { pair, .. } | Reply::Deleted { pair, .. } => {
            state_after(DocState::Never, &op, pair)
        }
        Reply::Missing | Reply::Conflict => DocState::Never,
    }
}

// The same, if the reply is before the index.
fn state_shown_before(found: Rec, place: usize) -> DocState {
    match found.heard {
        Some(heard) if heard.0 < place => state_shown(found.op, heard.1),
        _ => DocState::Never,
    }
}

// Whether the write may be performed on the document in this state, or after later changes of it.
fn may_be_performed(op: Op, state: DocState) -> bool {
    match op {
        Op::Get => false,
        Op::Create { .. } => true,
        Op::Index { .. } | Op::Delete { .. } => {
            is_performed(state, op) || op.condition().is_some_and(|pair| exceeds(pair, state))
        }
    }
}

// Whether the call was answered after the index.
fn is_answered_after(found: Rec, place: usize) -> bool {
    found.heard.is_some_and(|heard| heard.0 > place)
}

// The number of calls before a window that has all calls that were open at the index. (There are none before the
// first call.)
fn calls_before(records: &[Rec], place: usize) -> usize {
    let called = records.partition_point(|found| found.call_at <= place);
    let mut first = called;
    for rec in called.saturating_sub(MOST_OPEN)..called {
        if is_answered_after(records[rec], place) {
            first = rec;
            break;
        }
    }
    first.saturating_sub(MARGIN)
}

// Whether the call may change the document from this index on, if it was left in this state.
fn is_open(found: Rec, place: usize, state: DocState, conflicts: Conflicts) -> bool {
    match found.heard {
        None => may_be_performed(found.op, state),
        Some((_, Reply::Conflict)) => {
            conflicts == Conflicts::Maybe && may_be_performed(found.op, state)
        }
        Some((at, Reply::Indexed { .. } | Reply::Deleted { .. })) => at >= place,
        Some((_, Reply::Found { .. } | Reply::Missing)) => false,
    }
}

impl Past {
    /// Returns the past of a window that nothing came before.
    pub fn new(alloc: Global) -> Past {
        Past {
            calls: 0,
            state: DocState::Never,
            open: Vec::new(alloc),
        }
    }

    // Takes in what the replies before the index show.
    fn note_replies(&mut self, place: usize) {
        for found in &self.open {
            let shown = state_shown_before(*found, place);
            if shown.pair().is_some_and(|pair| exceeds(pair, self.state)) {
                self.state = shown;
            }
        }
    }

    /// Lets the window begin later: shortly before the calls that were open at the index.
    pub fn advance(
        &mut self,
        records: &[Rec],
        place: usize,
        conflicts: Conflicts,
    ) -> Result<(), NoMemory> {
        let calls = calls_before(records, place);
        let Some(first) = records.get(calls) else {
            return Ok(());
        };
        for rec in self.calls..calls {
            self.open.push(records[rec])?;
        }
        self.calls = self.calls.max(calls);
        let begin = first.call_at;
        self.note_replies(begin);
        let state = self.state;
        self.open
            .retain(|found| is_open(*found, begin, state, conflicts));
        Ok(())
    }
}
