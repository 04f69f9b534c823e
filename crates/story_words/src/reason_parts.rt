use crate::link_words::add_link;
use crate::stop_words::add_stop;
use crate::unreported_words::add_unreported;
use evidence::Stage;
use readings::Reading;
use story_blocks::Draft;
use story_blocks::Word::{Count, Number, Reached, Version};
use story_reasons::{Beginning, PossibleState, Reason};
use version_pair::Pair;

// Adds the chain and the call to which it leads, in sentences.
fn add_chain(draft: &mut Draft<'_>, reason: &Reason) {
    if let (true, Some(first)) = (reason.is_cut, reason.links.first()) {
        draft.say(
            &["By replies to earlier calls the document had {}. "],
            &[Reached(first.from)],
        );
    }
    let mut is_first = !reason.is_cut;
    for link in reason.links.iter() {
        add_link(draft, link, is_first);
        is_first = false;
    }
    add_stop(draft, reason);
    draft.end_paragraph();
}

// Returns the words for a state of a document: 0 is its version, or the one after which it was changed.
fn state_template(state: &PossibleState) -> &'static str {
    match (state.stage, state.exists) {
        (Stage::Never, _) => "never written",
        (Stage::At(_), true) => "at {0}",
        (Stage::At(_), false) => "deleted with {0}",
        (Stage::Behind(Some(_)), true) => "written after {0} by a write of unknown outcome",
        (Stage::Behind(Some(_)), false) => "deleted after {0} by a write of unknown outcome",
        (Stage::Behind(None), true) =>
            "written by a write of unknown outcome, before each version that a reply shows",
        (Stage::Behind(None), false) =>
            "deleted by a write of unknown outcome, before each version that a reply shows",
    }
}

// Returns the version that these words name, if they name one.
fn version_in(state: &PossibleState) -> Option<Pair> {
    match state.stage {
        Stage::At(pair) | Stage::Behind(Some(pair)) => Some(pair),
        Stage::Never | Stage::Behind(None) => None,
    }
}

// Says from which reply on the calls are enough, and what the document can have been then.
fn add_beginning(draft: &mut Draft<'_>, beginning: &Beginning) {
    draft.say(
        &[
            "What follows line {0.replied} (the reply to call {0.no}) is enough for this. By then the document was ",
        ],
        &[draft.call(&beginning.reply)],
    );
    let mut before = "";
    for state in beginning.states.iter() {
        let words = [Version(version_in(state))];
        draft.say(&[before, state_template(state)], &words);
        before = ", or ";
    }
    let others = beginning.state_count.saturating_sub(beginning.states.len());
    if others > 0 {
        draft.say(&[", or in one of {0} further states"], &[Count(others)]);
    }
    draft.say(&["."], &[]);
    draft.end_paragraph();
}

/// Adds from where on the calls are enough, and the chain of reasons why no order explains a document.
pub fn add_reason(draft: &mut Draft<'_>, reason: &Reason, reading: Reading) {
    if let Some(beginning) = &reason.beginning {
        add_beginning(draft, beginning);
    }
    add_chain(draft, reason);
    add_unreported(draft, reason, reading);
    draft.paragraph(
        "So no order has a place for call {} and its reply. This is proved: it holds whatever became of the calls without a reply.",
        &[Number(reason.stop.no)],
    );
}
