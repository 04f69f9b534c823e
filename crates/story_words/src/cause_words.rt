use doc_register::Op;
use evidence::Stage;
use story_reasons::{Cause, Reason, Unmet};
use version_pair::Pair;

// The words of these templates are those of `add_stop`: 0 is the call that has no place, 1 the version that the cause
// is about, 2 how far the document had come, 3 the call that shows a version, 4 the last version before that of the
// cause, 5 what the reply says of the document, 6 what is known of it, and 7 what something must have done to it.

/// What is said of the document before a call whose reply says otherwise.
#[derive(Clone, Copy)]
pub struct Contrary {
    /// What the reply says of it.
    pub reported: &'static str,
    /// What is known of it.
    pub known: &'static str,
    /// What something must have done to it.
    pub needed: &'static str,
}

/// Returns what is said of the document if the reply says otherwise.
pub fn contrary_of(cause: Cause) -> Contrary {
    match cause {
        Cause::There | Cause::WasThere(_) => Contrary {
            reported: "not there",
            known: "the document was there",
            needed: "deleted",
        },
        _ => Contrary {
            reported: "there",
            known: "the document was not there",
            needed: "written",
        },
    }
}

/// Returns the version that the cause is about, or else the one that the document had reached, if there is one.
pub fn version_of(reason: &Reason) -> Option<Pair> {
    match (reason.cause, reason.stage) {
        (
            Cause::StillThere(pair)
            | Cause::WasThere(pair)
            | Cause::WasAbsent(pair)
            | Cause::Unmet(Unmet::Replaced(pair))
            | Cause::Unwritten(pair),
            _,
        )
        | (_, Stage::At(pair)) => Some(pair),
        _ => None,
    }
}

// Says why it can't be that something changed the document.
fn unchanged(stage: Stage) -> &'static str {
    match stage {
        Stage::Never => "But no write can have done so by then.",
        Stage::At(_) => "But with {1} {6}, and no reply shows that this changed later.",
        Stage::Behind(_) =>
            "But it had {2}, after which {6}, and no reply shows that this changed later.",
    }
}

// Says that the reply shows a version that the document had passed.
fn passed(op: Op) -> &'static str {
    match op {
        Op::Get =>
            "But the document had {2} before the call was made, and a document never goes back to an older version.",
        _ =>
            "But the document had {2} before the call was made, and each write of a document gets a version newer than those before.",
    }
}

// Says what is known of the document before a write, by the last version that a reply shows.
fn known_before(reason: &Reason) -> &'static str {
    if !reason.links.is_empty() {
        return "the document had {2} before the call was made, after which {6}";
    }
    match reason.last {
        Some(_) =>
            "the last version before {1} that a reply shows is {4}{3.shown}, and with it {6}",
        None => "no reply shows a version before {1}, so {6}",
    }
}

// Says why the condition of a write that was performed can't have been met.
fn unmet(unmet: Unmet) -> &'static str {
    match unmet {
        Unmet::Created =>
            "It was to be performed only if the document is there at {0.condition}, and its reply says that the document was not there. It can't be both.",
        Unmet::NotBelow =>
            "It was to be performed only if the document is at {0.condition}, and a write that replaces {0.condition} gets a newer version. This one did not.",
        Unmet::Replaced(_) =>
            "It was to be performed only if the document is still at {0.condition}. But the version {1}{3.shown} lies between {0.condition} and its own, so the document was past {0.condition} by then.",
        Unmet::Deleted =>
            "It was to be performed only if the document is there at {0.condition}. But with {0.condition} the document was deleted{3.shown}, and no condition is met by a document that is not there.",
        Unmet::Changed =>
            "It was to be performed only if the document is still at {0.condition}. But the document had {2} before the call was made.",
    }
}

// Says that nobody can have written a version, and which call shows it if it is another one.
fn unwritten(reason: &Reason) -> &'static str {
    match reason.shower {
        Some(shower) if shower.no == reason.stop.no =>
            "So the document must have had the version {1} by then. But no reply shows which write made {1}.",
        _ =>
            "So the document must have had the version {1}{3.shown} by then. But no reply shows which write made {1}.",
    }
}

/// Returns what follows from the reply to the call that has no place in any order, and why it can't be, as
/// templates.
pub fn cause_templates(reason: &Reason) -> [&'static str; 3] {
    let otherwise = "So something must have {7} the document before line {0.replied}. ";
    let reported = "This says that the document was {5} just before {1}. But ";
    match reason.cause {
        Cause::NotThere | Cause::There => [otherwise, unchanged(reason.stage), ""],
        Cause::WasThere(_) | Cause::WasAbsent(_) => [
            reported,
            known_before(reason),
            ". So something else must have {7} it just before.",
        ],
        Cause::Passed(_) => [passed(reason.stop.op), "", ""],
        Cause::Unmet(it) => [unmet(it), "", ""],
        Cause::Unwritten(_) => [unwritten(reason), "", ""],
        Cause::NeverRefused => [
            "But it has no condition, and a write without a condition is never refused, whatever the state of the document.",
            "",
            "",
        ],
        Cause::StillThere(_) => [
            "So something must have replaced {1} before line {0.replied}. But no write can have done so by then.",
            "",
            "",
        ],
    }
}
