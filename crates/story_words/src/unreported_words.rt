use readings::{Reading, Writes};
use story_blocks::Word::Version;
use story_blocks::{Draft, unreported_kind};
use story_reasons::{Reason, Unhelpful, Unreported};
use version_pair::Pair;

// Returns why the write doesn't help, as a template: 0 is the write, 1 the call that has no place, 2 and 3 the
// versions between which the write could have been performed.
fn unhelpful_template(unreported: &Unreported) -> &'static str {
    match (unreported.why, unreported.write.op.condition()) {
        (Unhelpful::Late, _) => {
            "it was called only after the reply to call {1.no} (line {1.replied})"
        }
        (Unhelpful::Vain, _) => "it can't have been performed where that is needed",
        (Unhelpful::Writes, _) => "it writes, and a delete is needed",
        (Unhelpful::Deletes, _) => "it deletes, and a write of a number is needed",
        (Unhelpful::OtherNumber, _) => "it writes another number than was found",
        (Unhelpful::OtherVersion, Some(_)) => "it asks for another version, {0.condition}",
        (Unhelpful::OtherVersion, None) => "it asks for another version, another place",
        (Unhelpful::NoRoom(Some(_), _), _) =>
            "it could only have been performed between {2} and {3}, and no number is free between them",
        (Unhelpful::NoRoom(None, _), _) => {
            "it could only have been performed before {3}, and no version is before it"
        }
        (Unhelpful::Passed, _) => {
            "it was called only after the document had passed that version"
        }
    }
}

// Returns the versions between which a write could only have been performed.
fn room_of(why: Unhelpful) -> (Option<Pair>, Option<Pair>) {
    match why {
        Unhelpful::NoRoom(below, above) => (below, Some(above)),
        _ => (None, None),
    }
}

// Adds the writes that were checked and don't help, each with the reason.
fn add_unhelpful_writes(draft: &mut Draft<'_>, reason: &Reason) {
    for unreported in reason.unreported.iter() {
        let (below, above) = room_of(unreported.why);
        let words = [
            draft.call(&unreported.write),
            draft.call(&reason.stop),
            Version(below),
            Version(above),
        ];
        let why = unhelpful_template(unreported);
        draft.say(
            &[
                "line {0.called}, call {0.no}: {0.asked} -> {0.heard}: ",
                why,
            ],
            &words,
        );
        draft.end_item();
    }
    draft.end_list(reason.unreported_count, "And {} more.");
}

// Returns what is said of the writes of which no reply says whether they were performed, as a template that their kind
// is given to; `None` if there are none that could have to do with it.
fn template_of(reason: &Reason, writes: Writes) -> Option<&'static str> {
    match (reason.wants_write(), reason.unreported_count, writes) {
        (true, 0, Writes::Once) => Some("The document has no write {} that could have done it."),
        (true, 0, Writes::Repeated) => Some(
            "The document has no write {} that could have done it, and no write that could have done it if it was performed a second time.",
        ),
        (true, _, Writes::Once) => Some("No write {} can have done it:"),
        (true, _, Writes::Repeated) => Some(
            "No write that was performed a second time can have done it, and no write {}:",
        ),
        (false, 0, _) => None,
        (false, _, _) => Some("What became of the writes {} plays no part in this."),
    }
}

/// Adds the writes of which no reply says whether they were performed, and why none of them helps; nothing if there
/// are none that could have to do with it.
pub fn add_unreported(draft: &mut Draft<'_>, reason: &Reason, reading: Reading) {
    let Some(template) = template_of(reason, reading.writes) else {
        return;
    };
    draft.paragraph(template, &[unreported_kind(reading.conflicts_checked())]);
    if reason.wants_write() && reason.unreported_count > 0 {
        add_unhelpful_writes(draft, reason);
    }
}
