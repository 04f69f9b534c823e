use doc_register::{Op, Reply};
use events::Rec;
use story_blocks::Draft;
use story_blocks::Word::Reached;
use story_reasons::ReasonLink;

// Returns what a call that shows no version was answered, on which line, and what follows for the document.
fn unshown_template(record: &Rec) -> &'static str {
    match (record.op, record.op.condition()) {
        (Op::Get, _) =>
            "was answered \"not found\" (line {0.replied}), so the document had been deleted by then: it had {1}, at least. ",
        (_, Some(_)) =>
            "was answered with a conflict on {0.condition} (line {0.replied}), so the document was not at {0.condition} by then: it had {1}, at least. ",
        (_, None) =>
            "was answered with a conflict (line {0.replied}), so the document was there by then: it had {1}, at least. ",
    }
}

// Returns a call of a chain as templates.
fn link_templates(record: &Rec, is_first: bool) -> [&'static str; 2] {
    match record.heard {
        Some((_, Reply::Indexed { .. } | Reply::Deleted { .. })) => [
            "Call {0.no} ({0.asked}) was answered with the version {0.version} (line {0.replied}), so the document had reached it by then. ",
            "",
        ],
        Some((_, Reply::Found { .. })) => [
            "Call {0.no}, a get, was answered with k={0.k} at the version {0.version} (line {0.replied}), so the document had reached it by then. ",
            "",
        ],
        _ if is_first => [
            "Call {0.no} ({0.asked}) was made (line {0.called}) and ",
            unshown_template(record),
        ],
        _ => [
            "Call {0.no} ({0.asked}) was made after that (line {0.called}) and ",
            unshown_template(record),
        ],
    }
}

/// Adds a call of a chain as a sentence.
pub fn add_link(draft: &mut Draft<'_>, link: &ReasonLink, is_first: bool) {
    let templates = link_templates(&link.record, is_first);
    draft.say(&templates, &[draft.call(&link.record), Reached(link.to)]);
}
