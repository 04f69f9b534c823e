use crate::cause_words::{cause_templates, contrary_of, version_of};
use doc_register::Reply;
use events::Rec;
use story_blocks::Draft;
use story_blocks::Word::{Reached, Text, Version};
use story_reasons::Reason;

// Returns what was answered, behind `was answered`.
fn answer_template(record: &Rec) -> &'static str {
    match (record.heard, record.op.condition()) {
        (Some((_, Reply::Found { .. })), _) => "with {0.heard} (line {0.replied}). ",
        (Some((_, Reply::Conflict)), Some(_)) => {
            "with a conflict on {0.condition} (line {0.replied}). "
        }
        (Some((_, Reply::Conflict)), None) => "with a conflict (line {0.replied}). ",
        _ => "\"{0.heard}\" (line {0.replied}). ",
    }
}

/// Adds the call that has no place in any order, and why, in sentences: that it was made, after the calls that
/// bound it if there are some, how it was answered, and why that can't be.
pub fn add_stop(draft: &mut Draft<'_>, reason: &Reason) {
    let made = if reason.links.is_empty() {
        "Call {0.no} ({0.asked}, called in line {0.called}) was answered "
    } else {
        "Call {0.no} ({0.asked}) was made after that (line {0.called}), so it comes after it. It was answered "
    };
    let [first, second, third] = cause_templates(reason);
    let contrary = contrary_of(reason.cause);
    let shower = match &reason.shower {
        Some(record) => draft.call(record),
        None => Text(""),
    };
    let words = [
        draft.call(&reason.stop),
        Version(version_of(reason)),
        Reached(reason.stage),
        shower,
        Version(reason.last),
        Text(contrary.reported),
        Text(contrary.known),
        Text(contrary.needed),
    ];
    draft.say(
        &[made, answer_template(&reason.stop), first, second, third],
        &words,
    );
}
