use evidence::Refuted;
use story_blocks::Draft;
use story_blocks::Word::{Number, Text};
use story_reasons::{EvidenceCalls, Unexplained, call_of};

// Says that the reasons are those of a prefix of the history, if they are.
fn add_shortness(draft: &mut Draft<'_>, unexplained: &Unexplained<'_>) {
    if unexplained.history.len() < unexplained.whole.len() {
        draft.paragraph(
            "The reasons above need no line after the reply to call {}: in them a call that is answered only later counts as one without a reply.",
            &[Number(unexplained.call)],
        );
    }
}

/// Adds which calls the first line names, if the reasons are those of a prefix instead; or that these are the same. Adds
/// nothing if the evidence of the headline is among the reasons and the first line names no other.
pub fn add_reported_calls(
    draft: &mut Draft<'_>,
    unexplained: &Unexplained<'_>,
    headline: Option<Refuted>,
) {
    if headline.is_some() && (unexplained.reported.is_none() || unexplained.reported == headline) {
        return;
    }
    let Some(evidence) = unexplained.reported else {
        return add_shortness(draft, unexplained);
    };
    let calls = EvidenceCalls::of(evidence);
    let Some(first) = call_of(unexplained.whole, calls.first) else {
        return;
    };
    let second = match calls.second {
        Some(no) => call_of(unexplained.whole, no),
        None => None,
    };
    let (and_second, second) = match &second {
        Some(second) => (
            " and call {1.no} (line {1.replied})",
            draft.call(&second.record),
        ),
        None => ("", Text("")),
    };
    draft.say(
        &[
            "The first line names call {0.no} (line {0.replied})",
            and_second,
            ". That is evidence too, but it is complete only with a line after the reply to call {2}. The reasons above need no later line: in them a call that is answered only later counts as one without a reply.",
        ],
        &[draft.call(&first.record), second, Number(unexplained.call)],
    );
    draft.end_paragraph();
}
