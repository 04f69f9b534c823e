use events::Rec;
use story_blocks::Word::Count;
use story_blocks::{Draft, EventLines, LostEnding};
use story_reasons::{Subject, Unexplained};

// The greatest number of writes that are named.
const MOST_NAMED: usize = 5;

// Whether the call was made up to the event, and neither a reply nor the recorder says whether it was performed.
fn is_unreported(lines: &EventLines, unexplained: &Unexplained<'_>, record: &Rec) -> bool {
    let is_void = match lines.lost(record) {
        Some(lost) => lost.ending == LostEnding::Void,
        None => false,
    };
    record.call_at <= unexplained.event && !record.is_complete(unexplained.conflicts) && !is_void
}

// Adds the writes of which no reply says whether they were performed, the last ones first: the first few, and how many
// more there are. Returns whether there are some.
fn add_unreported(draft: &mut Draft<'_>, unexplained: &Unexplained<'_>, records: &[Rec]) -> bool {
    let mut count = 0usize;
    for record in records.iter().rev() {
        if is_unreported(draft.lines, unexplained, record) {
            if count < MOST_NAMED {
                let before = if count == 0 {
                    "Of this document these writes before that reply have no reply that says so: "
                } else {
                    ", "
                };
                draft.say(
                    &[
                        before,
                        "call {0.no} (line {0.called}: {0.asked}, {0.heard})",
                    ],
                    &[draft.call(record)],
                );
            }
            count = count.saturating_add(1);
        }
    }
    if count > MOST_NAMED {
        draft.say(&[" and {} more"], &[Count(count - MOST_NAMED)]);
    }
    count > 0
}

/// Adds what would decide an answer that is undecided.
pub fn add_decision(draft: &mut Draft<'_>, unexplained: &Unexplained<'_>, subject: &Subject<'_>) {
    draft.say(
        &[
            "What would decide it: what became of those writes, as the cluster's own log or a later read of the document may show; or an order of your own, which `casbench verify` judges. ",
        ],
        &[],
    );
    let has_writes = add_unreported(draft, unexplained, &subject.records);
    let end = if has_writes {
        "."
    } else {
        "Of this document every write before that reply has one; those that have none are of other documents, which may have taken versions that this one needs."
    };
    draft.say(&[end], &[]);
    draft.end_paragraph();
}
