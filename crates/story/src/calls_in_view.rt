use events::Rec;
use story_blocks::{Draft, View};
use story_reasons::Call;
use version_pair::{DocId, NoMemory};

// The greatest number of calls that a timeline shows.
const MOST_CALLS: usize = 400;

// Whether the timeline is to show the call.
fn is_in_view(draft: &Draft<'_>, view: &View<'_>, record: &Rec) -> bool {
    let start = draft.lines.number(record.call_at);
    let end = draft.lines.number(draft.lines.end_of(record));
    start <= view.last && view.first <= end
}

/// Returns the calls of the document that the timeline shows, at most 400: the last ones up to the broken reply, if
/// there is one; else the first ones.
pub fn calls_in_view<'h>(
    draft: &Draft<'_>,
    view: &View<'_>,
    id: &'h DocId,
    records: &[Rec],
    event: Option<usize>,
) -> Result<Vec<Call<'h>>, NoMemory> {
    let mut calls = Vec::new(draft.alloc);
    for record in records {
        if is_in_view(draft, view, record) {
            // The calls are of one document, so its shard isn't shown.
            let shard = 0;
            let record = *record;
            calls.push(Call { id, shard, record })?;
        }
    }
    let before = match event {
        Some(event) => calls.partition_point(|call| call.record.call_at <= event),
        None => 0,
    };
    let left_out = before.saturating_sub(MOST_CALLS);
    let mut chosen = Vec::new(draft.alloc);
    for call in calls.iter().skip(left_out).take(MOST_CALLS) {
        chosen.push(*call)?;
    }
    Ok(chosen)
}
