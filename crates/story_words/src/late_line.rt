use doc_register::Reply;
use events::Rec;
use story_blocks::Draft;

// Returns the write that was recorded only after the reply to a get that shows what it writes.
fn late_write(get: &Rec, records: &[Rec]) -> Option<Rec> {
    let (place, Reply::Found { pair, k }) = get.heard? else {
        return None;
    };
    for write in records {
        let is_late = write.call_at > place && write.op.value() == Some(k);
        if is_late && (write.heard.is_none() || write.pair_taken() == Some(pair)) {
            return Some(*write);
        }
    }
    None
}

/// Asks whether the line of a write was written late. Adds nothing, and returns so, if the get shows nothing that
/// a later line writes.
pub fn add_late_line(draft: &mut Draft<'_>, get: &Rec, records: &[Rec]) -> bool {
    let Some(write) = late_write(get, records) else {
        return false;
    };
    draft.paragraph(
        "Was a line written late? The reply to call {0.no} on line {0.replied} shows what call {1.no} ({1.asked}) writes, and the line of call {1.no} comes only after it, on line {1.called}. A recorder has to write each call down before it sends it; one that writes it down later makes a right cluster look wrong.",
        &[draft.call(get), draft.call(&write)],
    );
    true
}
