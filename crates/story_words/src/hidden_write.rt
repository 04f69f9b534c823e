use doc_register::{Conflicts, Reply};
use events::{History, Rec};
use readings::{ConflictReading, Reading};
use story_blocks::Draft;
use story_blocks::Word::Phrase;
use story_reasons::OrderSearch;
use version_pair::{NoMemory, Pair};

// Whether the write was answered with a conflict, asked for the number, and had no condition that the version can't
// meet.
fn may_have_written(write: &Rec, pair: Pair, k: u64) -> bool {
    let is_met = match write.op.condition() {
        Some(asked) => asked.is_below(pair),
        None => true,
    };
    is_met && write.op.value() == Some(k) && matches!(write.heard, Some((_, Reply::Conflict)))
}

// Returns the last write that was answered with a conflict, was called before the reply to the get, asked for
// the number that the get shows, and had no condition that its version can't meet.
fn hidden_write(get: &Rec, records: &[Rec]) -> Option<Rec> {
    let (place, Reply::Found { pair, k }) = get.heard? else {
        return None;
    };
    for write in records.iter().rev() {
        if write.call_at < place && may_have_written(write, pair, k) {
            return Some(*write);
        }
    }
    None
}

/// Adds which write may have been performed though it was answered with a conflict, if a get shows what no other
/// write can have written. Adds nothing, and returns so, if there is no such write, or if conflicts are read so
/// already.
pub fn add_hidden_write(
    draft: &mut Draft<'_>,
    get: &Rec,
    records: &[Rec],
    conflicts: Conflicts,
) -> bool {
    let (Conflicts::Plain, Some(write)) = (conflicts, hidden_write(get, records)) else {
        return false;
    };
    draft.paragraph(
        "Did a conflict hide a write? Call {0.no} ({0.asked}) was answered with a conflict (line {0.replied}), and call {1.no} shows k={1.k} at {1.version} (line {1.replied}), which no write can have written, neither one whose reply shows it nor one without a reply. So it may have been performed all the same, as happens if a write is repeated below the recorder; or a client that is not recorded wrote it. `casbench explain --conflicts maybe FILE` reads a conflict as a write that may have been performed, and says what remains.",
        &[draft.call(&write), draft.call(get)],
    );
    true
}

/// Adds the line that the text gets if a conflict is read as a write that may have been performed, and all else
/// strictly.
pub fn add_other_reading<S: OrderSearch>(
    draft: &mut Draft<'_>,
    whole: &History,
    search: &S,
) -> Result<(), NoMemory> {
    let reading = Reading {
        conflicts: ConflictReading::Maybe,
        ..Reading::strict()
    };
    let Some(line) = search.line(draft.alloc, whole, reading, search.ruling_out())? else {
        return Ok(());
    };
    if let Ok(line) = str::from_utf8(&line) {
        draft.paragraph(
            "With `--conflicts maybe` this history gets: {}",
            &[Phrase(line.trim_end())],
        );
    }
    Ok(())
}
