//! Calls of the history that was judged, as the text has them.

use events::Rec;
use readings::{WayBack, Writes};

/// Returns whether the call of what was judged is a second one of the same write, which a reading adds.
pub fn is_twin(writes: Writes, no: u64) -> bool {
    match writes {
        Writes::Once => false,
        Writes::Repeated => no % 2 == 1,
    }
}

/// Returns the call of what was judged as the text has it: with its number, its position and its reply.
pub fn record_in_text(back: &WayBack<'_>, record: &Rec) -> Rec {
    back.text.record(back.number(record.no)).unwrap_or(*record)
}
