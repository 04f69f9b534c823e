use crate::line_key::LineKey;
use jiff::Timestamp;
use std::alloc::Global;
use version_pair::NoMemory;

/// Returns the time in UTC, to the millisecond.
pub fn time_text(alloc: Global, time: Timestamp) -> Result<String, NoMemory> {
    Ok(format!(in alloc; "{time:.3}")?)
}

/// Returns when a line was written, in UTC to the millisecond, if it says so. Nothing is promised of it.
pub fn written_at(alloc: Global, line: &[u8]) -> Result<Option<String>, NoMemory> {
    let Some(millisecond) = LineKey::time().number(alloc, line)? else {
        return Ok(None);
    };
    match Timestamp::from_millisecond(millisecond) {
        Ok(time) => Ok(Some(time_text(alloc, time)?)),
        Err(_) => Ok(None),
    }
}
