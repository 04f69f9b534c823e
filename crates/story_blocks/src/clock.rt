use jiff::Timestamp;
use jiff::civil::{Date, Time};
use jiff::tz::Offset;

/// Returns the date of a time, in UTC.
pub fn date_of(time: Timestamp) -> Date {
    Offset::UTC.to_datetime(time).date()
}

/// Returns the time of day of a time, in UTC.
pub fn time_of_day(time: Timestamp) -> Time {
    Offset::UTC.to_datetime(time).time()
}
