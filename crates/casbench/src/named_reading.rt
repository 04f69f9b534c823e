//! The reading that an object names.

ghost use Rattle.std.specs.Prelude.{◌≡◌};
ghost use Rattle.casbench.specs.Readings.{IsNamedReading, conflicts_name as name_of_conflicts, failed_name as name_of_failed, gets_name as name_of_gets, writes_name as name_of_writes};

use readings::{ConflictReading, Failed, Gets, Reading, Writes};
use result_lines::NamedReading;

// Returns the value of `--gets`.
fn gets_name(gets: Gets) -> &'static str
    ensures { result.now ≡ name_of_gets gets }
{
    match gets {
        Gets::Last => "last",
        Gets::Any => "any",
    }
}

// Returns the value of `--conflicts`.
fn conflicts_name(conflicts: ConflictReading) -> &'static str
    ensures { result.now ≡ name_of_conflicts conflicts }
{
    match conflicts {
        ConflictReading::Plain => "plain",
        ConflictReading::Maybe => "maybe",
        ConflictReading::Unknown => "unknown",
    }
}

// Returns the value of `--writes`.
fn writes_name(writes: Writes) -> &'static str
    ensures { result.now ≡ name_of_writes writes }
{
    match writes {
        Writes::Once => "once",
        Writes::Repeated => "repeated",
    }
}

// Returns the value of `--failed`.
fn failed_name(failed: Failed) -> &'static str
    ensures { result.now ≡ name_of_failed failed }
{
    match failed {
        Failed::Lost => "lost",
        Failed::Trusted => "trusted",
    }
}

/// Returns the reading as an object names it; `None` if it leaves each event as it is: then no object names it.
pub fn named_reading(reading: Reading) -> Option<NamedReading>
    // It is named exactly if it doesn't, by the values of its options.
    ensures { IsNamedReading reading result }
{
    if reading.leaves_events() {
        return None;
    }
    Some(NamedReading {
        gets: gets_name(reading.gets),
        conflicts: conflicts_name(reading.conflicts),
        writes: writes_name(reading.writes),
        failed: failed_name(reading.failed),
    })
}
