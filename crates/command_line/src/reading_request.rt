ghost use Rattle.std.specs.Prelude.{◌≡◌, option_map};
ghost use Rattle.clap.specs.Words.{found_of, rows_of};
ghost use Rattle.command_line.specs.Asked.{conflicts_named as conflicts_by, failed_named as failed_by, gets_named as gets_by, reading_of, reading_with as reading_by, writes_named as writes_by};

use crate::arguments::{CONFLICTS, FAILED, GETS, WRITES};
use crate::given::text_given;
use crate::profile::profile_given;
use clap::ArgMatches;
use readings::{ConflictReading, Failed, Gets, Reading, Writes};

// Returns what a reply to a get shows by this name; `usual` if no name is given.
fn gets_named(usual: Gets, name: Option<&str>) -> Option<Gets>
    ensures { result ≡ gets_by usual (option_map (λ t. t.now) name.entry) }
{
    match name {
        None => Some(usual),
        Some(name) => match name {
            "last" => Some(Gets::Last),
            "any" => Some(Gets::Any),
            _ => None,
        },
    }
}

// Returns the reading of a conflict of this name; `usual` if no name is given.
fn conflicts_named(usual: ConflictReading, name: Option<&str>) -> Option<ConflictReading>
    ensures { result ≡ conflicts_by usual (option_map (λ t. t.now) name.entry) }
{
    match name {
        None => Some(usual),
        Some(name) => match name {
            "plain" => Some(ConflictReading::Plain),
            "maybe" => Some(ConflictReading::Maybe),
            "unknown" => Some(ConflictReading::Unknown),
            _ => None,
        },
    }
}

// Returns how often a write is performed by this name; `usual` if no name is given.
fn writes_named(usual: Writes, name: Option<&str>) -> Option<Writes>
    ensures { result ≡ writes_by usual (option_map (λ t. t.now) name.entry) }
{
    match name {
        None => Some(usual),
        Some(name) => match name {
            "once" => Some(Writes::Once),
            "repeated" => Some(Writes::Repeated),
            _ => None,
        },
    }
}

// Returns what a lost line that is marked as void says by this name; `usual` if no name is given.
fn failed_named(usual: Failed, name: Option<&str>) -> Option<Failed>
    ensures { result ≡ failed_by usual (option_map (λ t. t.now) name.entry) }
{
    match name {
        None => Some(usual),
        Some(name) => match name {
            "lost" => Some(Failed::Lost),
            "trusted" => Some(Failed::Trusted),
            _ => None,
        },
    }
}

// Returns the reading with the parts that the matches of a command name in place of its own, if each is known.
fn reading_with(usual: Reading, given: &ArgMatches<'_>) -> Option<Reading>
    ensures { result ≡ reading_by usual (rows_of (found_of given.now)) }
{
    Some(Reading {
        gets: gets_named(usual.gets, text_given(given, GETS))?,
        conflicts: conflicts_named(usual.conflicts, text_given(given, CONFLICTS))?,
        writes: writes_named(usual.writes, text_given(given, WRITES))?,
        failed: failed_named(usual.failed, text_given(given, FAILED))?,
    })
}

/// Returns the reading by the matches of a command: that of the profile, but for the parts that are named beside
/// it. `None` if the name of the profile or of a part is unknown.
pub fn reading_given(given: &ArgMatches<'_>) -> Option<Reading>
    ensures { result ≡ reading_of (rows_of (found_of given.now)) }
{
    reading_with(profile_given(given)?.reading(), given)
}

// Returns what the first of the options beside a profile may name that names something unknown. It is the last of
// them if no other is.
fn unnamed_beside(usual: Reading, given: &ArgMatches<'_>) -> &'static str {
    if gets_named(usual.gets, text_given(given, GETS)).is_none() {
        "the value of --gets is last or any"
    } else if conflicts_named(usual.conflicts, text_given(given, CONFLICTS)).is_none() {
        "the value of --conflicts is plain, maybe or unknown"
    } else if writes_named(usual.writes, text_given(given, WRITES)).is_none() {
        "the value of --writes is once or repeated"
    } else {
        "the value of --failed is lost or trusted"
    }
}

/// Returns what the first of the options of a reading may name that names something unknown, in the order of the
/// help.
pub fn unnamed_of_reading(given: &ArgMatches<'_>) -> &'static str {
    match profile_given(given) {
        None => "the value of --profile is strict or opensearch",
        Some(profile) => unnamed_beside(profile.reading(), given),
    }
}
