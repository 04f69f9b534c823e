ghost use Rattle.std.specs.Prelude.{◌≡◌, option_map};
ghost use Rattle.clap.specs.Words.{found_of, rows_of};
ghost use Rattle.command_line.specs.Asked.{profile_named as profile_by, profile_of, profile_reading, ruling_of};

use crate::arguments::{PROFILE, RULE_OUT};
use crate::given::{is_given, text_given};
use clap::ArgMatches;
use evidence::RulingOut;
use readings::Reading;

/// What a store promises, as a whole.
#[derive(Clone, Copy)]
pub enum Profile {
    /// Linearizable reads, and writes that are performed once.
    Strict,
    /// What OpenSearch's documentation says.
    OpenSearch,
}

impl Profile {
    /// Returns the reading of the profile.
    pub fn reading(self) -> Reading
        ensures { result ≡ profile_reading self }
    {
        match self {
            Profile::Strict => Reading::strict(),
            Profile::OpenSearch => Reading::opensearch(),
        }
    }
}

// Returns the profile of this name; `Profile::Strict` if no name is given.
fn profile_named(name: Option<&str>) -> Option<Profile>
    ensures { result ≡ profile_by (option_map (λ t. t.now) name.entry) }
{
    match name {
        None => Some(Profile::Strict),
        Some(name) => match name {
            "strict" => Some(Profile::Strict),
            "opensearch" => Some(Profile::OpenSearch),
            _ => None,
        },
    }
}

/// Returns the profile by the matches of a command, if it is named or none is.
pub fn profile_given(given: &ArgMatches<'_>) -> Option<Profile>
    ensures { result ≡ profile_of (rows_of (found_of given.now)) }
{
    profile_named(text_given(given, PROFILE))
}

/// Returns whether documents are checked for being ruled out, by the matches of a command: if the profile is
/// `OpenSearch`, or `--rule-out` is given. `None` if the name of the profile is unknown.
pub fn ruling_given(given: &ArgMatches<'_>) -> Option<RulingOut>
    ensures { result ≡ ruling_of (rows_of (found_of given.now)) }
{
    match profile_given(given)? {
        Profile::OpenSearch => Some(RulingOut::On),
        Profile::Strict if is_given(given, RULE_OUT) => Some(RulingOut::On),
        Profile::Strict => Some(RulingOut::Off),
    }
}
