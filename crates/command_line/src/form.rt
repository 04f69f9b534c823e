ghost use Rattle.std.specs.Prelude.{◌≡◌, codes};
ghost use Rattle.clap.specs.Words.{first_of, found_of, rows_of};
ghost use Rattle.command_line.specs.Asked.{form_given as form_by};

use crate::arguments::JSON;
use crate::given::is_given;
use clap::ArgMatches;

/// How answers are written.
#[derive(Clone, Copy, PartialEq, Eq)]
pub enum Form {
    /// As lines; of several texts each behind the name of its text.
    Lines,
    /// As objects of JSON.
    Objects,
}

/// Returns how answers are written by the matches of a command: as objects if `--json` is given.
pub fn form_given(given: &ArgMatches<'_>) -> Form
    // It is that of the definition.
    ensures { result ≡ form_by (first_of (codes "json") (rows_of (found_of given.now))) }
{
    if is_given(given, JSON) {
        Form::Objects
    } else {
        Form::Lines
    }
}
