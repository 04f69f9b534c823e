ghost use Rattle.std.specs.Prelude.{◌≡◌, IfOk, map, option_map};
ghost use Rattle.clap.specs.Words.{first_of, found_of, rows_of};
ghost use Rattle.command_line.specs.Asked.{flag_given, texts_of};

use crate::argument::Argument;
use clap::ArgMatches;
use std::alloc::{AllocError, Global};

/// Returns the text that is given for the argument, if one is.
pub fn text_given<'a>(given: &ArgMatches<'a>, argument: Argument<'_>) -> Option<&'a str>
    ensures { option_map (λ t. t.now) result ≡ first_of argument.entry.id.now (rows_of (found_of given.now)) }
{
    given.get_str(argument.id)
}

/// Returns the texts that are given for the argument, in their order.
pub fn texts_given<'a>(
    alloc: Global,
    given: &ArgMatches<'a>,
    argument: Argument<'_>,
) -> Result<Vec<&'a str>, AllocError>
    ensures { IfOk result (λ texts. map (λ t. t.now) texts.items ≡ texts_of argument.entry.id.now (rows_of (found_of given.now))) }
{
    match given.get_strs(argument.id) {
        Some(texts) => Vec::from_slice(alloc, texts),
        None => Ok(Vec::new(alloc)),
    }
}

// The text of an argument that takes nothing, if it is given.
const GIVEN: &str = "true";

/// Returns whether the argument is given, which takes nothing.
pub fn is_given(given: &ArgMatches<'_>, argument: Argument<'_>) -> bool
    ensures { result ≡ flag_given (first_of argument.entry.id.now (rows_of (found_of given.now))) }
{
    match text_given(given, argument) {
        Some(GIVEN) => true,
        _ => false,
    }
}
