ghost use Rattle.std.specs.Prelude.{◌≡◌, ◌⊎◌, [], Some, None, IfOk, IfErr, OnOk, map, option_map};
ghost use Rattle.clap.specs.Words.{FailsBy, HasKind, found_of, rows_of, subcommand_rows_of};
ghost use Rattle.command_line.specs.Asked.{asked_by, asked_of, request_of_command, asked_on, bulk_of, check_of, checked_of, explain_of, faults_on, number_or as number_parsed, verify_of, witness_of};

use crate::arguments;
use crate::arguments::{AT_LEAST, BODY, FIRST, HISTORIES, HISTORY, NEEDED_HISTORY, REPLY, WORKERS};
use crate::commands::{BULK, CHECK, EXPLAIN, RUN, VERIFY, WITNESS, command_alone, program};
use crate::form::{Form, form_given};
use crate::given::{text_given, texts_given};
use crate::page_request::{PageRequest, page_fault, page_given};
use crate::profile::ruling_given;
use crate::reading_request::{reading_given, unnamed_of_reading};
use crate::run_request::{asked_run, unnamed_of_run};
use clap::error::ErrorKind;
use clap::{ArgMatches, Error};
use disturbances::Disturbance;
use evidence::RulingOut;
use readings::Reading;
use recorded_runs::{Manner, RunSetting, Seeds};
use std::alloc::{AllocError, Global};
use std::convert::AsStr;

/// What the program is asked for.
#[derive(Drop)]
pub enum Request<'a> {
    /// To check a history text: that of the file, or of standard input if none is named; by that many
    /// workers, 1 to 16. At least so many calls are asked for.
    Check {
        file: Option<&'a str>,
        reading: Reading,
        workers: u64,
        ruling_out: RulingOut,
        at_least: u64,
    },
    /// To check each of some history texts in the same way: those of the files, in this order, or that of
    /// standard input if there are none. If the form is `Lines`, there are two files or more.
    CheckEach {
        files: Vec<&'a str>,
        form: Form,
        reading: Reading,
        workers: u64,
        ruling_out: RulingOut,
        at_least: u64,
    },
    /// To write the witness of a history text: that of the file, or of standard input if none is named; or why
    /// there is none, in this form.
    Witness {
        file: Option<&'a str>,
        form: Form,
        reading: Reading,
        ruling_out: RulingOut,
    },
    /// To check the witness text of the one file against the history text of the other, and to answer in this
    /// form.
    Verify {
        history: &'a str,
        witness: &'a str,
        form: Form,
        reading: Reading,
    },
    /// To write the body of a bulk request and its reply, of these files, as lines of a history, its calls
    /// numbered from `first`.
    Bulk {
        body: &'a str,
        reply: &'a str,
        first: u64,
    },
    /// To run clients against a replication group in this manner, and to write what they recorded.
    Run(RunSetting, Manner),
    /// To run clients in turns with these seeds, in order, against a group under this disturbance, until no
    /// order is found for what they recorded, and to write that. The seed of the setting is the first of
    /// them.
    Search(Seeds, RunSetting, Disturbance),
    /// To check a history text as `Check` does and to explain what was found, in this form; and to write the
    /// explanation as a page, if one is asked for.
    Explain {
        file: Option<&'a str>,
        form: Form,
        reading: Reading,
        workers: u64,
        ruling_out: RulingOut,
        page: Option<PageRequest<'a>>,
    },
}

/// Returns the number that is given, or another one if none is. The parse refuses a text that is no number.
pub fn number_or(other: u64, text: Option<&str>) -> Option<u64>
    ensures { result ≡ number_parsed other (option_map (λ t. t.now) text.entry) }
{
    match text {
        None => Some(other),
        Some(text) => match text.parse() {
            Ok(number) => Some(number),
            Err(_) => None,
        },
    }
}

// Returns a check of the history of each of these files, or of standard input if there is none; if what names a
// reading is known, and a number of workers and a least number of calls are each given or not.
fn check_request<'a>(files: Vec<&'a str>, given: &ArgMatches<'a>) -> Option<Request<'a>>
    ensures { option_map asked_by result ≡ checked_of (map (λ f. f.now) files.entry.items) (rows_of (found_of given.now)) }
{
    let reading = reading_given(given)?;
    let workers = number_or(1, text_given(given, WORKERS))?;
    let ruling_out = ruling_given(given)?;
    let at_least = number_or(0, text_given(given, AT_LEAST))?;
    let form = form_given(given);
    match form {
        Form::Lines if files.len() < 2 => Some(Request::Check {
            file: files.first().copied(),
            reading,
            workers,
            ruling_out,
            at_least,
        }),
        Form::Lines | Form::Objects => Some(Request::CheckEach {
            files,
            form,
            reading,
            workers,
            ruling_out,
            at_least,
        }),
    }
}

// Returns the witness of a history, if what names a reading is known.
fn witness_request<'a>(given: &ArgMatches<'a>) -> Option<Request<'a>>
    ensures { option_map asked_by result ≡ witness_of (rows_of (found_of given.now)) }
{
    Some(Request::Witness {
        file: text_given(given, HISTORY),
        form: form_given(given),
        reading: reading_given(given)?,
        ruling_out: ruling_given(given)?,
    })
}

// Returns a check of a witness, if both files are named, and what names a reading is known.
fn verify_request<'a>(given: &ArgMatches<'a>) -> Option<Request<'a>>
    ensures { option_map asked_by result ≡ verify_of (rows_of (found_of given.now)) }
{
    Some(Request::Verify {
        history: text_given(given, NEEDED_HISTORY)?,
        witness: text_given(given, arguments::WITNESS)?,
        form: form_given(given),
        reading: reading_given(given)?,
    })
}

// Returns the lines of a bulk, if both files are named.
fn bulk_request<'a>(given: &ArgMatches<'a>) -> Option<Request<'a>>
    ensures { option_map asked_by result ≡ bulk_of (rows_of (found_of given.now)) }
{
    Some(Request::Bulk {
        body: text_given(given, BODY)?,
        reply: text_given(given, REPLY)?,
        first: number_or(0, text_given(given, FIRST))?,
    })
}

// Returns a check of a history that is explained, if what names a reading is known, and a number of workers is
// given or none is. A page may be asked for.
fn explain_request<'a>(given: &ArgMatches<'a>) -> Option<Request<'a>>
    ensures { option_map asked_by result ≡ explain_of (rows_of (found_of given.now)) }
{
    Some(Request::Explain {
        file: text_given(given, HISTORY),
        form: form_given(given),
        reading: reading_given(given)?,
        workers: number_or(1, text_given(given, WORKERS))?,
        ruling_out: ruling_given(given)?,
        page: page_given(given)?,
    })
}

// Returns what the command of this name asks for.
fn request_of_command<'a>(
    alloc: Global,
    name: &str,
    given: &ArgMatches<'a>,
) -> Result<Option<Request<'a>>, AllocError>
    ensures { IfOk result (λ asked. option_map asked_by asked
        ≡ request_of_command name.now (rows_of (found_of given.now))) }
{
    match name {
        CHECK => {
            let files = texts_given(alloc, given, HISTORIES)?;
            Ok(check_request(files, given))
        }
        WITNESS => Ok(witness_request(given)),
        VERIFY => Ok(verify_request(given)),
        BULK => Ok(bulk_request(given)),
        RUN => Ok(asked_run(given)),
        EXPLAIN => Ok(explain_request(given)),
        _ => Ok(None),
    }
}

// Returns what is asked for by the matches of the program.
fn asked_for<'a>(alloc: Global, matches: &ArgMatches<'a>) -> Result<Option<Request<'a>>, AllocError>
    ensures { IfOk result (λ asked. option_map asked_by asked ≡ asked_of (subcommand_rows_of matches.now)) }
{
    match matches.subcommand() {
        Some((name, given)) => request_of_command(alloc, name, given),
        None => Ok(Some(Request::Check {
            file: None,
            reading: Reading::strict(),
            workers: 1,
            ruling_out: RulingOut::Off,
            at_least: 0,
        })),
    }
}

// Returns the matches of the program on the arguments.
fn parse<'a, S: AsStr>(alloc: Global, process_arguments: &'a [S]) -> Result<ArgMatches<'a>, Error>
    ensures asked { IfOk result (λ matches. asked_of (subcommand_rows_of matches)
        ≡ asked_on (map S.text process_arguments.entry.now)) }
    ensures faults { FailsBy (faults_on (map S.text process_arguments.entry.now)) result }
{
    program(alloc)?.try_get_matches_from(process_arguments)
}

// Returns the error of arguments that give an option of a reading an unknown value, with what it may be; or for a
// run name no fault, no disturbance or no seeds; or lines without a document, or a document without a page. If not
// all files and numbers of a command are named, the parse has refused them before.
fn unknown_name_error(alloc: Global, matches: &ArgMatches<'_>) -> Result<Error, AllocError> {
    let Some((name, given)) = matches.subcommand() else {
        // (Nothing is unknown then.)
        return program(alloc)?.error(ErrorKind::InvalidValue, "no command is named");
    };
    let choice = match name {
        RUN => unnamed_of_run(given),
        EXPLAIN => page_fault(given).unwrap_or(unnamed_of_reading(given)),
        _ => unnamed_of_reading(given),
    };
    command_alone(alloc, name)?.error(ErrorKind::InvalidValue, choice)
}

/// Returns what the arguments ask for. The first is the program's name.
///
/// Errors, with the text for the user: first those of a parse of the arguments, among them those that ask for
/// help or the version, and out of memory; then a profile, a part of a reading, a fault of a group or a
/// disturbance that there isn't, lines without a document, or a document without a page. Which of several is
/// returned is tested, not proved.
pub fn read_request<'a, S: AsStr>(
    alloc: Global,
    process_arguments: &'a [S],
) -> Result<Request<'a>, Error>
    // The arguments ask for just what is returned.
    ensures asked { IfOk result (λ asked. asked_on (map S.text process_arguments.entry.now)
        ≡ Some (asked_by asked)) }
    // None of the errors of the definition applies to them.
    ensures taken { OnOk result (faults_on (map S.text process_arguments.entry.now) ≡ []) }
    // The arguments have that fault, or what they name is none of the commands with its files and a reading, or
    // with its numbers, a fault and a disturbance, and a seed or several, or with a page.
    ensures refused { IfErr result (λ error. HasKind (faults_on (map S.text process_arguments.entry.now)) error
        ⊎ (asked_on (map S.text process_arguments.entry.now) ≡ None)) }
{
    let matches = parse(alloc, process_arguments)?;
    match asked_for(alloc, &matches)? {
        Some(request) => Ok(request),
        None => Err(unknown_name_error(alloc, &matches)?),
    }
}
