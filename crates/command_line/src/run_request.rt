ghost use Rattle.std.specs.Prelude.{◌≡◌, Some, codes, option_map};
ghost use Rattle.clap.specs.Words.{first_of, found_of, rows_of};
ghost use Rattle.command_line.specs.Asked.{asked_by, disturbance_named as disturbance_by, fault_named as fault_by, manner_given as manner_by, one_run_of, playing_given as playing_by, number_given as number_by, run_of, runs_of, search_among as among_by, search_of, range_named as seeds_by, setting_given as given_by, small_given as small_by};

use crate::arguments::{
    CALLS, CLIENTS, COPIES, DISTURB, DOCS, FAULT, IN_TURNS, SEED, SEEDS, UNTIL,
};
use crate::given::{is_given, text_given};
use crate::request::{Request, number_or};
use clap::ArgMatches;
use disturbances::Disturbance;
use recorded_runs::{Manner, Playing, RunSetting, Seeds};
use repl_group::Fault;

/// Returns the number that is given, if one is.
pub fn number_given(text: Option<&str>) -> Option<u64>
    ensures { result ≡ number_by (option_map (λ t. t.now) text.entry) }
{
    match text {
        None => None,
        Some(text) => number_or(0, Some(text)),
    }
}

// Returns the number below 2^32 that is given, if one is.
fn small_given(text: Option<&str>) -> Option<u32>
    ensures { result ≡ small_by (option_map (λ t. t.now) text.entry) }
{
    let number = number_given(text)?;
    if number < 4_294_967_296 {
        Some(number as u32)
    } else {
        None
    }
}

// Returns the fault of this name.
fn fault_named(name: &str) -> Option<Fault>
    ensures { result ≡ fault_by name.now }
{
    match name {
        "none" => Some(Fault::None),
        "dirty" => Some(Fault::Dirty),
        "early" => Some(Fault::Early),
        "same-term" => Some(Fault::SameTerm),
        "stale" => Some(Fault::Stale),
        "blind" => Some(Fault::Blind),
        _ => None,
    }
}

/// Returns the name of a fault, which `--fault` takes.
pub fn fault_name(fault: Fault) -> &'static str
    ensures { fault_by result.now ≡ Some fault }
{
    match fault {
        Fault::None => "none",
        Fault::Dirty => "dirty",
        Fault::Early => "early",
        Fault::SameTerm => "same-term",
        Fault::Stale => "stale",
        Fault::Blind => "blind",
    }
}

// Returns what a run with the seed is made with, if each number is given and the fault is named.
fn setting_given(seed: Option<u64>, given: &ArgMatches<'_>) -> Option<RunSetting>
    ensures { result ≡ given_by seed (rows_of (found_of given.now)) }
{
    Some(RunSetting {
        seed: seed?,
        clients: small_given(text_given(given, CLIENTS))?,
        calls: small_given(text_given(given, CALLS))?,
        docs: small_given(text_given(given, DOCS))?,
        copies: small_given(text_given(given, COPIES))?,
        fault: fault_named(text_given(given, FAULT)?)?,
    })
}

// Returns the disturbance of this name; `Disturbance::None` if no name is given.
fn disturbance_named(name: Option<&str>) -> Option<Disturbance>
    ensures { result ≡ disturbance_by (option_map (λ t. t.now) name.entry) }
{
    match name {
        None => Some(Disturbance::None),
        Some(name) => match name {
            "none" => Some(Disturbance::None),
            "cuts" => Some(Disturbance::Cuts),
            "promotions" => Some(Disturbance::Promotions),
            "storm" => Some(Disturbance::Storm),
            _ => None,
        },
    }
}

/// Returns the name of a disturbance, which `--disturb` takes.
pub fn disturbance_name(disturbance: Disturbance) -> &'static str
    ensures { disturbance_by (Some result.now) ≡ Some disturbance }
{
    match disturbance {
        Disturbance::None => "none",
        Disturbance::Cuts => "cuts",
        Disturbance::Promotions => "promotions",
        Disturbance::Storm => "storm",
    }
}

// Returns how the clients are played by the matches of the command: in turns if `--in-turns` is given.
fn playing_given(given: &ArgMatches<'_>) -> Playing
    ensures { result ≡ playing_by (first_of (codes "in-turns") (rows_of (found_of given.now))) }
{
    if is_given(given, IN_TURNS) {
        Playing::InTurns
    } else {
        Playing::OnThreads
    }
}

// Returns how the group is disturbed by the matches of the command.
fn disturbance_given(given: &ArgMatches<'_>) -> Option<Disturbance>
    ensures { result ≡ disturbance_by (first_of (codes "disturb") (rows_of (found_of given.now))) }
{
    disturbance_named(text_given(given, DISTURB))
}

// Returns how a run goes, if the disturbance is named or none is.
fn manner_given(given: &ArgMatches<'_>) -> Option<Manner>
    ensures { result ≡ manner_by (rows_of (found_of given.now)) }
{
    Some(Manner {
        playing: playing_given(given),
        disturbance: disturbance_given(given)?,
    })
}

// Returns the run that is asked for, if the seed and each number is given and the fault is named, and the
// disturbance is named or none is.
fn one_run<'a>(seed: Option<&str>, given: &ArgMatches<'_>) -> Option<Request<'a>>
    ensures { option_map asked_by result ≡ one_run_of (option_map (λ t. t.now) seed.entry) (rows_of (found_of given.now)) }
{
    let setting = setting_given(number_given(seed), given)?;
    let manner = manner_given(given)?;
    Some(Request::Run(setting, manner))
}

// Returns the seeds of a text A-B.
fn seeds_named(text: &str) -> Option<Seeds>
    ensures { option_map (λ seeds. (seeds.first, seeds.last)) result ≡ seeds_by text.now }
{
    let (first, last) = text.split_once('-')?;
    let first = number_given(Some(first))?;
    let last = number_given(Some(last))?;
    Seeds::new(first, last)
}

// Returns runs with these seeds, if each number is given and the fault is named, and the disturbance is named
// or none is.
fn search_among<'a>(seeds: Seeds, given: &ArgMatches<'_>) -> Option<Request<'a>>
    ensures { option_map asked_by result ≡ among_by (seeds.first, seeds.last) (rows_of (found_of given.now)) }
{
    let setting = setting_given(Some(seeds.first()), given)?;
    let disturbance = disturbance_given(given)?;
    Some(Request::Search(seeds, setting, disturbance))
}

// The answer that a search looks for.
const REFUTED: &str = "refuted";

// Returns runs with the seeds that are named, until what is named is found.
fn search<'a>(until: &str, seeds: &str, given: &ArgMatches<'_>) -> Option<Request<'a>>
    ensures { option_map asked_by result ≡ search_of until.now seeds.now (rows_of (found_of given.now)) }
{
    match until {
        REFUTED => search_among(seeds_named(seeds)?, given),
        _ => None,
    }
}

// Returns one run if a seed is given; a search if no seed is given, and what is searched for and the seeds
// are.
fn runs<'a>(
    seed: Option<&str>,
    until: Option<&str>,
    seeds: Option<&str>,
    given: &ArgMatches<'_>,
) -> Option<Request<'a>>
    ensures { option_map asked_by result ≡ runs_of (option_map (λ t. t.now) seed.entry) (option_map (λ t. t.now) until.entry)
        (option_map (λ t. t.now) seeds.entry) (rows_of (found_of given.now)) }
{
    match (seed, until, seeds) {
        (seed, None, None) => one_run(seed, given),
        (None, Some(until), Some(seeds)) => search(until, seeds, given),
        _ => None,
    }
}

/// Returns the run or the search that is asked for.
pub fn asked_run<'a>(given: &ArgMatches<'a>) -> Option<Request<'a>>
    ensures { option_map asked_by result ≡ run_of (rows_of (found_of given.now)) }
{
    runs(
        text_given(given, SEED),
        text_given(given, UNTIL),
        text_given(given, SEEDS),
        given,
    )
}

// Returns what is wrong with the seeds of a run, if something is.
fn seeds_fault(given: &ArgMatches<'_>) -> Option<&'static str> {
    match (
        text_given(given, SEED),
        text_given(given, UNTIL),
        text_given(given, SEEDS),
    ) {
        (Some(_), None, None) => None,
        (None, Some(REFUTED), Some(seeds)) => match seeds_named(seeds) {
            Some(_) => None,
            None => Some(
                "the value of --seeds is two numbers below 2^64, the least first, as 1-1000",
            ),
        },
        (None, Some(_), Some(_)) => Some("the value of --until is refuted"),
        _ => Some("a run takes --seed, or else --until and --seeds"),
    }
}

/// Returns what the arguments of a run may name if they name none of these: a fault, or else a disturbance;
/// or how its seeds are given, if they are wrong.
pub fn unnamed_of_run(given: &ArgMatches<'_>) -> &'static str {
    if let Some(reported) = seeds_fault(given) {
        return reported;
    }
    match text_given(given, FAULT) {
        Some(name) if fault_named(name).is_some() => {
            "the value of --disturb is none, cuts, promotions or storm"
        }
        _ => "the value of --fault is none, dirty, early, same-term, stale or blind",
    }
}
