ghost use Rattle.std.specs.Prelude.{◌≡◌, IfOk, string_bytes};
ghost use Rattle.result_lines.specs.Lines.{broken_entry_line, broken_line as reported_line, broken_place_line, broken_places_line, shard_end as reported_shard};

use compose::VerifyFault;
use places::Broken;
use std::alloc::{AllocError, Global};
use version_pair::{NoMemory, Pair};

// Returns the line of a fault at a place of an entry.
fn place_line(alloc: Global, entry: usize, cause: &str, place: usize) -> Result<String, NoMemory>
    ensures { IfOk result (λ line. string_bytes line ≡ broken_place_line entry cause.now place) }
{
    format!(in alloc; "broken entry={entry} cause={cause} place={place}\n")
}

// Returns the line of a fault of an entry's places.
fn places_line(alloc: Global, entry: usize, broken: Broken) -> Result<String, NoMemory>
    ensures { IfOk result (λ line. string_bytes line ≡ broken_places_line entry broken) }
{
    match broken {
        Broken::Stranger(place) => place_line(alloc, entry, "stranger", place),
        Broken::Twice(place) => place_line(alloc, entry, "twice", place),
        Broken::Late(place) => place_line(alloc, entry, "late", place),
        Broken::PairMissing(place) => place_line(alloc, entry, "pair-missing", place),
        Broken::PairGiven(place) => place_line(alloc, entry, "pair-given", place),
        Broken::Illegal(place) => place_line(alloc, entry, "illegal", place),
        Broken::Absent(rec) => format!(in alloc; "broken entry={entry} cause=absent rec={rec}\n"),
        Broken::NoMemory => Err(AllocError),
    }
}

// Returns the line of a fault of an entry.
fn entry_line(alloc: Global, entry: usize, cause: &str) -> Result<String, NoMemory>
    ensures { IfOk result (λ line. string_bytes line ≡ broken_entry_line entry cause.now) }
{
    format!(in alloc; "broken entry={entry} cause={cause}\n")
}

// Returns the end of the line of a pair: its shard, if that is not 0, and the line feed.
fn shard_end(alloc: Global, shard: u32) -> Result<String, NoMemory>
    ensures { IfOk result (λ text. string_bytes text ≡ reported_shard shard) }
{
    if shard == 0 {
        String::from_str(alloc, "\n")
    } else {
        format!(in alloc; " shard={shard}\n")
    }
}

// Returns the line of a pair that two calls take.
fn pair_line(alloc: Global, shard: u32, pair: Pair) -> Result<String, NoMemory>
    ensures { IfOk result (λ line. string_bytes line
        ≡ reported_line (VerifyFault.PairTwice shard pair)) }
{
    let term = pair.term();
    let seq = pair.seq();
    let end = shard_end(alloc, shard)?;
    let end = end.as_str();
    format!(in alloc; "broken term={term} seq={seq} cause=pair-twice{end}")
}

/// Returns the line of a fault of a witness. A fault that is `NoMemory` has no line.
pub fn broken_line(alloc: Global, fault: VerifyFault) -> Result<String, NoMemory>
    ensures { IfOk result (λ line. string_bytes line ≡ reported_line fault) }
{
    match fault {
        VerifyFault::DocMissing(doc) => format!(in alloc; "broken doc={doc} cause=doc-missing\n"),
        VerifyFault::DocTwice(entry) => entry_line(alloc, entry, "doc-twice"),
        VerifyFault::DocStranger(entry) => entry_line(alloc, entry, "doc-stranger"),
        VerifyFault::Broken(entry, broken) => places_line(alloc, entry, broken),
        VerifyFault::PairTwice(shard, pair) => pair_line(alloc, shard, pair),
        VerifyFault::NoMemory => Err(AllocError),
    }
}
