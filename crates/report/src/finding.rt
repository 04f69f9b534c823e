//! What a check finds of a text that was read.

ghost use Rattle.std.specs.Prelude.{◌≡◌, ◌≢◌, ◌≤◌, None as Nothing, IfErr, IfOk, IfSome, List};
ghost use Rattle.compose.specs.Checked.{IsVerdictOn};
ghost use Rattle.evidence.specs.Evidence.{Holds, IsReported};
ghost use Rattle.events.specs.Refusal.{most_events};
ghost use Rattle.events.specs.declared.event.Event.{Event as AnyEvent};
ghost use Rattle.history.specs.ByRules.{room_taken};
ghost use Rattle.history.specs.Laws.{AreLost};
ghost use Rattle.history.specs.declared.text_read.TextRead.{TextRead as TextOf};
ghost use Rattle.stream_io.specs.Faults.{IsCheckFault};
ghost use Rattle.readings.specs.WayBack.{IsKept};
ghost use Rattle.readings.specs.Reading.{conflicts_as};
ghost use Rattle.report.specs.Findings.{IsFoundOf, IsFoundOfGets};
ghost use Rattle.report.specs.Verdict.{judged};
ghost use Rattle.report.specs.Workers.{AreWorkers, HasDocument};

use crate::check_options::CheckOptions;
use crate::progress::{CheckProgress, CheckStage};
use crate::text_finding::TextFinding;
use check_pool::{NoGate, PoolFault};
use compose::{
    Case, CheckFault, Failing, Finding, Refuted, RulingOut, Verdict, check, check_alone,
    first_offence, refute, rule_out,
};
use doc_register::Conflicts;
use events::History;
use history::TextRead;
use readings::laws::histories_stay;
use readings::{Gets, ReadHistory, Reading, UnexplainedGet, Writes, attempts_of, unexplained_get};
use std::alloc::{AllocError, Global};
use std::sync::Wait;
use std::thread::Threads;
use stream_io::StreamFault;
use version_pair::NoMemory;

// Returns the verdict on a history, which so many workers search.
fn verdict_by_workers<R: Threads + Wait + Sync>(
    rt: &R,
    alloc: Global,
    history: History,
    workers: usize,
    conflicts: Conflicts,
) -> Result<Verdict, StreamFault>
    requires { AreWorkers workers }
    ensures verdict { IfOk result (IsVerdictOn conflicts history) }
    ensures reported { IfErr result IsCheckFault }
    ensures unread { IfErr result (λ fault. fault ≢ StreamFault.Read) }
    ensures named { IfErr result (HasDocument history) }
{
    match check(rt, alloc, history, workers, conflicts, &NoGate) {
        Ok(verdict) => Ok(verdict),
        Err(CheckFault::NoMemory(_)) => Err(StreamFault::NoMemory),
        Err(CheckFault::Pool(fault, _)) => match fault {
            PoolFault::Lost(doc) | PoolFault::Double(doc) | PoolFault::Stranger(doc) => {
                Err(StreamFault::Worker(doc))
            }
            PoolFault::NoMemory | PoolFault::NoWorkers | PoolFault::TooMany => unreachable!(),
        },
    }
}

/// Returns the first get that nothing explains, if gets are judged one by one and there is one.
pub fn get_found(
    alloc: Global,
    text: &Option<TextRead>,
    reading: Reading,
) -> Result<Option<UnexplainedGet>, NoMemory>
    requires { IfSome text.now (λ t. AreLost t.history t.voids) }
    ensures { (read : TextOf) (events : List AnyEvent) → IsKept reading read events text.now
        → IfOk result (IsFoundOfGets reading read) }
{
    match (reading.gets, text) {
        (Gets::Any, Some(read)) => unexplained_get(alloc, &read.history, &read.voids, reading),
        (Gets::Any, None) | (Gets::Last, _) => Ok(None),
    }
}

// Returns evidence that a document of the case's history is provably not linearizable, if that is asked for and found.
fn ruled_out(
    alloc: Global,
    case: &Case,
    ruling_out: RulingOut,
    writes: Writes,
) -> Result<Option<Refuted>, NoMemory>
    ensures holds { IfOk result (λ found. IfSome found (Holds case.now.conflicts case.now.events)) }
    ensures reportable { IfOk result (λ found. IfSome found (IsReported ruling_out)) }
{
    match ruling_out {
        RulingOut::Off => Ok(None),
        RulingOut::On => rule_out(alloc, case, attempts_of(writes)),
    }
}

/// Returns evidence that no order explains the case's history, if some is found. Documents that are ruled out
/// are searched for last, and only if that is asked for.
pub fn evidence_against(
    alloc: Global,
    case: &Case,
    ruling_out: RulingOut,
    writes: Writes,
) -> Result<Option<Refuted>, NoMemory>
    ensures holds { IfOk result (λ found. IfSome found (Holds case.now.conflicts case.now.events)) }
    ensures reportable { IfOk result (λ found. IfSome found (IsReported ruling_out)) }
{
    match refute(alloc, case)? {
        Some(evidence) => Ok(Some(evidence)),
        None => ruled_out(alloc, case, ruling_out, writes),
    }
}

// What was found against a history without an order: evidence in what was judged, or a get that nothing explains.
#[derive(Clone, Copy)]
struct Against {
    evidence: Option<Refuted>,
    get: Option<UnexplainedGet>,
}

// Returns a get that nothing explains, if there is one, and else evidence of a document that is ruled out, if that is
// asked for and found.
fn get_or_ruled_out(
    alloc: Global,
    case: &Case,
    text: &Option<TextRead>,
    options: CheckOptions,
) -> Result<Against, NoMemory>
    requires { IfSome text.now (λ t. AreLost t.history t.voids) }
    ensures holds { IfOk result (λ found. IfSome found.evidence (Holds case.now.conflicts case.now.events)) }
    ensures reportable { IfOk result (λ found. IfSome found.evidence (IsReported options.ruling_out)) }
    ensures gets { (read : TextOf) (events : List AnyEvent) → IsKept options.reading read events text.now
        → IfOk result (λ found. IsFoundOfGets options.reading read found.get) }
{
    match get_found(alloc, text, options.reading)? {
        Some(get) => Ok(Against {
            evidence: None,
            get: Some(get),
        }),
        None => Ok(Against {
            evidence: ruled_out(alloc, case, options.ruling_out, options.reading.writes)?,
            get: None,
        }),
    }
}

// Returns what is found against the case: first evidence of one call or two in what was judged, then a get that nothing
// explains, and last a document that is ruled out, if that is asked for.
fn found_against(
    alloc: Global,
    case: &Case,
    text: &Option<TextRead>,
    options: CheckOptions,
) -> Result<Against, NoMemory>
    requires { IfSome text.now (λ t. AreLost t.history t.voids) }
    ensures holds { IfOk result (λ found. IfSome found.evidence (Holds case.now.conflicts case.now.events)) }
    ensures reportable { IfOk result (λ found. IfSome found.evidence (IsReported options.ruling_out)) }
    ensures gets { (read : TextOf) (events : List AnyEvent) → IsKept options.reading read events text.now
        → IfOk result (λ found. found.evidence ≡ Nothing → IsFoundOfGets options.reading read found.get) }
{
    match refute(alloc, case)? {
        Some(evidence) => Ok(Against {
            evidence: Some(evidence),
            get: None,
        }),
        None => get_or_ruled_out(alloc, case, text, options),
    }
}

// Returns what is found of a text, by the verdict on what is judged of it, and by what is kept of it.
fn found_by(
    alloc: Global,
    verdict: Verdict,
    text: Option<TextRead>,
    options: CheckOptions,
    progress: &CheckProgress,
) -> Result<TextFinding, NoMemory>
    requires { IfSome text (λ t. AreLost t.history t.voids) }
    ensures { (read : TextOf) → IsVerdictOn (conflicts_as options.reading.conflicts) (judged options.reading read) verdict
        → IsKept options.reading read (judged options.reading read) text
        → IfOk result (IsFoundOf options.ruling_out options.reading read) }
{
    match verdict {
        Verdict::Yes(proof) => {
            let get = get_found(alloc, &text, options.reading)?;
            Ok(TextFinding {
                finding: Finding::Explained(proof),
                get,
                text,
            })
        }
        Verdict::No(case) => {
            progress.reach(CheckStage::Narrowing);
            let Against { evidence, get } = found_against(alloc, &case, &text, options)?;
            let offence = first_offence(alloc, &case)?;
            let failing = Failing { evidence, offence };
            Ok(TextFinding {
                finding: Finding::Unexplained(case, failing),
                get,
                text,
            })
        }
    }
}

/// Returns what a check with these options finds of a text that was read so, on the caller's thread alone.
pub fn find_alone(
    alloc: Global,
    read: TextRead,
    options: CheckOptions,
    progress: &CheckProgress,
) -> Result<TextFinding, NoMemory>
    // The void calls are lost in the text.
    requires void { AreLost read.history read.voids }
    // There is room for what is read.
    requires room { room_taken options.reading.writes read.history ≤ most_events }
    // It is found of this text.
    ensures { IfOk result (IsFoundOf options.ruling_out options.reading read) }
{
    let ReadHistory { judged, text } = ReadHistory::of(read, options.reading)?;
    match check_alone(alloc, judged, options.reading.conflicts_checked()) {
        Ok(verdict) => found_by(alloc, verdict, text, options, progress),
        Err(_) => Err(AllocError),
    }
}

// Returns what a check with these options finds of a text that was read so, by the workers.
fn find_by_workers<R: Threads + Wait + Sync>(
    rt: &R,
    alloc: Global,
    read: TextRead,
    options: CheckOptions,
    progress: &CheckProgress,
) -> Result<TextFinding, StreamFault>
    requires workers { AreWorkers options.workers }
    requires void { AreLost read.history read.voids }
    requires room { room_taken options.reading.writes read.history ≤ most_events }
    ensures found { IfOk result (IsFoundOf options.ruling_out options.reading read) }
    ensures reported { IfErr result IsCheckFault }
    ensures unread { IfErr result (λ fault. fault ≢ StreamFault.Read) }
    ensures named { IfErr result (HasDocument read.history) }
{
    // That what is judged has the documents of the text is known from here on.
    histories_stay();
    let ReadHistory { judged, text } = ReadHistory::of(read, options.reading)?;
    let conflicts = options.reading.conflicts_checked();
    let verdict = verdict_by_workers(rt, alloc, judged, options.workers, conflicts)?;
    Ok(found_by(alloc, verdict, text, options, progress)?)
}

/// Returns what a check with these options finds of a text that was read so. With more than one worker it waits as
/// `check_pool::answers` does.
///
/// Errors, whichever comes first: `NoMemory`; `Worker` if a worker was lost, which one worker never is.
pub fn find<R: Threads + Wait + Sync>(
    rt: &R,
    alloc: Global,
    read: TextRead,
    options: CheckOptions,
    progress: &CheckProgress,
) -> Result<TextFinding, StreamFault>
    // There are 1 to 16 workers.
    requires workers { AreWorkers options.workers }
    // The void calls are lost in the text.
    requires void { AreLost read.history read.voids }
    // There is room for what is read.
    requires room { room_taken options.reading.writes read.history ≤ most_events }
    // It is found of this text.
    ensures found { IfOk result (IsFoundOf options.ruling_out options.reading read) }
    // `reported`, `unread`: the only errors are `NoMemory` and `Worker`: nothing is read.
    ensures reported { IfErr result IsCheckFault }
    ensures unread { IfErr result (λ fault. fault ≢ StreamFault.Read) }
    // With one worker, the caller's thread, the only error is `NoMemory`.
    ensures alone { options.workers ≡ 1 → IfErr result (λ fault. fault ≡ StreamFault.NoMemory) }
    // A document that a `Worker` names is one of the text's.
    ensures named { IfErr result (HasDocument read.history) }
{
    if options.workers == 1 {
        Ok(find_alone(alloc, read, options, progress)?)
    } else {
        find_by_workers(rt, alloc, read, options, progress)
    }
}
