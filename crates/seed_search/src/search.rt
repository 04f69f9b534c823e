ghost use Rattle.std.specs.Prelude.{◌≡◌, ◌≢◌, ◌↔◌, ◌+◌, IfErr, IfNone, IfOk, IfSome, IsErrOf, IsTrue};
ghost use Rattle.std.specs.Io.KnownBytes.{Keeps};
ghost use Rattle.recorded_runs.specs.Runs.{IsOfRun, IsRunFault, is_refused};
ghost use Rattle.stream_io.specs.Written.{HasPrefix};
ghost use Rattle.seed_search.specs.Found.{AreCleared, IsCleared, IsFoundRun, IsFoundText, IsJudgedRun, IsSearched, with_seed};

use crate::found_run::FoundRun;
use crate::watch::Watch;
use disturbances::{Disturbance, DisturbedGroup};
use history::write;
use recorded_runs::{Manner, Playing, RunSetting, Seeds, run_history};
use report::{RulingOut, history_answer};
use std::alloc::Global;
use std::io::Write;
use std::sync::Wait;
use std::thread::Threads;
use stream_io::{Status, StreamFault, write_text};
use workload::Target;

// The number of seeds that are tried from one progress report to the next.
const SEEDS_APART: u64 = 100;

// Makes the run of the setting, in turns, and judges it.
fn judged_run<T: Threads + Wait + Sync>(
    rt: &T,
    alloc: Global,
    setting: &RunSetting,
    disturbance: Disturbance,
) -> Result<FoundRun, StreamFault>
    ensures seed { IfOk result (λ run. run.seed ≡ setting.now.seed) }
    ensures judged { IfOk result (λ run. IsJudgedRun ⟦<DisturbedGroup as Target>⟧.issued
        ⟦<DisturbedGroup as Target>⟧.gave disturbance setting.now run.text.items run.answer.status run.answer.text.items) }
    ensures setting { IsErrOf result StreamFault.Setting ↔ IsTrue (is_refused setting.now) }
    ensures reported { IfErr result IsOfRun }
{
    let manner = Manner {
        playing: Playing::InTurns,
        disturbance,
    };
    let history = run_history(rt, alloc, setting, &manner)?;
    let text = write(alloc, &history)?;
    let answer = history_answer(alloc, history, RulingOut::On)?;
    Ok(FoundRun {
        seed: setting.seed,
        text,
        answer,
    })
}

// Returns the run that is made with the setting and this seed, if no order is found for its history.
fn tried_seed<T: Threads + Wait + Sync>(
    rt: &T,
    alloc: Global,
    setting: &RunSetting,
    seed: u64,
    disturbance: Disturbance,
) -> Result<Option<FoundRun>, StreamFault>
    ensures found { IfOk result (λ found. IfSome found (λ run. (run.seed ≡ seed) × (run.answer.status ≢ Status.Yes)
        × IsJudgedRun ⟦<DisturbedGroup as Target>⟧.issued ⟦<DisturbedGroup as Target>⟧.gave
        disturbance (with_seed setting.now seed) run.text.items run.answer.status run.answer.text.items)) }
    ensures none { IfOk result (λ found. IfNone found (IsCleared ⟦<DisturbedGroup as Target>⟧.issued
        ⟦<DisturbedGroup as Target>⟧.gave disturbance (with_seed setting.now seed))) }
    ensures setting { IsErrOf result StreamFault.Setting ↔ IsTrue (is_refused setting.now) }
    ensures reported { IfErr result IsOfRun }
{
    let run = judged_run(rt, alloc, &RunSetting { seed, ..*setting }, disturbance)?;
    match run.answer.status {
        Status::Yes => Ok(None),
        Status::No | Status::Refuted | Status::Refused => Ok(Some(run)),
    }
}

// Reports, after each hundredth seed, how many were tried and which was the last. `others` is the number of
// seeds before the last.
fn report_tried<H: Watch>(watch: &H, others: u64, last: u64) {
    if others % SEEDS_APART == SEEDS_APART - 1 {
        watch.tried(others / SEEDS_APART + 1, last);
    }
}

/// Returns the first run of these seeds for whose history no order is found. The clients are played in turns,
/// and documents are examined for being provably not linearizable. The watch is called after each hundredth
/// seed.
///
/// Errors: `Setting` if a number of the plan or of the group is refused, before any other; then, whichever
/// comes first, `NoMemory`, and `Recording` as in `recorded_runs::run_played_stream`.
pub fn first_found<T: Threads + Wait + Sync, H: Watch>(
    rt: &T,
    alloc: Global,
    seeds: Seeds,
    setting: &RunSetting,
    disturbance: Disturbance,
    watch: &H,
) -> Result<Option<FoundRun>, StreamFault>
    // The seed of a run that is found is one of the range; its text is that of the run in turns of the
    // setting with this seed, disturbed as asked for; a check of it returns another status than yes; and the
    // runs with all seeds before it get yes.
    ensures found { IfOk result (λ found. IfSome found (λ run. IsFoundRun ⟦<DisturbedGroup as Target>⟧.issued
        ⟦<DisturbedGroup as Target>⟧.gave disturbance setting.now seeds.first seeds.last run.seed run.text.items
        run.answer.status run.answer.text.items)) }
    // If none is found, the runs with all seeds get yes.
    ensures none { IfOk result (λ found. IfNone found (AreCleared ⟦<DisturbedGroup as Target>⟧.issued
        ⟦<DisturbedGroup as Target>⟧.gave disturbance setting.now seeds.first (seeds.last + 1))) }
    // The error is `Setting` exactly if a number of the plan or of the group is refused.
    ensures setting { IsErrOf result StreamFault.Setting ↔ IsTrue (is_refused setting.now) }
    // The only errors are `NoMemory`, `Recording` and `Setting`.
    ensures reported { IfErr result IsOfRun }
{
    let first = seeds.first();
    for seed in first..=seeds.last() {
        match tried_seed(rt, alloc, setting, seed, disturbance)? {
            Some(run) => return Ok(Some(run)),
            None => report_tried(watch, seed - first, seed),
        }
    }
    Ok(None)
}

/// Tries the seeds in order until a run is found for whose history no order is found, and writes the text of
/// that history. The watch is called with what was found, and its seed.
///
/// Returns Yes if a run is found; No if none is, and then nothing is written. Errors: those of `first_found`,
/// after which the writer holds what it held; then `Write`, after which it holds a prefix of the text.
pub fn search_stream<T: Threads + Wait + Sync, H: Watch, W: Write>(
    rt: &T,
    alloc: Global,
    seeds: Seeds,
    setting: &RunSetting,
    disturbance: Disturbance,
    watch: &H,
    writer: &mut W,
) -> Result<Status, StreamFault>
    // If the result is yes, the writer holds the text of the first run that is found after what it held, and
    // the runs with the seeds before it get yes. If it is no, the writer holds what it held, and the runs
    // with all seeds get yes.
    ensures searched { IfOk result (IsSearched ⟦<DisturbedGroup as Target>⟧.issued
        ⟦<DisturbedGroup as Target>⟧.gave disturbance setting.now seeds.first seeds.last (W.contents writer.old)
        (W.contents writer.new)) }
    // After `Write` the writer holds a prefix of such a text after what it held.
    ensures cut_off { IsErrOf result StreamFault.Write
        → HasPrefix (λ _. IsFoundText ⟦<DisturbedGroup as Target>⟧.issued
        ⟦<DisturbedGroup as Target>⟧.gave disturbance setting.now seeds.first seeds.last) (W.contents writer.old)
        (W.contents writer.new) }
    // After any other error the writer holds what it held.
    ensures kept { IfErr result (λ fault. fault ≢ StreamFault.Write
        → Keeps (W.contents writer.old) (W.contents writer.new)) }
    // The error is `Setting` exactly if a number of the plan or of the group is refused.
    ensures setting { IsErrOf result StreamFault.Setting ↔ IsTrue (is_refused setting.now) }
    // The only errors are `Write`, `NoMemory`, `Recording` and `Setting`.
    ensures reported { IfErr result IsRunFault }
{
    match first_found(rt, alloc, seeds, setting, disturbance, watch) {
        Ok(Some(run)) => {
            watch.found(&run);
            write_text(writer, &run.text)?;
            Ok(Status::Yes)
        }
        Ok(None) => {
            watch.none_found(seeds);
            Ok(Status::No)
        }
        Err(fault) => Err(fault),
    }
}
