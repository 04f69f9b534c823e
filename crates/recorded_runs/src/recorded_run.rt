ghost use Rattle.std.specs.Prelude.{◌≡◌, ◌≢◌, ◌↔◌, IfErr, IfOk, IsErrOf, IsTrue, None, is_some};
ghost use Rattle.std.specs.Io.KnownBytes.{Keeps};
ghost use Rattle.disturbances.specs.Disturbed.{DisturbedState, SubmitsTicket, ReportsProgress};
ghost use Rattle.recorded_runs.specs.Runs.{IsOfRun, IsRunFault, IsRunInTurns, IsRunOf, IsRunText, IsTextInTurns, are_refused, group_at_start, is_refused, plan_of, run_polls};
ghost use Rattle.workload.specs.Playing.{ArePlayed};
ghost use Rattle.workload.specs.Drawing.{draw_refusal};
ghost use Rattle.stream_io.specs.Written.{HasAnswer, HasPrefix};
ghost use Rattle.recorded_runs.specs.aids.Recorded.{IsOfRecording, reports_copies};
ghost use Rattle.workload.specs.Plans.{refusal_reported};

use crate::manner::{Manner, Playing};
use crate::run_fault::{fault_of_play, fault_of_run};
use crate::run_setting::RunSetting;
use disturbances::{Disturbance, DisturbedCore, DisturbedGroup};
use events::History;
use history::write;
use recorder::{ClockRecorder, CloseFault, StartFault};
use repl_group::CoreFault;
use std::alloc::Global;
use std::io::Write;
use std::sync::Wait;
use std::thread::Threads;
use stream_io::{Status, StreamFault, write_text};
use workload::{Plan, PlanFault, Target, play_in_turns, run_clients};

/// The greatest number of times that a client of a run polls a call.
pub const RUN_POLLS: u32 = 1_000;

// Whether a number of the plan is refused.
fn is_plan_refused(plan: &Result<Plan, PlanFault>) -> bool
    ensures { result ≡ is_some (refusal_reported plan.now) }
{
    matches!(plan, Err(PlanFault::Zero | PlanFault::TooMany))
}

// The group of the setting, under the schedule of the disturbance. The length of the schedule is the number
// of all calls.
fn core_of(
    alloc: Global,
    setting: &RunSetting,
    disturbance: Disturbance,
) -> Result<DisturbedCore, CoreFault>
    requires drawn { draw_refusal setting.now.clients setting.now.calls setting.now.docs ≡ None }
    ensures start { IfOk result (λ core. core ≡ group_at_start setting.now disturbance) }
    ensures copies { reports_copies result ≡ are_refused setting.now.copies }
{
    let RunSetting {
        seed,
        clients,
        calls,
        copies,
        fault,
        ..
    } = *setting;
    DisturbedCore::new(alloc, copies, fault, seed, disturbance, clients * calls)
}

// The plan and the group of the setting. That a number is refused is reported before `NoMemory`.
fn plan_and_core(
    alloc: Global,
    setting: &RunSetting,
    disturbance: Disturbance,
) -> Result<(Plan, DisturbedCore), StreamFault>
    ensures plan { IfOk result (λ made. made.0 ≡ plan_of setting.now) }
    ensures start { IfOk result (λ made. made.1 ≡ group_at_start setting.now disturbance) }
    ensures setting { IsErrOf result StreamFault.Setting ↔ IsTrue (is_refused setting.now) }
    ensures reported { IfErr result IsOfRun }
{
    let RunSetting {
        seed,
        clients,
        calls,
        docs,
        ..
    } = *setting;
    let plan = Plan::draw(alloc, seed, clients, calls, docs);
    if is_plan_refused(&plan) {
        return Err(StreamFault::Setting);
    }
    match core_of(alloc, setting, disturbance) {
        Ok(core) => match plan {
            Ok(plan) => Ok((plan, core)),
            Err(_) => Err(StreamFault::NoMemory),
        },
        Err(CoreFault::NoMemory) => Err(StreamFault::NoMemory),
        Err(CoreFault::Copies) => Err(StreamFault::Setting),
    }
}

// What the clients of the plan record against the group, each on a thread of its own.
fn record_on_threads<T: Threads + Wait + Sync>(
    rt: &T,
    alloc: Global,
    plan: &Plan,
    group: &DisturbedGroup,
) -> Result<History, StreamFault>
    ensures run { IfOk result (IsRunOf ⟦<DisturbedGroup as Target>⟧.issued ⟦<DisturbedGroup as Target>⟧.gave plan.now) }
    ensures reported { IfErr result IsOfRecording }
{
    let (recorder, pens) = match ClockRecorder::start(alloc, plan.clients()) {
        Ok(started) => started,
        Err(StartFault::NoMemory) => return Err(StreamFault::NoMemory),
        Err(StartFault::Count) => unreachable!(),
    };
    let pens = match run_clients(rt, alloc, plan, group, &recorder, pens, RUN_POLLS) {
        Ok(pens) => pens,
        Err(fault) => return Err(fault_of_run(fault)),
    };
    match recorder.close(pens) {
        Ok(history) => Ok(history),
        Err(CloseFault::NoMemory) => Err(StreamFault::NoMemory),
        Err(CloseFault::PenMissing(_, _) | CloseFault::Mismatch) => unreachable!(),
    }
}

// What the clients of the plan record when they are played in turns against the group.
fn record_in_turns(
    alloc: Global,
    plan: &Plan,
    mut core: DisturbedCore,
) -> Result<History, StreamFault>
    ensures played { IfOk result (λ events. (after : DisturbedState)
        × ArePlayed SubmitsTicket ReportsProgress run_polls plan.now core after events) }
    ensures run { IfOk result (IsRunOf ⟦<DisturbedGroup as Target>⟧.issued ⟦<DisturbedGroup as Target>⟧.gave plan.now) }
    ensures reported { IfErr result IsOfRecording }
{
    match play_in_turns(alloc, plan, &mut core, RUN_POLLS) {
        Ok(history) => Ok(history),
        Err(fault) => Err(fault_of_play(fault)),
    }
}

/// Returns the history that the clients of the setting's plan record against its group, in this manner.
///
/// In turns the setting and the disturbance determine it, to the end: the plan of the seed, the group at its
/// start, the words of the generator, the incidents of the schedule, and which client is visited when. So a
/// run of another seed, another fault, other copies or another disturbance does not meet the contract. On
/// threads nothing is known of the group but what its type guarantees, since it lies under a lock: that a run
/// is of the setting's group, and invents no reply, is tested. For the errors, see `run_played_stream`.
pub fn run_history<T: Threads + Wait + Sync>(
    rt: &T,
    alloc: Global,
    setting: &RunSetting,
    manner: &Manner,
) -> Result<History, StreamFault>
    // Whatever the manner, the history is a recording of pens, one for each client of the plan, whose lists
    // are the runs of these clients.
    ensures run { IfOk result (IsRunOf ⟦<DisturbedGroup as Target>⟧.issued ⟦<DisturbedGroup as Target>⟧.gave (plan_of setting.now)) }
    // In turns it is exactly the run that the setting and the disturbance determine.
    ensures in_turns { manner.now.playing ≡ Playing.InTurns
        → IfOk result (IsRunInTurns setting.now manner.now.disturbance) }
    // The error is `Setting` exactly if a number of the plan or of the group is refused.
    ensures setting { IsErrOf result StreamFault.Setting ↔ IsTrue (is_refused setting.now) }
    // The only errors are `NoMemory`, `Recording` and `Setting`.
    ensures reported { IfErr result IsOfRun }
{
    let (plan, core) = plan_and_core(alloc, setting, manner.disturbance)?;
    match manner.playing {
        Playing::OnThreads => {
            let group = DisturbedGroup::shared(core);
            let history = record_on_threads(rt, alloc, &plan, &group)?;
            Ok(history)
        }
        Playing::InTurns => {
            let history = record_in_turns(alloc, &plan, core)?;
            Ok(history)
        }
    }
}

// The text of the history that is recorded in this manner.
fn run_text<T: Threads + Wait + Sync>(
    rt: &T,
    alloc: Global,
    setting: &RunSetting,
    manner: &Manner,
) -> Result<Vec<u8>, StreamFault>
    ensures text { IfOk result (λ text. IsRunText ⟦<DisturbedGroup as Target>⟧.issued
        ⟦<DisturbedGroup as Target>⟧.gave setting.now text.items) }
    ensures in_turns { manner.now.playing ≡ Playing.InTurns
        → IfOk result (λ text. IsTextInTurns setting.now manner.now.disturbance text.items) }
    ensures setting { IsErrOf result StreamFault.Setting ↔ IsTrue (is_refused setting.now) }
    ensures reported { IfErr result IsOfRun }
{
    let history = run_history(rt, alloc, setting, manner)?;
    let text = write(alloc, &history)?;
    Ok(text)
}

/// Runs clients against a replication group in this manner, and writes the text of the history that they
/// recorded.
///
/// The seed draws the plan of the clients, the steps of the group, and the schedule by which it is disturbed,
/// which has an incident for each call of all clients. If the clients run in turns, the text depends only on
/// the setting and the disturbance. If each runs on a thread of its own, that also holds for one client; with
/// more clients it also depends on which thread was faster. A client polls a call at most 1,000 times.
///
/// Errors: `Setting` if a number of the plan or of the group is refused, before any other; then, whichever
/// comes first, `NoMemory`, and `Recording` if an event or an operation was refused for another reason; last
/// `Write`, after which a prefix of the text is written. Closing loses no recording, and a recording and a
/// group have room for all turns of a plan: that `Recording` is never returned is tested, not proved. It
/// waits for its threads, and these for the group's lock.
pub fn run_played_stream<T: Threads + Wait + Sync, W: Write>(
    rt: &T,
    alloc: Global,
    setting: &RunSetting,
    manner: &Manner,
    writer: &mut W,
) -> Result<Status, StreamFault>
    // Whatever the manner, the text written is a history text of a recording of pens, one for each client of
    // the plan that is drawn, whose lists are the runs of these clients; and the status is yes.
    ensures written { IfOk result (λ status. (status ≡ Status.Yes) × HasAnswer (IsRunText
        ⟦<DisturbedGroup as Target>⟧.issued ⟦<DisturbedGroup as Target>⟧.gave setting.now)
        (W.contents writer.old) (W.contents writer.new)) }
    // In turns it is the text of exactly the run that the setting and the disturbance determine.
    ensures in_turns { manner.now.playing ≡ Playing.InTurns → IfOk result (λ _. HasAnswer (IsTextInTurns setting.now
        manner.now.disturbance) (W.contents writer.old) (W.contents writer.new)) }
    // After `Write` the writer holds a prefix of such a text after what it held.
    ensures cut_off { IsErrOf result StreamFault.Write → HasPrefix (λ _. IsRunText
        ⟦<DisturbedGroup as Target>⟧.issued ⟦<DisturbedGroup as Target>⟧.gave setting.now)
        (W.contents writer.old) (W.contents writer.new) }
    // After any error but `Write` the writer holds what it held.
    ensures kept { IfErr result (λ fault. fault ≢ StreamFault.Write
        → Keeps (W.contents writer.old) (W.contents writer.new)) }
    // The error is `Setting` exactly if a number of the plan or of the group is refused.
    ensures setting { IsErrOf result StreamFault.Setting ↔ IsTrue (is_refused setting.now) }
    // The only errors are `Write`, `NoMemory`, `Recording` and `Setting`.
    ensures reported { IfErr result IsRunFault }
{
    match run_text(rt, alloc, setting, manner) {
        Ok(text) => {
            write_text(writer, &text)?;
            Ok(Status::Yes)
        }
        Err(fault) => Err(fault),
    }
}

/// Runs clients against a replication group that isn't disturbed, and writes the text of the history that
/// they recorded: `run_played_stream` with the clients on threads. Its errors are those of
/// `run_played_stream`.
pub fn run_stream<T: Threads + Wait + Sync, W: Write>(
    rt: &T,
    alloc: Global,
    setting: &RunSetting,
    writer: &mut W,
) -> Result<Status, StreamFault>
    // The text written is a history text of a recording of pens, one for each client of the plan that is
    // drawn, whose lists are the runs of these clients; and the status is yes.
    ensures written { IfOk result (λ status. (status ≡ Status.Yes) × HasAnswer (IsRunText
        ⟦<DisturbedGroup as Target>⟧.issued ⟦<DisturbedGroup as Target>⟧.gave setting.now)
        (W.contents writer.old) (W.contents writer.new)) }
    // After `Write` the writer holds a prefix of such a text after what it held.
    ensures cut_off { IsErrOf result StreamFault.Write → HasPrefix (λ _. IsRunText
        ⟦<DisturbedGroup as Target>⟧.issued ⟦<DisturbedGroup as Target>⟧.gave setting.now)
        (W.contents writer.old) (W.contents writer.new) }
    // After any error but `Write` the writer holds what it held.
    ensures kept { IfErr result (λ fault. fault ≢ StreamFault.Write
        → Keeps (W.contents writer.old) (W.contents writer.new)) }
    // The error is `Setting` exactly if a number of the plan or of the group is refused.
    ensures setting { IsErrOf result StreamFault.Setting ↔ IsTrue (is_refused setting.now) }
    // The only errors are `Write`, `NoMemory`, `Recording` and `Setting`.
    ensures reported { IfErr result IsRunFault }
{
    let manner = Manner {
        playing: Playing::OnThreads,
        disturbance: Disturbance::None,
    };
    run_played_stream(rt, alloc, setting, &manner, writer)
}
