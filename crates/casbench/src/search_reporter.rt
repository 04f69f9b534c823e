use command_line::{disturbance_name, fault_name};
use disturbances::Disturbance;
use recorded_runs::RunSetting;
use seed_search::{FoundRun, Seeds, Watch};

/// Reports on standard error how far a search through seeds is, and the arguments that play again the run
/// that it finds. Faults of standard error are ignored.
#[derive(Drop)]
pub struct SearchReporter<'a, R> {
    rt: &'a R,
    setting: RunSetting,
    disturbance: Disturbance,
}

impl<'a, R: Eprint> SearchReporter<'a, R> {
    /// Returns a reporter of runs with the setting under the disturbance.
    pub fn new(rt: &'a R, setting: RunSetting, disturbance: Disturbance) -> SearchReporter<'a, R> {
        SearchReporter {
            rt,
            setting,
            disturbance,
        }
    }
}

impl<R: Eprint> Watch for SearchReporter<'_, R> {
    fn tried(&self, hundreds: u64, last: u64) {
        let _ = eprintln!(self.rt; "casbench: {hundreds}00 seeds tried, the last is {last}");
    }

    fn found(&self, run: &FoundRun) {
        let RunSetting {
            clients,
            calls,
            docs,
            copies,
            fault,
            ..
        } = self.setting;
        let seed = run.seed;
        if let Ok(line) = str::from_utf8(&run.answer.text) {
            let _ = eprint!(self.rt; "casbench: seed {seed}: {line}");
        }
        let fault = fault_name(fault);
        let disturbance = disturbance_name(self.disturbance);
        let _ = eprintln!(self.rt;
            "casbench: again by: run --seed {seed} --clients {clients} --calls {calls} --docs {docs} --copies {copies} --fault {fault} --in-turns --disturb {disturbance}"
        );
    }

    fn none_found(&self, seeds: Seeds) {
        let (first, last) = (seeds.first(), seeds.last());
        let _ = eprintln!(self.rt; "casbench: of the seeds {first} to {last} each gets yes");
    }
}
