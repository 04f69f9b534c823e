ghost use Rattle.std.specs.Prelude.{◌≡◌};
ghost use Rattle.disturbances.specs.Schedules.{incident_of as incident_by};

use crate::disturbance::Disturbance;

/// What happens to a group at one point of a schedule. The copies beside the primary are numbered from the
/// next one on, from 0; numbers above the last start again with the first copy.
#[derive(Clone, Copy, Debug, PartialEq, Eq)]
pub enum Incident {
    /// Nothing.
    Quiet,
    /// That copy is cut off.
    CutOff(u32),
    /// That copy is reached again.
    Reach(u32),
    /// The primary is cut off, that copy is reached and becomes the primary, and the old primary is reached
    /// again.
    TakeOver(u32),
}

/// Returns the incident that a word draws.
pub fn incident_of(disturbance: Disturbance, word: u32) -> Incident
    ensures { result ≡ incident_by disturbance word }
{
    let kind = word % 64;
    let copy = word / 64;
    match disturbance {
        Disturbance::None => Incident::Quiet,
        Disturbance::Cuts => {
            if kind < 16 {
                Incident::CutOff(copy)
            } else if kind < 32 {
                Incident::Reach(copy)
            } else {
                Incident::Quiet
            }
        }
        Disturbance::Promotions => {
            if kind < 8 {
                Incident::TakeOver(copy)
            } else {
                Incident::Quiet
            }
        }
        Disturbance::Storm => {
            if kind < 16 {
                Incident::TakeOver(0)
            } else {
                Incident::CutOff(0)
            }
        }
    }
}
