ghost use Rattle.std.specs.Prelude.{◌≡◌, IfOk};
ghost use Rattle.disturbances.specs.Schedules.{after_words, generator_of, incident_before, incidents_drawn, schedule_drawn};

use crate::disturbance::Disturbance;
use crate::incident::{Incident, incident_of};
use rand_core::utils::NextWord;
use rand_pcg::Lcg64Xsh32;
use std::alloc::{AllocError, Global};
use std::marker::Model;

// The stream of generator words from which a schedule is drawn.
const STREAM: u64 = 56;

/// The number of polls from one incident to the next.
pub const POLLS_APART: u64 = 16;

/// What happens to a group while it is polled: one incident every 16 polls, and after the last incident the
/// first one again.
///
/// Contracts see the list of the incidents. It is a function of the disturbance, the seed and the length.
#[derive(Debug, Drop)]
pub struct Schedule {
    incidents: Vec<Incident>,
}

impl Model for Schedule {
    ghost use Rattle.std.specs.Prelude.{List};
    ghost use Rattle.disturbances.specs.declared.incident.Incident.{Incident};

    ghost Value = { List Incident };

    ghost view = { λ s. s.incidents.items };
}

// That many incidents, each drawn from a word.
#[tactic(auto, using(crate::proofs::ScheduleLemmas::more_words), unfolding(crate::specs::Schedules::incidents_drawn, crate::specs::Schedules::after_words))]
fn draw_incidents(
    alloc: Global,
    disturbance: Disturbance,
    seed: u64,
    length: u32,
) -> Result<Vec<Incident>, AllocError>
    ensures { IfOk result (λ drawn. drawn.items ≡ incidents_drawn disturbance length (generator_of seed)) }
{
    let mut random = Lcg64Xsh32::new(seed, STREAM);
    let mut incidents = Vec::with_capacity(alloc, length as usize)?;
    for _ in 0..length {
        incidents.push(incident_of(disturbance, random.next_word()))?;
    }
    Ok(incidents)
}

impl Schedule {
    /// Returns the schedule that is drawn from the seed, of that many incidents, one word of a generator
    /// each; of no incidents if the disturbance is `None`.
    pub fn draw(
        alloc: Global,
        disturbance: Disturbance,
        seed: u64,
        length: u32,
    ) -> Result<Schedule, AllocError>
        // The schedule is the one that the seed draws.
        ensures { IfOk result (λ schedule. schedule ≡ schedule_drawn disturbance seed length) }
    {
        let incidents = match disturbance {
            Disturbance::None => Vec::new(alloc),
            Disturbance::Cuts | Disturbance::Promotions | Disturbance::Storm => {
                draw_incidents(alloc, disturbance, seed, length)?
            }
        };
        Ok(Schedule { incidents })
    }

    /// Returns what happens before the poll of this number, counted from 0.
    pub fn before_poll(&self, number: u64) -> Incident
        ensures { result ≡ incident_before self.now number }
    {
        if number % POLLS_APART != 0 || self.incidents.is_empty() {
            return Incident::Quiet;
        }
        let place = number / POLLS_APART % self.incidents.len() as u64;
        match self.incidents.get(place as usize) {
            Some(incident) => *incident,
            None => Incident::Quiet,
        }
    }
}
