//! The workload: what a target of recorded calls is, plans of what clients ask of it, and clients that run on
//! threads or in turns.
//!
//! ```text
//! let plan = Plan::draw(alloc, 1, 4, 200, 3)?; // the seed, clients, calls of each, documents
//! let pens = run_clients(rt, alloc, &plan, &target, &recorder, pens, 1_000)?; // at most 1,000 polls a call
//! ```
#![tactic(auto)]

mod asked;
mod client;
mod drawing;
mod known;
mod open_call;
mod owned_target;
mod plan;
mod plan_fault;
mod play_fault;
mod player;
mod playing;
mod polled_call;
mod rounds;
mod run_fault;
mod running;
mod seat;
mod target;
mod turn;
mod visiting;

pub use owned_target::OwnedTarget;
pub use plan::{MOST_CLIENTS, MOST_DOCS, MOST_TURNS, Plan};
pub use plan_fault::PlanFault;
pub use play_fault::PlayFault;
pub use playing::play_in_turns;
pub use rounds::run_in_turns;
pub use run_fault::RunFault;
pub use running::run_clients;
pub use target::{Progress, Target, TargetFault, Ticket};
pub use turn::{Kind, Turn};
