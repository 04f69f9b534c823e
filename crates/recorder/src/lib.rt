//! A recorder of histories. Client threads record calls, replies and lost calls through pens, and what all
//! pens recorded becomes one history. `Recorder` has one lock, `ClockRecorder` one atomic number.
//!
//! ```text
//! let (recorder, mut pens) = ClockRecorder::start(alloc, 4)?;
//! let no = recorder.call(&mut pens[0], id, Op::Get)?; // before the request leaves
//! recorder.reply(&mut pens[0], no, Reply::Missing)?; // after the reply was received
//! let history = recorder.close(pens)?;
//! ```
#![tactic(auto)]

mod clock;
mod clock_pen;
mod clock_recorder;
mod clock_view;
mod closing;
mod fault;
pub mod laws;
mod notes;
mod own_call;
mod pen;
mod recorded;
mod recorder;
mod recording;
mod same_event;
mod strand;
mod unnumbered;

pub use clock_pen::ClockPen;
pub use clock_recorder::ClockRecorder;
pub use fault::{CloseFault, RecFault, StartFault};
pub use pen::Pen;
pub use recorder::{MOST_PENS, Recorder};
pub use recording::Recording;
