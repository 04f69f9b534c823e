//! Tables and drawings of calls: which calls are shown, in which lanes, and the versions of a document below them.
//!
//! ```text
//! let named = Named::of(alloc, &unexplained, &subjects, headline)?; // the calls that evidence, reasons and the headline name
//! let drawing = drawing_of(&draft, &drawn)?;
//! ```
#![tactic(auto)]

mod bars;
mod call_table;
mod draw;
mod drawn;
mod kept;
mod lanes;
mod named;
mod order_table;
mod scale;
mod version_boxes;

pub use call_table::Listing;
pub use draw::drawing_of;
pub use drawn::{DrawingKind, Drawn};
pub use kept::{Kept, MOST_DESCRIBED, MOST_DRAWN};
pub use named::{Named, rest_of};
pub use order_table::places_reported;
