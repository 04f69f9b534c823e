use crate::block::Mark;

/// The least width of a drawing, in the unit of all its measures.
pub const WIDTH: u64 = 1180;

/// The height of a bar.
pub const BAR_HEIGHT: u64 = 12;

/// The height of the box of a version.
pub const BOX_HEIGHT: u64 = 40;

/// Where the first lane begins, and the height of a lane.
pub const TOP: u64 = 34;

pub const LANE_HEIGHT: u64 = 40;

/// A mark at an event.
#[derive(Drop)]
pub struct EventMark {
    pub x: u64,
    /// The number of its line.
    pub line: u64,
    /// The note on the line, if it is one.
    pub note: String,
}

/// The bar of a call.
#[derive(Drop)]
pub struct Bar {
    pub mark: Mark,
    /// Whether it has no reply.
    pub is_open: bool,
    pub x: u64,
    pub y: u64,
    pub width: u64,
    /// Where the call takes effect, if that is known and shown.
    pub effect: Option<u64>,
    /// Where its words begin.
    pub words_x: u64,
    /// What was asked and answered, in short.
    pub words: String,
    /// What is said of it if it is pointed at.
    pub tip: String,
}

/// The name of a client, and where it stands from above.
#[derive(Drop)]
pub struct LaneName {
    pub y: u64,
    pub name: String,
}

/// The box of a version of the document.
#[derive(Drop)]
pub struct VersionBox {
    pub x: u64,
    pub y: u64,
    pub width: u64,
    /// The version, and the number that it has.
    pub version: String,
    /// The call that made it.
    pub maker: String,
}

/// The calls from left to right by their events, and the versions of the document below.
#[derive(Drop)]
pub struct Drawing {
    pub width: u64,
    pub height: u64,
    /// The line of the first event.
    pub first_line: u64,
    /// The broken reply, if it is to be marked.
    pub here: Option<EventMark>,
    pub notes: Vec<EventMark>,
    /// Where the lanes end.
    pub lanes_end: u64,
    pub names: Vec<LaneName>,
    pub bars: Vec<Bar>,
    pub boxes: Vec<VersionBox>,
    /// What the boxes are.
    pub boxes_title: &'static str,
    /// How to read it.
    pub caption: &'static str,
}

/// Returns the place that is so far to the right of another one, or below it. No drawing is so large that the
/// sum stops at the greatest number.
pub fn after(place: u64, distance: u64) -> u64 {
    place.saturating_add(distance)
}
