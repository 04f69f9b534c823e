use crate::voids::Voids;
use events::History;

/// What a text is read as.
#[derive(Debug, Drop)]
pub struct TextRead {
    /// The history of its events.
    pub history: History,
    /// The numbers of its lost calls of which it says that nothing was performed.
    pub voids: Voids,
}
