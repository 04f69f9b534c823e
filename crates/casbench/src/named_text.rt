use report::{Kept, Status, StreamFault};

/// What is written of a text: with which status, and of how many calls, if that is known.
#[derive(Drop)]
pub struct Written {
    pub status: Status,
    pub calls: Option<usize>,
    pub text: Vec<u8>,
}

/// A text that is checked under its name.
#[derive(Drop)]
pub struct NamedText<'a, S> {
    pub name: &'a str,
    pub source: S,
    /// What is kept of its lines.
    pub kept: Kept,
    /// What is written of it, or why nothing is; `None` until it is checked.
    pub written: Option<Result<Written, StreamFault>>,
}
