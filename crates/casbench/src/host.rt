use command_line::{Form, PageRequest};
use events::HashKeys;
use report::CheckOptions;
use std::alloc::Global;

/// What the commands run with.
#[derive(Drop)]
pub struct Host<'a, R, T> {
    /// Opens files, writes to standard error and reads the clock.
    pub rt: &'a R,
    /// What workers run on.
    pub threads: &'a T,
    /// Where memory comes from.
    pub alloc: Global,
    /// Ids and pairs are found by hashes with these keys.
    pub keys: HashKeys,
}

/// How texts are checked.
#[derive(Clone, Copy)]
pub struct CheckTask {
    /// Workers, the reading, and whether documents are ruled out.
    pub options: CheckOptions,
    /// How many calls a yes must at least be about.
    pub at_least: u64,
}

/// How a history is checked and explained.
#[derive(Clone, Copy)]
pub struct ExplainTask<'a> {
    /// Workers, the reading, and whether documents are ruled out.
    pub options: CheckOptions,
    /// Whether the answer is a line or an object.
    pub form: Form,
    /// The page that is asked for.
    pub page: Option<PageRequest<'a>>,
}
