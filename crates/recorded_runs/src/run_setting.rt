use repl_group::Fault;

/// The setting of a run.
#[derive(Clone, Copy, Debug, PartialEq, Eq)]
pub struct RunSetting {
    /// The seed of the plan and of the group.
    pub seed: u64,
    /// The number of clients, 1 to 8.
    pub clients: u32,
    /// The number of calls that each client makes, at least 1; all clients together at most 524,288.
    pub calls: u32,
    /// The number of documents, 1 to 1,024.
    pub docs: u32,
    /// The number of copies of the group, 1 to 5.
    pub copies: u32,
    /// What the group does wrong.
    pub fault: Fault,
}
