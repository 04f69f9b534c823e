use disturbances::Disturbance;

/// Where the clients of a run take their turns.
#[derive(Clone, Copy, Debug, PartialEq, Eq)]
pub enum Playing {
    /// Each on a thread of its own, if one can be made.
    OnThreads,
    /// All on one thread, in rounds: each of them does one thing in a round.
    InTurns,
}

/// How a run is carried out, beside its setting.
#[derive(Clone, Copy, Debug, PartialEq, Eq)]
pub struct Manner {
    /// Where the clients take their turns.
    pub playing: Playing,
    /// How the group is disturbed meanwhile.
    pub disturbance: Disturbance,
}
