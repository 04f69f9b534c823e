ghost use Rattle.std.specs.Prelude.{IfOk};

use crate::known::LastPairs;
use crate::polled_call::PolledCall;
use std::alloc::{AllocError, Global};

/// A client that is played in turns, between two visits.
#[derive(Drop)]
pub struct Player {
    /// The number of the client.
    pub client: usize,
    pub known: LastPairs,
    /// The number of turns that it has begun.
    pub begun: usize,
    /// The call of the last of these turns, until it has its ending.
    pub open_call: Option<PolledCall>,
}

impl Player {
    ghost use Rattle.workload.specs.Playing.{IsNewPlayer};

    /// Returns a client before its first turn.
    pub fn new(alloc: Global, client: usize) -> Result<Player, AllocError>
        ensures { IfOk result (IsNewPlayer client) }
    {
        Ok(Player {
            client,
            known: LastPairs::nothing(alloc)?,
            begun: 0,
            open_call: None,
        })
    }
}
