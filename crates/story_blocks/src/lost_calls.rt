use std::alloc::Global;
use version_pair::NoMemory;

/// How a call ended whose outcome is lost.
#[derive(Clone, Copy, PartialEq, Eq)]
pub enum LostEnding {
    /// With a reply of this HTTP status, which the table of replies doesn't have.
    Answered(i64),
    /// The recorder states that nothing was performed.
    Void,
}

/// A call whose outcome is lost, and how it ended.
#[derive(Clone, Copy)]
pub struct LostCall {
    pub no: u64,
    /// The position of its ending.
    pub place: usize,
    pub ending: LostEnding,
}

/// The calls of a history whose outcome is lost, as far as their lines say how they ended.
#[derive(Drop)]
pub struct LostCalls {
    // By their numbers, rising.
    list: Vec<LostCall>,
}

impl LostCalls {
    /// Returns none. It allocates nothing.
    pub fn new(alloc: Global) -> LostCalls {
        LostCalls {
            list: Vec::new(alloc),
        }
    }

    /// Returns these calls.
    pub fn of(calls: Vec<LostCall>) -> LostCalls {
        let mut list = calls;
        list.sort_unstable_by_key(|call| call.no);
        LostCalls { list }
    }

    /// Returns the call with this number, if it is one of them.
    pub fn get(&self, no: u64) -> Option<LostCall> {
        let before = self.list.partition_point(|call| call.no < no);
        match self.list.get(before) {
            Some(call) if call.no == no => Some(*call),
            _ => None,
        }
    }
}
