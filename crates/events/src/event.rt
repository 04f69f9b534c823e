use doc_register::{Op, Reply};
use version_pair::DocId;

/// One event of a history.
#[derive(Debug, Drop)]
pub enum Event {
    /// The call numbered `no`, on a document of a shard, was made. The shard is the first field, so that an
    /// event takes 64 bytes.
    Call {
        shard: u32,
        no: u64,
        id: DocId,
        op: Op,
    },
    /// The call numbered `no` was answered.
    Reply {
        no: u64,
        reply: Reply,
    },
    /// The outcome of the call numbered `no` will never be known: it is lost (indeterminate).
    Lost {
        no: u64,
    },
}
