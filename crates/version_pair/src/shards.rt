/// The number of shards. They are numbered from 0.
pub const SHARDS: u64 = 1024;
