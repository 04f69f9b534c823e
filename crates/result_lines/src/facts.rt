use version_pair::DocId;

/// Where the reply is at which the search for an order first fails.
#[derive(Debug, Drop)]
pub struct BrokenReply {
    /// The document of its call.
    pub document: DocId,
    /// The document's shard.
    pub shard: u32,
    /// The line of its call, from 1.
    pub call_line: u64,
    /// Its own line.
    pub reply_line: u64,
    /// When that line was written, in UTC, if it says so.
    pub time: Option<String>,
}

/// A reading of histories, by the values of its options.
#[derive(Clone, Copy, Debug, PartialEq, Eq)]
pub struct NamedReading {
    /// What a reply to a get shows: that of `--gets`.
    pub gets: &'static str,
    /// What the status conflict shows: that of `--conflicts`.
    pub conflicts: &'static str,
    /// How often a write is performed: that of `--writes`.
    pub writes: &'static str,
    /// What lost lines may say: that of `--failed`.
    pub failed: &'static str,
}

/// What an object says beside what its line reports.
#[derive(Debug, Drop)]
pub struct Facts<'a> {
    /// The file of the history, or `-`.
    pub file: &'a str,
    /// The file of the witness, if there is one.
    pub witness: Option<&'a str>,
    /// Whether it is proved that an order explains the history, or that none does, if one of these is answered.
    pub proved: Option<bool>,
    /// The reading of the history, if it is named.
    pub reading: Option<NamedReading>,
    /// Where the search first fails, if it does.
    pub broken_reply: Option<BrokenReply>,
    /// What explains the answer, if that is asked for.
    pub explanation: Option<&'a str>,
    /// How long the answer took, if that is known.
    pub milliseconds: Option<u64>,
}
