/// Evidence that no order of a history's calls explains it. Calls are named by their numbers.
#[derive(Debug, Clone, Copy, PartialEq, Eq)]
pub enum Refuted {
    /// Two different writes of one shard were performed with the same pair.
    PairTwice(u64, u64),
    /// A get found a pair with a number, and no write can have given its document both.
    NoWriter(u64),
    /// A get, and a write of its document that was answered before the get was called: the get found a pair
    /// below the write's.
    StaleGet(u64, u64),
    /// A get that found nothing, and an index or a create of its document that was answered before the get
    /// was called: no delete called before the get's reply may have removed the document after that.
    MissedWrite(u64, u64),
    /// Two writes of one document. The second was performed although its condition asks for a pair below the
    /// first one's, and the first comes before it: it was answered before the second was called, or has the
    /// lesser pair.
    StaleSwap(u64, u64),
    /// A call at which its document is provably not linearizable (ruled out): whatever became of the calls
    /// without a reply, after the reply to this one nothing is left that the document may be.
    RuledOut(u64),
}
