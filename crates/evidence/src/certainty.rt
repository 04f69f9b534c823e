/// How much an answer says of a history for which no order was found.
#[derive(Clone, Copy, Debug, PartialEq, Eq)]
pub enum Certainty {
    /// Calls of the history are evidence that there is no order.
    Evident,
    /// A document is ruled out: provably no order explains its calls, whatever became of those without a
    /// reply. The line says so.
    ReportedRuledOut,
    /// The document of the offence is ruled out, and the line doesn't say so.
    RuledOut,
    /// Each write of the history was answered, so there is no order.
    Answered,
    /// Each write of the offence's document was answered, so there is no order of its calls.
    DocumentAnswered,
    /// There may be an order that was not found.
    Undecided,
}
