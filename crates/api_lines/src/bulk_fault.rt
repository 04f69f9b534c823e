use thiserror::Error;

/// The reason why the body of a bulk request, or of its reply, is refused. Lines are counted from 1 and items
/// from 0.
#[derive(Clone, Copy, Debug, PartialEq, Eq, Error)]
pub enum BulkFault {
    /// The line has more than 65,536 bytes or is not JSON; line 1 for the body of a reply.
    #[error("line {0} is too long or no JSON")]
    Syntax(u64),
    /// The line is not an action: an object with the one key `index`, `delete` or `create`, holding an object
    /// with an id.
    #[error("line {0} is no action")]
    Action(u64),
    /// The line is not a source: an object with a whole number `k`. If the source is missing, the line after
    /// the last one.
    #[error("line {0} is no source")]
    Source(u64),
    /// Only one of the term and the sequence number of the action's condition is present.
    #[error("line {0} has one of the two conditions without the other")]
    Half(u64),
    /// A number of the action's condition is not whole or is outside its range.
    #[error("line {0} has a number outside its range")]
    Range(u64),
    /// The reply has no list of items, or the list and the request differ in their number of items; or a call
    /// would be numbered above 2^64-1.
    #[error("the reply has another number of items than the request")]
    Count,
    /// The item is not a reply to its action, or is about another document.
    #[error("item {0} of the reply doesn't answer its action")]
    Kind(usize),
    /// Memory was refused.
    #[error("no memory")]
    NoMemory,
}
