ghost use Rattle.std.specs.Prelude.{◌≡◌};
ghost use Rattle.api_lines.specs.declared.text_fault.LineFault.TheVariants.{NoMemory as Unread, Reported};
ghost use Rattle.api_lines.specs.Faults.{text_fault};

use std::alloc::AllocError;
use thiserror::Error;

/// The reason why a line was refused.
#[derive(Clone, Copy, Debug, PartialEq, Eq, Error)]
pub enum TextCause {
    /// It has more than 65,536 bytes.
    #[error("the line has more than 65,536 bytes")]
    Long,
    /// It comes after the 4,194,304th line.
    #[error("the text has more than 4,194,304 lines")]
    Lines,
    /// It is not JSON.
    #[error("the line is no JSON")]
    Json,
    /// It is not an object, a required field is missing, a field is of another kind, or its `e` or `op` is
    /// unknown.
    #[error("the line is JSON and no event")]
    Shape,
    /// The document's id is empty or has more than 512 bytes.
    #[error("the document's id is empty or has more than 512 bytes")]
    Id,
    /// A number is not whole or is outside its range.
    #[error("a number is not whole or outside its range")]
    Range,
    /// Only one of the term and the sequence number of a pair is present.
    #[error("one of the two conditions is there without the other")]
    Half,
    /// The body of a reply names another document.
    #[error("the reply names another document than its call")]
    Stranger,
    /// An earlier call has this number.
    #[error("an earlier call has this number")]
    SecondCall,
    /// No call has this number.
    #[error("no call has this number")]
    NoCall,
    /// The call with this number has an ending already.
    #[error("the call of this number has ended already")]
    Ended,
    /// The history has its greatest number of events, or the witness its greatest number of documents and
    /// places.
    #[error("the text has its most events")]
    Full,
    /// An earlier call names another shard for the document.
    #[error("the document was called before on another shard")]
    ShardMoved,
}

/// The first line that was refused, counted from 1, and why.
#[derive(Clone, Copy, Debug, PartialEq, Eq, Error)]
#[error("line {line}: {cause}")]
pub struct TextFault {
    pub line: u64,
    pub cause: TextCause,
}

/// The reason why a text was not read.
#[derive(Clone, Copy, Debug, PartialEq, Eq, Error)]
pub enum ReadFault {
    /// A line was refused.
    #[error("{0}")]
    Text(TextFault),
    /// Memory was refused.
    #[error("no memory")]
    NoMemory,
}

/// The reason why a line was not read.
#[derive(Clone, Copy, Debug, PartialEq, Eq, Error)]
pub enum LineFault {
    /// It was refused.
    #[error("{0}")]
    Reported(TextCause),
    /// Memory was refused.
    #[error("no memory")]
    NoMemory,
}

impl LineFault {
    /// Returns the fault as one of the text's line with this number.
    pub fn at(self, line: u64) -> ReadFault
        ensures { result ≡ text_fault line self }
    {
        match self {
            LineFault::Reported(cause) => ReadFault::Text(TextFault { line, cause }),
            LineFault::NoMemory => ReadFault::NoMemory,
        }
    }
}

impl From<TextCause> for LineFault {
    ghost from_gives = { λ cause fault. fault ≡ Reported cause };

    fn from(cause: TextCause) -> LineFault {
        LineFault::Reported(cause)
    }
}

impl From<AllocError> for LineFault {
    ghost from_gives = { λ _ fault. fault ≡ Unread };

    fn from(_: AllocError) -> LineFault {
        LineFault::NoMemory
    }
}
