ghost use Rattle.std.specs.Prelude.{◌≡◌};
ghost use Rattle.api_lines.specs.Pairs.{pair_of as the_pair_of, pair_parsed, whole_parsed};

use crate::text_fault::TextCause;
use version_pair::Pair;

/// A field that is a number: whole and below 2^64, spelled by digits alone, or not.
#[derive(Clone, Copy, Debug, PartialEq, Eq)]
pub enum Number {
    /// It is this whole number.
    Whole(u64),
    /// It is not whole, not below 2^64, or not spelled by digits alone.
    NotWhole,
}

impl Number {
    /// Returns the whole number. Errors: `Range` exactly if it is not whole.
    pub fn whole(self) -> Result<u64, TextCause>
        ensures { result ≡ whole_parsed self }
    {
        match self {
            Number::Whole(n) => Ok(n),
            Number::NotWhole => Err(TextCause::Range),
        }
    }
}

/// Returns the pair of a term and a sequence number; `None` if one of them is outside its range.
pub fn pair_of(term: u64, seq: u64) -> Option<Pair>
    ensures { result ≡ the_pair_of term seq }
{
    Pair::new(term, seq)
}

/// Returns the pair of a sequence number and a term, each of which may be absent: `None` if both are absent.
/// Errors: `Half` if only one is present, `Range` if one is not whole or is outside its range.
pub fn pair_of_numbers(seq: Option<Number>, term: Option<Number>) -> Result<Option<Pair>, TextCause>
    // The pair or the error is that of the definition.
    ensures { result ≡ pair_parsed seq term }
{
    let (seq, term) = match (seq, term) {
        (None, None) => return Ok(None),
        (Some(seq), Some(term)) => (seq.whole()?, term.whole()?),
        _ => return Err(TextCause::Half),
    };
    match pair_of(term, seq) {
        Some(pair) => Ok(Some(pair)),
        None => Err(TextCause::Range),
    }
}
