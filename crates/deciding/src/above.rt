ghost use Rattle.deciding.specs.Above.{IsLeastAbove};

use version_pair::Pair;

/// Returns the least pair above another one, or the least of all pairs; `None` if no pair is above it.
pub fn least_above(lower: Option<Pair>) -> Option<Pair>
    ensures { IsLeastAbove lower result }
{
    match lower {
        None => Pair::new(1, 0),
        Some(pair) => match Pair::new(pair.term(), pair.seq() + 1) {
            Some(next) => Some(next),
            None => Pair::new(pair.term() + 1, 0),
        },
    }
}
