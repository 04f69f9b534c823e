ghost use Rattle.std.specs.Prelude.{IfSome};
ghost use Rattle.evidence.specs.Evidence.{IsOfCalls};

use crate::holding::is_overtaken;
use crate::refuted::Refuted;
use crate::search::calls_with_pairs::{GetWithPair, WriteWithPair};

/// Returns the first stale get, by its number, with the first of the writes that it missed.
pub fn least_stale_get(gets: &[GetWithPair], writes: &[WriteWithPair]) -> Option<Refuted>
    ensures { IfSome result IsOfCalls }
{
    let get = gets
        .iter()
        .filter(|get| Some(get.found.pair) < get.newest)
        .min_by_key(|get| get.no)?;
    let missed = writes
        .iter()
        .filter(|write| write.doc == get.doc && is_overtaken(get.found, write.performed))
        .map(|write| write.no)
        .min()?;
    Some(Refuted::StaleGet(get.no, missed))
}
