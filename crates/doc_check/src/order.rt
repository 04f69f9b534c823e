ghost use Rattle.std.specs.Prelude.{◌≡◌, IfOk, length};
ghost use Rattle.doc_check.specs.aids.Order.{IsStretchOrder, standing_made, standings_from};

use events::Rec;
use places::Place;
use std::alloc::Global;
use version_pair::NoMemory;
use write_chain::sort_nearly_ordered;

/// The sort key of an answered record: the write of a stretch comes first in it, then the others in response
/// order.
#[derive(Clone, Copy, PartialEq, Eq, PartialOrd, Ord)]
pub struct StretchKey {
    /// Its stretch.
    pub stretch: usize,
    /// Whether it isn't the write that begins its stretch, which comes first.
    pub follows_write: bool,
    /// The index of its reply.
    pub reply_at: usize,
    /// The number of the record.
    pub rec: usize,
}

// The sort key of an answered record that was given a stretch.
fn standing_of(k: usize, found: Rec, given: Option<usize>) -> Option<StretchKey>
    ensures { result ≡ standing_made k found.heard given }
{
    let Some(heard) = found.heard else {
        return None;
    };
    let Some(stretch) = given else {
        return None;
    };
    Some(StretchKey {
        stretch,
        follows_write: found.pair_taken().is_none(),
        reply_at: heard.0,
        rec: k,
    })
}

// The sort keys of the answered records.
fn standings_of(
    alloc: Global,
    records: &[Rec],
    given: &[Option<usize>],
) -> Result<Vec<StretchKey>, NoMemory>
    requires { length given.now ≡ length records.now }
    ensures { IfOk result
        (λ standings. standings.items ≡ standings_from 0 records.now given.now) }
{
    let mut standings = Vec::new(alloc);
    for k in 0..records.len() {
        if let Some(standing) = standing_of(k, records[k], given[k]) {
            standings.push(standing)?;
        }
    }
    Ok(standings)
}

/// Returns the answered records by stretch, its write first, then in response order, with no pair given.
pub fn order_of(
    alloc: Global,
    records: &[Rec],
    given: &[Option<usize>],
) -> Result<Vec<Place>, NoMemory>
    requires { length given.now ≡ length records.now }
    ensures { IfOk result (λ places. IsStretchOrder records.now given.now places.items) }
{
    let mut standings = standings_of(alloc, records, given)?;
    sort_nearly_ordered(&mut standings);
    let mut places = Vec::with_capacity(alloc, standings.len())?;
    for i in 0..standings.len() {
        places.push(Place {
            rec: standings[i].rec,
            pair: None,
        })?;
    }
    Ok(places)
}
