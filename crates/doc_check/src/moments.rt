ghost use Rattle.std.specs.Prelude.{◌≡◌, IfOk};
ghost use Rattle.doc_check.specs.aids.Sweep.{AreMoments, moments_from};

use events::Rec;
use std::alloc::Global;
use version_pair::NoMemory;
use write_chain::sort_nearly_ordered;

/// The call or the reply of an answered record. At one index, a call is less than a reply.
#[derive(Clone, Copy, PartialEq, Eq, PartialOrd, Ord)]
pub struct Moment {
    /// Its index in the history.
    pub index: usize,
    /// Whether it is the reply.
    pub is_reply: bool,
    /// The number of the record.
    pub rec: usize,
}

// The calls and replies of the answered records.
fn answered_moments(alloc: Global, records: &[Rec]) -> Result<Vec<Moment>, NoMemory>
    ensures { IfOk result (λ moments. moments.items ≡ moments_from 0 records.now) }
{
    let mut moments = Vec::new(alloc);
    for k in 0..records.len() {
        let found = records[k];
        if let Some(heard) = found.heard {
            moments.push(Moment {
                index: found.call_at,
                is_reply: false,
                rec: k,
            })?;
            moments.push(Moment {
                index: heard.0,
                is_reply: true,
                rec: k,
            })?;
        }
    }
    Ok(moments)
}

/// Returns the calls and replies of the answered records from the last to the first. Among those with the
/// same index, a reply comes first.
pub fn moments_of(alloc: Global, records: &[Rec]) -> Result<Vec<Moment>, NoMemory>
    ensures { IfOk result (λ moments. AreMoments records.now moments.items) }
{
    let mut moments = answered_moments(alloc, records)?;
    sort_nearly_ordered(&mut moments);
    moments.reverse();
    Ok(moments)
}
