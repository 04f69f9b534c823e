use crate::falling_versions::VersionedWrite;
use crate::performed_writes::PerformedWrites;
use crate::states_shown::{OlderState, SeenVersion, older_states, seen_versions};
use doc_register::{Op, Reply};
use events::Rec;
use std::alloc::Global;
use version_pair::{NoMemory, Pair};

/// Acknowledged writes that no later reply shows or builds on, though a later reply shows an older state.
#[derive(Clone, Copy)]
pub struct LostWrites {
    /// The number of these writes, and of their documents.
    pub writes: usize,
    pub documents: usize,
    /// The least and the greatest version.
    pub least: Pair,
    pub greatest: Pair,
    /// The positions of the first and of the last reply to one of them.
    pub first: usize,
    pub last: usize,
    /// The position of the first reply that shows an older state.
    pub since: usize,
}

impl LostWrites {
    // Returns the one write, of one document.
    fn of(write: VersionedWrite, since: usize) -> LostWrites {
        LostWrites {
            writes: 1,
            documents: 1,
            least: write.pair,
            greatest: write.pair,
            first: write.event,
            last: write.event,
            since,
        }
    }

    // Returns these and the others. A history has too few calls for the sums to reach the greatest number.
    fn joined(self, other: LostWrites, documents: usize) -> LostWrites {
        LostWrites {
            writes: self.writes.saturating_add(other.writes),
            documents,
            least: self.least.min(other.least),
            greatest: self.greatest.max(other.greatest),
            first: self.first.min(other.first),
            last: self.last.max(other.last),
            since: self.since.min(other.since),
        }
    }

    /// Returns these and the others, which are of other documents.
    pub fn with(self, other: LostWrites) -> LostWrites {
        self.joined(other, self.documents.saturating_add(other.documents))
    }
}

/// What later replies show of the acknowledged writes of a document.
#[derive(Clone, Copy)]
pub struct Loss {
    /// Those that are never seen again.
    pub lost: LostWrites,
    /// The first call whose reply shows an older state.
    pub shower: Rec,
    /// The first write that was performed on an older state, if there is one. Then the writes are gone, not only unread.
    pub builder: Option<Rec>,
}

// What gets that show older states found.
#[derive(Clone, Copy)]
struct GetsFound {
    // Whether there is one.
    is_any: bool,
    // The least version that they found; `None` too if one found no version.
    least: Option<Pair>,
}

impl GetsFound {
    // Returns them with one more call, if it is a get.
    fn with(self, older: &OlderState) -> GetsFound {
        if older.record.op != Op::Get {
            return self;
        }
        GetsFound {
            is_any: true,
            least: if self.is_any {
                self.least.min(older.version)
            } else {
                older.version
            },
        }
    }

    // Whether one found a version that is not above this one.
    fn reach(&self, pair: Pair) -> bool {
        self.is_any && self.least <= Some(pair)
    }
}

// Whether the write, which was performed on an older state, shows beyond doubt that the state was the document's: its
// version is below one that was acknowledged before, it says that the document was not there, or a get had shown that
// state too. `found` are the gets that were answered before it.
fn is_certain(writes: &PerformedWrites, older: &OlderState, found: GetsFound) -> bool {
    let record = &older.record;
    let (Some(pair), Some(before)) = (
        record.pair_taken(),
        writes.acknowledged_before(record.call_at),
    ) else {
        return false;
    };
    match record.op.condition() {
        _ if pair.is_below(before.pair) => true,
        Some(asked) => pair == before.pair || found.reach(asked),
        None => pair != before.pair || found.is_any || is_absent(writes, older),
    }
}

// Whether the reply says that the document was not there, though an acknowledged write had made it.
fn is_absent(writes: &PerformedWrites, older: &OlderState) -> bool {
    let says_absent = matches!(
        older.record.heard,
        Some((
            _,
            Reply::Indexed { created: true, .. } | Reply::Deleted { found: false, .. }
        ))
    );
    says_absent && writes.missed(older.record.call_at, older.event).is_some()
}

// Returns the first write, in response order, that was performed on an older state beyond doubt.
fn builder_of(writes: &PerformedWrites, older: &[OlderState]) -> Option<Rec> {
    let mut found = GetsFound {
        is_any: false,
        least: None,
    };
    for it in older {
        if is_certain(writes, it, found) {
            return Some(it.record);
        }
        found = found.with(it);
    }
    None
}

// A version, and the greatest position of a call that has to do with it or with those on one side of it.
#[derive(Clone, Copy)]
struct LastCall {
    version: Option<Pair>,
    call_at: usize,
}

// Returns the last calls whose replies show the state of a version or an older one, by version.
fn last_older(alloc: Global, older: &[OlderState]) -> Result<Vec<LastCall>, NoMemory> {
    let mut list = Vec::with_capacity(alloc, older.len())?;
    for it in older {
        list.push(LastCall {
            version: it.version,
            call_at: it.record.call_at,
        })?;
    }
    list.sort_unstable_by_key(|it| it.version);
    let mut last = 0usize;
    for it in list.iter_mut() {
        last = last.max(it.call_at);
        it.call_at = last;
    }
    Ok(list)
}

// Changes the list, which is by version, to the last calls that show a version or a newer one.
fn keep_last(seen: &mut Vec<SeenVersion>) {
    let mut last = 0usize;
    for it in seen.iter_mut().rev() {
        last = last.max(it.call_at);
        it.call_at = last;
    }
}

// What replies show of the versions of a document.
#[derive(Drop)]
struct Seen {
    // By version: the last calls that show an older state, and those that show it or a newer one.
    older: Vec<LastCall>,
    seen: Vec<SeenVersion>,
    // The position of the last reply by which an older state is no more than a reply from an older copy.
    doubtful: usize,
}

impl Seen {
    // Whether a call that was made after the reply to the write, and after each that shows or builds on it, shows an older
    // state.
    fn is_lost(&self, write: &VersionedWrite) -> bool {
        let below = self
            .older
            .partition_point(|it| it.version < Some(write.pair));
        let Some(older) = self.older[..below].last() else {
            return false;
        };
        let start = self.seen.partition_point(|it| it.pair.is_below(write.pair));
        let is_seen = match self.seen[start..].first() {
            Some(seen) => older.call_at <= seen.call_at,
            None => false,
        };
        !is_seen && write.event < older.call_at && self.doubtful <= older.call_at
    }
}

// Returns the writes that are lost.
fn lost_of(writes: &PerformedWrites, seen: &Seen, since: usize) -> Option<LostWrites> {
    let mut lost: Option<LostWrites> = None;
    for number in 0..writes.count() {
        if let Some(write) = writes.get(number)
            && seen.is_lost(&write)
        {
            let one = LostWrites::of(write, since);
            lost = Some(match lost {
                Some(lost) => lost.joined(one, 1),
                None => one,
            });
        }
    }
    lost
}

/// Returns what later replies show of the acknowledged writes of a document; `None` if none of them is lost. A get alone may
/// be answered by an older copy: so if no write was performed on the older state, two calls have to show one, the second
/// made after the reply to the first.
pub fn loss_of(
    alloc: Global,
    writes: &PerformedWrites,
    records: &[Rec],
) -> Result<Option<Loss>, NoMemory> {
    let older = older_states(alloc, writes, records)?;
    let Some(first) = older.first() else {
        return Ok(None);
    };
    let builder = builder_of(writes, &older);
    let mut seen = seen_versions(alloc, writes, records, builder.as_ref())?;
    keep_last(&mut seen);
    let seen = Seen {
        older: last_older(alloc, &older)?,
        seen,
        doubtful: if builder.is_some() { 0 } else { first.event },
    };
    Ok(match lost_of(writes, &seen, first.event) {
        Some(lost) => Some(Loss {
            lost,
            shower: first.record,
            builder,
        }),
        None => None,
    })
}
