ghost use Rattle.std.specs.Prelude.{◌<◌, All, IfOk, IfSome, length};
ghost use Rattle.evidence.specs.Evidence.{IsOfCalls};

use crate::holding::asks_too_little;
use crate::refuted::Refuted;
use crate::search::calls_with_pairs::WriteWithPair;
use std::alloc::Global;
use version_pair::{NoMemory, Pair};

// The writes of a document whose conditions are below some pair: the greatest position of their calls, and
// the greatest of their pairs.
#[derive(Clone, Copy)]
struct Asking {
    doc: usize,
    last_called: usize,
    greatest: Pair,
}

impl Asking {
    // These writes and one more.
    fn with(so_far: Option<Asking>, write: WriteWithPair) -> Asking {
        let performed = write.performed;
        match so_far {
            Some(asking) if asking.doc == write.doc => Asking {
                doc: asking.doc,
                last_called: asking.last_called.max(performed.called),
                greatest: asking.greatest.max(performed.pair),
            },
            _ => Asking {
                doc: write.doc,
                last_called: performed.called,
                greatest: performed.pair,
            },
        }
    }

    // Whether the write comes before one of them.
    fn are_after(self, write: WriteWithPair) -> bool {
        self.doc == write.doc
            && (write.performed.replied < self.last_called || write.performed.pair < self.greatest)
    }
}

// A write at its pair, or at the pair that it asks for: there after the writes that have exactly that pair.
#[derive(Clone, Copy, PartialEq, Eq, PartialOrd, Ord)]
struct WriteAtPair {
    doc: usize,
    pair: Pair,
    asks: bool,
    // Its index in the list of writes.
    write: usize,
}

// Each write at its pair, and again at the pair that it asks for, by document and pair.
fn writes_by_pair(alloc: Global, writes: &[WriteWithPair]) -> Result<Vec<WriteAtPair>, NoMemory>
    ensures { IfOk result (λ marks. All (λ m. m.write < length writes.now) marks.items) }
{
    let mut marks = Vec::new(alloc);
    for i in 0..writes.len() {
        let own = WriteAtPair {
            doc: writes[i].doc,
            pair: writes[i].performed.pair,
            asks: false,
            write: i,
        };
        marks.push(own)?;
        if let Some(pair) = writes[i].performed.op.condition() {
            marks.push(WriteAtPair {
                pair,
                asks: true,
                ..own
            })?;
        }
    }
    marks.sort_unstable();
    Ok(marks)
}

// The first write, by its number, that comes before one whose condition is below its pair.
fn least_ignored(
    alloc: Global,
    writes: &[WriteWithPair],
) -> Result<Option<WriteWithPair>, NoMemory> {
    let mut asking: Option<Asking> = None;
    let mut least: Option<WriteWithPair> = None;
    let marks = writes_by_pair(alloc, writes)?;
    for i in 0..marks.len() {
        let write = writes[marks[i].write];
        if marks[i].asks {
            asking = Some(Asking::with(asking, write));
        } else if asking.is_some_and(|asking| asking.are_after(write)) {
            least = match least {
                Some(other) if other.no < write.no => Some(other),
                _ => Some(write),
            };
        }
    }
    Ok(least)
}

/// Returns the first write, by its number, that a conditional write ignored, with the first of these.
pub fn least_stale_swap(
    alloc: Global,
    writes: &[WriteWithPair],
) -> Result<Option<Refuted>, NoMemory>
    ensures { IfOk result (λ found. IfSome found IsOfCalls) }
{
    let Some(ignored) = least_ignored(alloc, writes)? else {
        return Ok(None);
    };
    let ignoring = writes
        .iter()
        .filter(|write| {
            write.doc == ignored.doc && asks_too_little(ignored.performed, write.performed)
        })
        .map(|write| write.no)
        .min();
    Ok(ignoring.map(|no| Refuted::StaleSwap(ignored.no, no)))
}
