ghost use Rattle.std.specs.Prelude.{◌≡◌, IfOk, IfSome};
ghost use Rattle.deciding.specs.Records.{AreInOrder};
ghost use Rattle.deciding.specs.Tables.{IsRuledOut};
ghost use Rattle.deciding.specs.aids.Candidates.{IsDocument};
ghost use Rattle.deciding.specs.Elsewhere.{is_kept};

use crate::attempts::Attempts;
use crate::budget::Budget;
use crate::document::Document;
use crate::elsewhere::Elsewhere;
use crate::walk::{Walk, first_without_row};
use doc_register::Conflicts;
use events::Rec;
use std::alloc::Global;
use version_pair::NoMemory;
use write_chain::answers_of;

/// Returns the number of the call at which the document of the records is provably not linearizable (ruled out), if that
/// is found: the first call, in response order, after whose reply there is nothing left that the document may be. The walk
/// is given up once it has used up its budget; `None` says nothing.
pub fn ruled_out_at(
    alloc: Global,
    records: &[Rec],
    conflicts: Conflicts,
    elsewhere: &Elsewhere,
    attempts: Attempts,
    budget: &mut Budget,
) -> Result<Option<u64>, NoMemory>
    // The records are in order, as those of a document of a history are.
    requires { AreInOrder records.now }
    // The document is provably not linearizable at the call that is returned, since other documents of its shard are known
    // to have these pairs.
    ensures { IfOk result (λ found. IfSome found (IsRuledOut (record { conflicts = conflicts; elsewhere = is_kept elsewhere.now.ends }) records.now)) }
{
    let answers = answers_of(alloc, records)?;
    let document = Document::of(alloc, records, conflicts, elsewhere, attempts)?;
    let mut walk = Walk::start(alloc, budget.limit(records.len()))?;
    let found = first_without_row(&mut walk, &document, &answers)?;
    budget.keep(walk.left);
    Ok(found)
}
