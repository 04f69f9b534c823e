ghost use Rattle.std.specs.Prelude.{◌≡◌, ◌≤◌, IfOk, IfSome, ℕ, List, Ok, map};
ghost use Rattle.events.specs.Refusal.{most_events};
ghost use Rattle.history.specs.ByRules.{room_taken};
ghost use Rattle.history.specs.Laws.{AreLost};
ghost use Rattle.history.specs.declared.text_read.TextRead.{TextRead as TextOf};
ghost use Rattle.readings.specs.WayBack.{IsKept};
ghost use Rattle.places.specs.Documents.{doc_places};
ghost use Rattle.witness.specs.Text.{witness_text};
ghost use Rattle.result_lines.specs.Objects.{line_of};
ghost use Rattle.report.specs.Details.{IsOfVerify, status_of};
ghost use Rattle.report.specs.Verdict.{IsReadBy, IsVerifyAnswer};
ghost use Rattle.report.specs.aids.Counting.{IsOfCovered};

use crate::finding::get_found;
use crate::reported::counts_of;
use compose::{Proof, VerifyFault, verify};
use history::TextRead;
use places::Place;
use readings::laws::evidence_refutes as evidence_refutes_readings;
use readings::{ReadHistory, Reading, text_history};
use result_lines::Reported;
use std::alloc::{AllocError, Global};
use version_pair::{DocId, NoMemory};

// Returns what is reported of entries that cover what was judged: whether each get is explained.
fn covered_reported(
    alloc: Global,
    proof: &Proof,
    text: &Option<TextRead>,
    reading: Reading,
) -> Result<Reported, NoMemory>
    requires { IfSome text.now (λ t. AreLost t.history t.voids) }
    ensures { (read : TextOf) → IsKept reading read proof.now.events text.now
        → IfOk result (IsOfCovered reading read proof.now) }
{
    match get_found(alloc, text, reading)? {
        Some(get) => Ok(Reported::BrokenGet(get.evidence)),
        None => {
            let text = text_history(proof.history(), text);
            Ok(Reported::Verified(counts_of(proof, text, reading)))
        }
    }
}

/// Returns what is reported of entries that were read, for the history of this text.
pub fn entries_reported(
    alloc: Global,
    read: TextRead,
    entries: Vec<(DocId, Vec<Place>)>,
    reading: Reading,
) -> Result<Reported, NoMemory>
    requires void { AreLost read.history read.voids }
    requires room { room_taken reading.writes read.history ≤ most_events }
    ensures answer { IfOk result (λ reported. (input witness : List ℕ) → IsReadBy reading input read
        → witness_text witness ≡ Ok (map doc_places entries.items)
        → IsVerifyAnswer reading input witness (status_of reported) (line_of reported)) }
    ensures kind { IfOk result IsOfVerify }
{
    // What evidence says is known from here on.
    evidence_refutes_readings();
    let ReadHistory { judged, text } = ReadHistory::of(read, reading)?;
    match verify(alloc, judged, entries, reading.conflicts_checked()) {
        Ok(proof) => covered_reported(alloc, &proof, &text, reading),
        Err((fault, _)) => match fault {
            VerifyFault::NoMemory => Err(AllocError),
            reported => Ok(Reported::Broken(reported)),
        },
    }
}
