ghost use Rattle.std.specs.Prelude.{◌≤◌, IfErr, IfOk, IfSome, ℕ, List};
ghost use Rattle.events.specs.Refusal.{most_events};
ghost use Rattle.history.specs.ByRules.{room_taken};
ghost use Rattle.history.specs.Laws.{AreLost};
ghost use Rattle.readings.specs.Reading.{rules_of};
ghost use Rattle.stream_io.specs.Faults.{IsReadingFault};
ghost use Rattle.stream_io.specs.Taken.{TakesHistory, TakesWitness};
ghost use Rattle.result_lines.specs.Objects.{line_of};
ghost use Rattle.report.specs.Details.{IsOfVerify, status_of};
ghost use Rattle.report.specs.Verdict.{IsReadBy, IsVerifyAnswer, LeavesUnread, VerifiesInputs};

use crate::text_input::{Kept, read_numbered};
use crate::verify_answer::entries_reported;
use events::HashKeys;
use history::TextRead;
use history::laws::texts_are_read_by_rules;
use readings::Reading;
use result_lines::Reported;
use std::alloc::Global;
use std::io::Read;
use stream_io::{StreamFault, read_entries};

// Returns what is reported of the witness text of a reader, for the history of this text.
fn witness_reported<Q: Read>(
    alloc: Global,
    read: TextRead,
    witness: &mut Q,
    reading: Reading,
) -> Result<Reported, StreamFault>
    requires void { AreLost read.history read.voids }
    requires room { room_taken reading.writes read.history ≤ most_events }
    ensures answer { IfOk result (λ reported. (input : List ℕ) → IsReadBy reading input read
        → IfSome (Q.remaining witness.old) (λ w. IsVerifyAnswer reading input w (status_of reported)
        (line_of reported))) }
    ensures kind { IfOk result IsOfVerify }
    ensures reported { IfErr result IsReadingFault }
    ensures taken { TakesWitness (Q.remaining witness.old) (Q.remaining witness.new) }
{
    match read_entries(alloc, witness)? {
        Ok(entries) => Ok(entries_reported(alloc, read, entries, reading)?),
        Err(fault) => Ok(Reported::RefusedWitness(fault)),
    }
}

/// Reads a history text and then a witness text, each to its end, and returns what the line of `verify_stream`
/// reports of them: whether the entries of the one cover the documents of the other, and each get is explained. It writes
/// nothing. The witness is not read if the history text is refused.
///
/// Errors, whichever comes first: `Read` and `NoMemory`.
pub fn verify_reported<R: Read, Q: Read>(
    alloc: Global,
    keys: HashKeys,
    history: &mut R,
    witness: &mut Q,
    reading: Reading,
) -> Result<Reported, StreamFault>
    // The line that reports it answers the bytes of the two readers, as that of `verify_stream` does.
    ensures answer { IfOk result (λ reported. VerifiesInputs reading (R.remaining history.old)
        (Q.remaining witness.old) (status_of reported) (line_of reported)) }
    // It is what a verify reports.
    ensures kind { IfOk result IsOfVerify }
    // The only errors are `Read` and `NoMemory`.
    ensures reported { IfErr result IsReadingFault }
    // `taken`, `witness_taken`: No bytes after the first refused line of a text are taken but those that the
    // last read returned, as by `check_stream`.
    ensures taken { TakesHistory (rules_of reading) (R.remaining history.old) (R.remaining history.new) }
    ensures witness_taken { TakesWitness (Q.remaining witness.old) (Q.remaining witness.new) }
    // Nothing of the witness is taken if the history text is refused.
    ensures unread { LeavesUnread reading (R.remaining history.old) (Q.remaining witness.old) (Q.remaining witness.new) }
{
    // That what is read is a text of its history is known from here on.
    texts_are_read_by_rules();
    match read_numbered(alloc, keys, reading.rules(), history, Kept::Nothing)? {
        Ok(text) => witness_reported(alloc, text.read, witness, reading),
        Err(refused) => Ok(Reported::RefusedHistory(refused.fault)),
    }
}
