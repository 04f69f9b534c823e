ghost use Rattle.std.specs.Prelude.{◌≡◌, ◌≢◌, ◌≤◌, IfErr, IfOk, IsErrOf, OnOk, OnSome};
ghost use Rattle.std.specs.Io.KnownBytes.{IsAtEnd, Keeps};
ghost use Rattle.report.specs.Bulk.{AnswersBulk};
ghost use Rattle.report.specs.Explained.{ExplainsInput};
ghost use Rattle.report.specs.Verdict.{IsAnswered, IsCutOff, LeavesUnread, VerifiesInputs, WitnessesInput};
ghost use Rattle.report.specs.Workers.{NamesOwnDocument};
ghost use Rattle.readings.specs.Reading.{rules_of};
ghost use Rattle.stream_io.specs.Faults.{IsStreamFault, IsWorkedFault};
ghost use Rattle.stream_io.specs.Taken.{TakesHistory, TakesWitness};
ghost use Rattle.stream_io.specs.Written.{HasAnswer, HasPrefix};

use crate::bulk_answer::bulk_answer;
use crate::check_options::CheckOptions;
use crate::details::{check_details, status_of};
use crate::explained::explained_answer;
use crate::progress::CheckProgress;
use crate::text_input::Kept;
use crate::verify_input::verify_reported;
use crate::witnessed::witness_answer;
use compose::RulingOut;
use events::HashKeys;
use readings::Reading;
use std::alloc::Global;
use std::io::{Read, Write};
use std::sync::Wait;
use std::thread::Threads;
use stream_io::{AnswerText, Status, StreamFault, read_all, write_answer};

/// Reads a history text to its end, and writes one line:
///
/// - `yes docs=D calls=C left_out=L` if one order of its calls, over all documents, explains it;
/// - `no event=E call=N before=shown` (or `unshown`) if none was found;
/// - `refuted kind=NAME calls=A,B event=E call=N before=shown` if none was found and there is evidence that
///   there is none;
/// - `refused line=L cause=NAME` if it is no history text.
///
/// Each document is searched for an order of its answered calls, and, if they have none, for one that
/// completes unanswered writes; and no pair of a shard may be taken twice. If each write was answered (under
/// Maybe, by a reply other than a conflict), `no` says that there is no order; `refuted` says so of every
/// history. The event is the reply at which the search first fails, the call is the one that it answers, and
/// the last word says whether the events before it have an order. The documents are searched by 1 to 16
/// workers. The answer doesn't depend on the keys of the hashes.
///
/// The kinds of evidence are `pair-twice` of two writes, `no-writer` of one get, `stale-get` of a get and a
/// write, and `stale-swap` of two writes, with the numbers of these calls in this order; and, if that is
/// asked for and no other evidence is found, `ruled-out` of the answered call at which a document is provably
/// not linearizable (ruled out).
///
/// Errors: `Read`, `NoMemory` and `Worker`, whichever comes first, after which the writer holds what it held;
/// then `Write`, after which it holds a prefix of the line. With more than one worker it waits as
/// `check_pool::answers` does.
pub fn check_stream<T: Threads + Wait + Sync, R: Read, W: Write>(
    rt: &T,
    alloc: Global,
    keys: HashKeys,
    reader: &mut R,
    writer: &mut W,
    workers: usize,
    reading: Reading,
    ruling_out: RulingOut,
) -> Result<Status, StreamFault>
    // `some_workers`, `few_workers`: There are 1 to 16 workers.
    requires some_workers { 1 ≤ workers }
    requires few_workers { workers ≤ 16 }
    // If it answers yes, the bytes of the reader to its end are a text of a history that an order of calls
    // explains, over all its documents, with the counts of the line. If it answers no, they are a text of a
    // history that no entries without a given pair cover: it is not legal in response order, and if it is
    // complete, so that each write was answered, no order explains it. Also, if documents were
    // checked for being ruled out, none is. If it answers refuted, all that is true as well, except the last,
    // and the evidence of the line holds in the history: no order explains it, however its unanswered calls
    // are completed. If it refuses, they are a text of no history, and the line reports the first line that
    // is refused.
    ensures answered { IfOk result (IsAnswered ruling_out reading (R.remaining reader.old)
        (W.contents writer.old) (W.contents writer.new)) }
    // After `Write` the writer holds a prefix of such a line after what it held.
    ensures cut_off { IsErrOf result StreamFault.Write
        → IsCutOff ruling_out reading (R.remaining reader.old) (W.contents writer.old)
        (W.contents writer.new) }
    // After any other error the writer holds what it held.
    ensures kept { IfErr result (λ fault. fault ≢ StreamFault.Write
        → Keeps (W.contents writer.old) (W.contents writer.new)) }
    // The only errors are `Read`, `Write`, `NoMemory` and `Worker`.
    ensures reported { IfErr result IsWorkedFault }
    // With one worker, the caller's thread, the error is never `Worker`.
    ensures alone { workers ≡ 1 → IfErr result IsStreamFault }
    // A document that a `Worker` names is one of the history whose text the reader had.
    ensures named { IfErr result (NamesOwnDocument (R.remaining reader.old)) }
    // Whatever the result, no line after the first refused one is taken of the reader's bytes, if they are
    // known; of that line and those before it at most 4,194,304 times 65,537 bytes; and after it nothing but
    // what the last read returned, 32,768 bytes at most.
    ensures taken { TakesHistory (rules_of reading) (R.remaining reader.old) (R.remaining reader.new) }
{
    let progress = CheckProgress::new();
    let options = CheckOptions {
        workers,
        reading,
        ruling_out,
    };
    let found = check_details(rt, alloc, keys, reader, options, &progress, Kept::Nothing)?;
    let line = found.reported.line(alloc)?;
    write_answer(writer, &AnswerText::of(status_of(&found.reported), line))
}

/// Reads a history text to its end and writes the line that `check_stream` writes for it, followed by an
/// explanation of what was found, for people. If no order was found: the calls that matter, why no order
/// explains the reply, and the order before it. If one was found: what became of the calls of unknown outcome
/// (indeterminate). If the text was refused: its line.
///
/// The explanation is of the history, the evidence and the reading of the answer, and how much the answer
/// says is what `compose::certainty_of` returns; more is not proved of it. Errors and waiting are those of
/// `check_stream`.
pub fn explain_stream<T: Threads + Wait + Sync, R: Read, W: Write>(
    rt: &T,
    alloc: Global,
    keys: HashKeys,
    reader: &mut R,
    writer: &mut W,
    workers: usize,
    reading: Reading,
    ruling_out: RulingOut,
) -> Result<Status, StreamFault>
    // `some_workers`, `few_workers`: There are 1 to 16 workers.
    requires some_workers { 1 ≤ workers }
    requires few_workers { workers ≤ 16 }
    // What it writes begins with a line that answers the bytes of the reader as the line of `check_stream`
    // does.
    ensures answered { IfOk result (λ status. HasAnswer (ExplainsInput ruling_out reading (R.remaining reader.old) status)
        (W.contents writer.old) (W.contents writer.new)) }
    // After `Write` the writer holds a prefix of such a text after what it held.
    ensures cut_off { IsErrOf result StreamFault.Write
        → HasPrefix (ExplainsInput ruling_out reading (R.remaining reader.old)) (W.contents writer.old)
        (W.contents writer.new) }
    // After any other error the writer holds what it held.
    ensures kept { IfErr result (λ fault. fault ≢ StreamFault.Write
        → Keeps (W.contents writer.old) (W.contents writer.new)) }
    // The only errors are `Read`, `Write`, `NoMemory` and `Worker`.
    ensures reported { IfErr result IsWorkedFault }
    // With one worker, the caller's thread, the error is never `Worker`.
    ensures alone { workers ≡ 1 → IfErr result IsStreamFault }
    // A document that a `Worker` names is one of the history whose text the reader had.
    ensures named { IfErr result (NamesOwnDocument (R.remaining reader.old)) }
    // No bytes after the first refused line are taken but those that the last read returned, as by
    // `check_stream`.
    ensures taken { TakesHistory (rules_of reading) (R.remaining reader.old) (R.remaining reader.new) }
{
    let progress = CheckProgress::new();
    let options = CheckOptions {
        workers,
        reading,
        ruling_out,
    };
    let (answer, _) = explained_answer(rt, alloc, keys, reader, options, &progress, None)?;
    write_answer(writer, &answer)
}

/// Reads a history text to its end and writes the text of its witness if `check_stream` says yes, and the
/// line of `check_stream` if it does not. If the line says that a document is ruled out, a certificate of that follows
/// it, of which nothing is promised: it can be checked without a search.
///
/// Errors: `Read` and `NoMemory`, whichever comes first, after which the writer holds what it held; then
/// `Write`, after which it holds a prefix of the text.
pub fn witness_stream<R: Read, W: Write>(
    alloc: Global,
    keys: HashKeys,
    reader: &mut R,
    writer: &mut W,
    reading: Reading,
    ruling_out: RulingOut,
) -> Result<Status, StreamFault>
    // If it returns yes, what it wrote reads as entries that cover the history that the bytes are a text of,
    // each document once, so that an order explains it. Otherwise it wrote the line of a check, as
    // `check_stream` does.
    ensures answered { IfOk result (λ status. HasAnswer (WitnessesInput ruling_out reading
        (R.remaining reader.old) status)
        (W.contents writer.old) (W.contents writer.new)) }
    // After `Write` the writer holds a prefix of such a text after what it held.
    ensures cut_off { IsErrOf result StreamFault.Write
        → HasPrefix (WitnessesInput ruling_out reading (R.remaining reader.old)) (W.contents writer.old)
        (W.contents writer.new) }
    // After any other error the writer holds what it held.
    ensures kept { IfErr result (λ fault. fault ≢ StreamFault.Write
        → Keeps (W.contents writer.old) (W.contents writer.new)) }
    // The only errors are `Read`, `Write` and `NoMemory`.
    ensures reported { IfErr result IsStreamFault }
    // No bytes after the first refused line are taken but those that the last read returned, as by
    // `check_stream`.
    ensures taken { TakesHistory (rules_of reading) (R.remaining reader.old) (R.remaining reader.new) }
{
    let answer = witness_answer(alloc, keys, reader, reading, ruling_out)?;
    write_answer(writer, &answer)
}

/// Reads a history text and then a witness text, each to its end, and writes one line:
///
/// - `verified docs=D calls=C left_out=L` if the witness covers the history;
/// - `broken` with the first fault if it does not;
/// - `refused file=history` or `refused file=witness` with the line and the cause if one of them is no such
///   text.
///
/// Errors: `Read` and `NoMemory`, whichever comes first, of the history before the witness is read (which is
/// tested, not proved), after which the writer holds what it held; then `Write`, after which it holds a
/// prefix of the line.
pub fn verify_stream<R: Read, Q: Read, W: Write>(
    alloc: Global,
    keys: HashKeys,
    history: &mut R,
    witness: &mut Q,
    writer: &mut W,
    reading: Reading,
) -> Result<Status, StreamFault>
    // If it answers yes, the history's bytes are a text of a history, and the witness's read as entries that
    // cover it, so that an order explains it, with the counts of the line. If it answers no, they read as
    // entries of which the line reports the first fault, so that they do not cover it. A refusal reports the
    // first refused line of the first text that is refused.
    ensures answered { IfOk result (λ status. HasAnswer (VerifiesInputs reading
        (R.remaining history.old) (Q.remaining witness.old) status)
        (W.contents writer.old) (W.contents writer.new)) }
    // After `Write` the writer holds a prefix of such a line after what it held.
    ensures cut_off { IsErrOf result StreamFault.Write
        → HasPrefix (VerifiesInputs reading (R.remaining history.old) (Q.remaining witness.old))
        (W.contents writer.old) (W.contents writer.new) }
    // After any other error the writer holds what it held.
    ensures kept { IfErr result (λ fault. fault ≢ StreamFault.Write
        → Keeps (W.contents writer.old) (W.contents writer.new)) }
    // The only errors are `Read`, `Write` and `NoMemory`.
    ensures reported { IfErr result IsStreamFault }
    // No bytes after the first refused line of the history are taken but those that the last read returned,
    // as by `check_stream`.
    ensures taken { TakesHistory (rules_of reading) (R.remaining history.old) (R.remaining history.new) }
    // The same holds of the witness.
    ensures witness_taken { TakesWitness (Q.remaining witness.old) (Q.remaining witness.new) }
    // Nothing of the witness is taken if the history text is refused.
    ensures unread { LeavesUnread reading (R.remaining history.old) (Q.remaining witness.old) (Q.remaining witness.new) }
{
    let reported = verify_reported(alloc, keys, history, witness, reading)?;
    let line = reported.line(alloc)?;
    write_answer(writer, &AnswerText::of(status_of(&reported), line))
}

/// Reads the body of a bulk request and then its reply, each to its end, and writes their lines in a history:
/// the calls of all items, numbered from `first`, followed by a reply or a lost line for each. If they are
/// refused, it writes one line with the first fault: `refused line=L cause=NAME`, `refused cause=count` or
/// `refused item=I cause=kind`.
///
/// The status of the reply is taken to be 200. Both are read before either is judged. Errors: `Read` and
/// `NoMemory`, whichever comes first, of the body before the reply is read (which is tested, not proved),
/// after which the writer holds what it held; then `Write`, after which it holds a prefix of the text. How
/// far the two were read if there is an error is left open.
pub fn bulk_stream<R: Read, Q: Read, W: Write>(
    alloc: Global,
    first: u64,
    body: &mut R,
    reply: &mut Q,
    writer: &mut W,
) -> Result<Status, StreamFault>
    // It wrote the lines of the one's bytes with the other's, and answers yes; or the line of their first
    // fault, and answers refused.
    ensures answered { IfOk result (λ status. HasAnswer (AnswersBulk first
        (R.remaining body.old) (Q.remaining reply.old) status)
        (W.contents writer.old) (W.contents writer.new)) }
    // After `Write` the writer holds a prefix of such a text after what it held.
    ensures cut_off { IsErrOf result StreamFault.Write
        → HasPrefix (AnswersBulk first (R.remaining body.old) (Q.remaining reply.old))
        (W.contents writer.old) (W.contents writer.new) }
    // After any other error the writer holds what it held.
    ensures kept { IfErr result (λ fault. fault ≢ StreamFault.Write
        → Keeps (W.contents writer.old) (W.contents writer.new)) }
    // The only errors are `Read`, `Write` and `NoMemory`.
    ensures reported { IfErr result IsStreamFault }
    // If there is no error, both were read to their ends.
    ensures end { OnOk result (OnSome (R.remaining body.old) (IsAtEnd (R.remaining body.new))
        × OnSome (Q.remaining reply.old) (IsAtEnd (Q.remaining reply.new))) }
{
    let body = read_all(alloc, body)?;
    let reply = read_all(alloc, reply)?;
    let answer = bulk_answer(alloc, first, &body, &reply)?;
    write_answer(writer, &answer)
}
