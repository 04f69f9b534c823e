ghost use Rattle.std.specs.Prelude.{◌≡◌, ◌<◌, ◌≤◌, ℕ, [], IfErr, IfNone, IfSome, MatchResult, OnOk, OnErr, length, take};
ghost use Rattle.std.specs.Io.KnownBytes.{Appends};

use crate::answer::AnswerText;
use crate::status::Status;
use crate::stream_fault::StreamFault;
use std::io::Write;

// Writes some prefix of a text that is not empty, and returns its number of bytes; `None` if the writer fails
// or takes none.
fn write_some<W: Write>(writer: &mut W, text: &[u8]) -> Option<usize>
    ensures within { IfSome result (λ n. (0 < n) × (n ≤ length text.now)) }
    ensures some { IfSome result (λ n. Appends (W.contents writer.old) (W.contents writer.new)
        (take n text.now)) }
    ensures none { IfNone result (Appends (W.contents writer.old) (W.contents writer.new) []) }
{
    match writer.write(text) {
        Ok(count) => if count == 0 { None } else { Some(count) },
        Err(_) => None,
    }
}

/// Writes the text. Errors: `Write` if the writer fails or takes no byte; it then holds a prefix of the text.
pub fn write_text<W: Write>(writer: &mut W, text: &[u8]) -> Result<(), StreamFault>
    // The writer holds the text after what it held.
    ensures ok { OnOk result (Appends (W.contents writer.old) (W.contents writer.new) text.now) }
    // After an error the writer holds a prefix of the text after what it held.
    ensures err { OnErr result ((n : ℕ) × Appends (W.contents writer.old) (W.contents writer.new)
        (take n text.now)) }
    // The only error is `Write`.
    ensures fault { IfErr result (λ fault. fault ≡ StreamFault.Write) }
{
    let mut rest = text;
    while !rest.is_empty() {
        let Some(count) = write_some(writer, rest) else {
            return Err(StreamFault::Write);
        };
        rest = &rest[count..];
    }
    Ok(())
}

/// Writes the answer, and returns its status. Errors: `Write` if the writer fails or takes no byte; it then
/// holds a prefix of the text.
pub fn write_answer<W: Write>(writer: &mut W, answer: &AnswerText) -> Result<Status, StreamFault>
    // The status is that of the answer, and the writer holds the text after what it held; or the error is
    // `Write`, and the writer holds a prefix of the text after what it held.
    ensures { MatchResult result
        (λ status. (status ≡ answer.now.status) × Appends (W.contents writer.old)
        (W.contents writer.new) answer.now.text.items)
        (λ fault. (fault ≡ StreamFault.Write) × ((n : ℕ) × Appends (W.contents writer.old)
        (W.contents writer.new) (take n answer.now.text.items))) }
{
    write_text(writer, &answer.text)?;
    Ok(answer.status)
}
