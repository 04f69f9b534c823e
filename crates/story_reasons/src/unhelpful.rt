use crate::cause::Cause;
use crate::known_versions::KnownVersions;
use doc_register::Op;
use events::Rec;
use version_pair::Pair;

/// The reason why a write without a reply doesn't help: why it gives no place to the call that has none, for people. No
/// contract covers it.
#[derive(Clone, Copy, Debug, PartialEq, Eq)]
pub enum Unhelpful {
    /// It was made after the reply to that call.
    Late,
    /// No write would help.
    Vain,
    /// It writes the document, but a delete is needed.
    Writes,
    /// It deletes the document, but a write is needed that gives it a number.
    Deletes,
    /// It gives another number than the one that was found.
    OtherNumber,
    /// It asks for another version than the one after which a change is needed.
    OtherVersion,
    /// No version is free for it between these two, or below the second one.
    NoRoom(Option<Pair>, Pair),
    /// The document had passed that version when it was made.
    Passed,
}

/// The call that has no place, and what is known of the document.
#[derive(Clone, Copy)]
pub struct Need<'a> {
    pub versions: &'a KnownVersions,
    pub cause: Cause,
    /// The position of the reply to the call.
    pub reply_at: usize,
    /// That of the reply after which nothing is left that the document may be.
    pub ends_at: usize,
    /// What the document had reached when the call was made.
    pub floor: Option<Pair>,
}

// Whether the write is of the wrong kind.
fn other_kind(cause: Cause, op: Op) -> Option<Unhelpful> {
    let deletes = matches!(op, Op::Delete { .. });
    match cause {
        Cause::There | Cause::WasThere(_) if !deletes => Some(Unhelpful::Writes),
        Cause::NotThere | Cause::WasAbsent(_) | Cause::Unwritten(_) if deletes => Some(
            Unhelpful::Deletes,
        ),
        Cause::NeverRefused | Cause::Passed(_) | Cause::Unmet(_) => Some(Unhelpful::Vain),
        _ => None,
    }
}

// The version after which the write may change the document, if there is only one.
fn place_of(need: &Need<'_>, write: &Rec) -> Option<Option<Pair>> {
    match (write.op.condition(), need.cause) {
        (Some(asked), _) => Some(Some(asked)),
        (None, Cause::WasThere(pair) | Cause::WasAbsent(pair)) => Some(
            need.versions.last_below(pair),
        ),
        (None, _) => None,
    }
}

// Whether the document had come past a change right after the version.
fn is_past(need: &Need<'_>, reached: Option<Pair>, last: Option<Pair>) -> bool {
    match need.versions.next_above(last) {
        Some(next) => reached >= Some(next),
        None => false,
    }
}

// Whether a change right after the version is what is needed.
fn is_wanted_after(need: &Need<'_>, last: Option<Pair>) -> bool {
    match need.cause {
        Cause::WasThere(pair) | Cause::WasAbsent(pair) => need.versions.next_above(last)
            == Some(pair),
        _ => !is_past(need, need.floor, last),
    }
}

// Why the write, which was made when the document had reached this, can't have taken the known pair.
fn not_written(need: &Need<'_>, write: &Rec, reached: Option<Pair>, pair: Pair) -> Unhelpful {
    if let Some(k) = write.op.value()
        && !need.versions.allows(pair, k)
    {
        return Unhelpful::OtherNumber;
    }
    match write.op.condition() {
        Some(asked) if need.versions.next_above(Some(asked)) != Some(pair) =>
            Unhelpful::OtherVersion,
        _ if reached >= Some(pair) => Unhelpful::Passed,
        _ => Unhelpful::Vain,
    }
}

// Why the write can't have changed the document where a change is needed.
fn not_changed(need: &Need<'_>, write: &Rec, reached: Option<Pair>) -> Unhelpful {
    let Some(last) = place_of(need, write) else {
        return Unhelpful::Vain;
    };
    if !need.versions.has_room_above(last) {
        return match need.versions.next_above(last) {
            Some(next) => Unhelpful::NoRoom(last, next),
            None => Unhelpful::Vain,
        };
    }
    if !is_wanted_after(need, last) {
        Unhelpful::OtherVersion
    } else if is_past(need, reached, last) {
        Unhelpful::Passed
    } else {
        Unhelpful::Vain
    }
}

/// Returns the reason why the write without a reply, which was made when the document had reached this, doesn't help.
pub fn unhelpful_for(need: &Need<'_>, write: &Rec, reached: Option<Pair>) -> Unhelpful {
    if write.call_at >= need.reply_at {
        return Unhelpful::Late;
    }
    if let Some(unhelpful) = other_kind(need.cause, write.op) {
        return unhelpful;
    }
    if write.call_at >= need.ends_at {
        return Unhelpful::Passed;
    }
    match need.cause {
        Cause::Unwritten(pair) => not_written(need, write, reached, pair),
        _ => not_changed(need, write, reached),
    }
}
