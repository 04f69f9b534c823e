//! The keys of a line, distinguished by their first bytes. They are patterns, since the loop in which
//! `strip_prefix` compares isn't unrolled, and every member of every line comes by here.
ghost use Rattle.std.specs.Prelude.{◌≡◌, ◌∷◌, ◌++◌, IfSome, not, true};
ghost use Rattle.std.specs.List.{list_all};
ghost use Rattle.api_lines.specs.aids.Keys.{key_text};
ghost use Rattle.api_lines.specs.aids.PlainTexts.{is_stop as stop};

/// A key of an object: one that most lines have, or another.
#[derive(Clone, Copy)]
pub enum Key<'a> {
    /// `e`.
    E,
    /// `n`.
    N,
    /// `k`.
    K,
    /// `id`.
    Id,
    /// `op`.
    Op,
    /// `body`.
    Body,
    /// `status`.
    Status,
    /// `shard`.
    Shard,
    /// `_id`.
    BodyId,
    /// `_seq_no`.
    SeqNo,
    /// `_primary_term`.
    PrimaryTerm,
    /// `result`.
    Outcome,
    /// `found`.
    Found,
    /// `_source`.
    Source,
    /// `if_seq_no`.
    IfSeqNo,
    /// `if_primary_term`.
    IfPrimaryTerm,
    /// Another text, or one of these.
    Other(&'a str),
}

impl<'a> Key<'a> {
    /// Returns the key as it is spelled.
    pub fn text(self) -> &'a str
        ensures { result.now ≡ key_text self.entry }
    {
        match self {
            Key::E => "e",
            Key::N => "n",
            Key::K => "k",
            Key::Id => "id",
            Key::Op => "op",
            Key::Body => "body",
            Key::Status => "status",
            Key::Shard => "shard",
            Key::BodyId => "_id",
            Key::SeqNo => "_seq_no",
            Key::PrimaryTerm => "_primary_term",
            Key::Outcome => "result",
            Key::Found => "found",
            Key::Source => "_source",
            Key::IfSeqNo => "if_seq_no",
            Key::IfPrimaryTerm => "if_primary_term",
            Key::Other(text) => text,
        }
    }
}

/// Returns the key that comes next after its quote, with its colon, if it is one that most lines have; and
/// the bytes after that.
#[inline(always)]
pub fn known_key(quoted: &[u8]) -> Option<(Key<'_>, &[u8])>
    ensures { IfSome result (λ parts. (quoted.now ≡ key_text parts.0 ++ 34 ∷ 58 ∷ parts.1.now)
        × (list_all (λ b. not (stop b)) (key_text parts.0) ≡ true)) }
{
    match quoted {
        [b'e', b'"', b':', rest @ ..] => Some((Key::E, rest)),
        [b'n', b'"', b':', rest @ ..] => Some((Key::N, rest)),
        [b'k', b'"', b':', rest @ ..] => Some((Key::K, rest)),
        [b'i', b'd', b'"', b':', rest @ ..] => Some((Key::Id, rest)),
        [b'o', b'p', b'"', b':', rest @ ..] => Some((Key::Op, rest)),
        _ => long_key(quoted),
    }
}

// The same for longer keys.
#[inline(always)]
fn long_key(quoted: &[u8]) -> Option<(Key<'_>, &[u8])>
    ensures { IfSome result (λ parts. (quoted.now ≡ key_text parts.0 ++ 34 ∷ 58 ∷ parts.1.now)
        × (list_all (λ b. not (stop b)) (key_text parts.0) ≡ true)) }
{
    match quoted {
        [b'b', b'o', b'd', b'y', b'"', b':', rest @ ..] => Some((Key::Body, rest)),
        [b's', b't', b'a', b't', b'u', b's', b'"', b':', rest @ ..] => Some((Key::Status, rest)),
        [b's', b'h', b'a', b'r', b'd', b'"', b':', rest @ ..] => Some((Key::Shard, rest)),
        _ => body_key(quoted),
    }
}

// The same for keys of bodies.
#[inline(always)]
fn body_key(quoted: &[u8]) -> Option<(Key<'_>, &[u8])>
    ensures { IfSome result (λ parts. (quoted.now ≡ key_text parts.0 ++ 34 ∷ 58 ∷ parts.1.now)
        × (list_all (λ b. not (stop b)) (key_text parts.0) ≡ true)) }
{
    match quoted {
        [b'_', b'i', b'd', b'"', b':', rest @ ..] => Some((Key::BodyId, rest)),
        [
            b'_',
            b's',
            b'e',
            b'q',
            b'_',
            b'n',
            b'o',
            b'"',
            b':',
            rest @ ..,
        ] => Some((Key::SeqNo, rest)),
        [
            b'_',
            b'p',
            b'r',
            b'i',
            b'm',
            b'a',
            b'r',
            b'y',
            b'_',
            b't',
            b'e',
            b'r',
            b'm',
            b'"',
            b':',
            rest @ ..,
        ] => Some((Key::PrimaryTerm, rest)),
        _ => outcome_key(quoted),
    }
}

// The same for keys of bodies that say what was done or found.
#[inline(always)]
fn outcome_key(quoted: &[u8]) -> Option<(Key<'_>, &[u8])>
    ensures { IfSome result (λ parts. (quoted.now ≡ key_text parts.0 ++ 34 ∷ 58 ∷ parts.1.now)
        × (list_all (λ b. not (stop b)) (key_text parts.0) ≡ true)) }
{
    match quoted {
        [b'r', b'e', b's', b'u', b'l', b't', b'"', b':', rest @ ..] => Some((Key::Outcome, rest)),
        [b'f', b'o', b'u', b'n', b'd', b'"', b':', rest @ ..] => Some((Key::Found, rest)),
        [
            b'_',
            b's',
            b'o',
            b'u',
            b'r',
            b'c',
            b'e',
            b'"',
            b':',
            rest @ ..,
        ] => Some((Key::Source, rest)),
        _ => condition_key(quoted),
    }
}

// The same for keys of conditions.
#[inline(always)]
fn condition_key(quoted: &[u8]) -> Option<(Key<'_>, &[u8])>
    ensures { IfSome result (λ parts. (quoted.now ≡ key_text parts.0 ++ 34 ∷ 58 ∷ parts.1.now)
        × (list_all (λ b. not (stop b)) (key_text parts.0) ≡ true)) }
{
    match quoted {
        [
            b'i',
            b'f',
            b'_',
            b's',
            b'e',
            b'q',
            b'_',
            b'n',
            b'o',
            b'"',
            b':',
            rest @ ..,
        ] => Some((Key::IfSeqNo, rest)),
        [
            b'i',
            b'f',
            b'_',
            b'p',
            b'r',
            b'i',
            b'm',
            b'a',
            b'r',
            b'y',
            b'_',
            b't',
            b'e',
            b'r',
            b'm',
            b'"',
            b':',
            rest @ ..,
        ] => Some((Key::IfPrimaryTerm, rest)),
        _ => None,
    }
}
