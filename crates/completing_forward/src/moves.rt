use crate::inserted_pair::NamedPair;
use crate::known::KnownPair;
use crate::state::Document;
use crate::wait_kind::WaitKind;
use crate::walk::{ForwardWalk, MOST_BACK, Placed};
use completing::{Count, No, Timed, earlier, leaves_it, needs};
use doc_register::Conflicts;
use events::Rec;
use version_pair::Pair;

/// What is tried next at a point of the search.
#[derive(Clone, Copy)]
pub enum NextTry {
    /// The writes that the next known pair can have, after those up to this index if one is given.
    Next(Option<usize>),
    /// The conflicts that were placed as refused, as writes that have the next known pair. The ones placed last,
    /// this many, are left out.
    NextTurned(usize),
    /// An unanswered delete.
    Delete,
    /// An unanswered write of the document.
    Index,
    /// The conflicts, as performed writes, after those with a reply up to this index if one is given.
    Conflict(Option<usize>),
    /// The conflicts that were placed as refused, as inserted writes. The ones placed last, this many, are left
    /// out.
    Turned(usize),
    /// An unanswered write of the document that takes a pair which a delete asks for, from an index among the
    /// named pairs on.
    Asked(usize),
    /// The same with a conflict as the performed write.
    AskedRefused(usize),
    /// The same with a conflict that was placed as refused.
    AskedTurned(usize),
    /// Nothing.
    Done,
}

// A write that is tried, and what is tried after it.
#[derive_where(Clone, Copy)]
struct Attempt<D: Count> {
    write: Placed<D>,
    next: NextTry,
}

impl NextTry {
    // What is tried when this has no write left.
    fn otherwise(self) -> NextTry {
        match self {
            NextTry::Next(_) => NextTry::NextTurned(0),
            NextTry::NextTurned(_) => NextTry::Delete,
            NextTry::Delete => NextTry::Index,
            NextTry::Index => NextTry::Conflict(None),
            NextTry::Conflict(_) => NextTry::Turned(0),
            NextTry::Turned(_) => NextTry::Asked(0),
            NextTry::Asked(_) => NextTry::AskedRefused(0),
            NextTry::AskedRefused(_) => NextTry::AskedTurned(0),
            NextTry::AskedTurned(_) | NextTry::Done => NextTry::Done,
        }
    }
}

// A record that is tried, and up to which index all were when it was: that of its call or reply.
#[derive_where(Clone, Copy)]
struct Tried<D: Count> {
    rec: No<D>,
    last: usize,
}

// The number of conflicts of a kind that are examined.
const MOST_WAITING: usize = MOST_BACK;

// Whether the state of the document before the write is what the write needs.
fn fits<D: Count>(walk: &ForwardWalk<'_, D>, found: Rec) -> bool {
    let document = walk.state.document;
    let needed = needs(found);
    if needed.is_some() && needed != Some(document.is_live()) {
        return false;
    }
    match found.op.condition() {
        Some(pair) => match document {
            // (The document's pair was taken last.)
            Document::Known(_) => walk.state.last == Some(pair),
            Document::Invented(Some(at)) => walk.known.named_place(pair) == Some(at),
            Document::Invented(None) | Document::Absent => false,
        },
        None => true,
    }
}

// The write with the next known pair, if it may be placed and fits.
fn fitting<D: Count>(walk: &ForwardWalk<'_, D>, rec: No<D>) -> Option<No<D>> {
    let found = walk.records.of(rec);
    if walk.may_be_placed(rec) && fits(walk, found) {
        Some(rec)
    } else {
        None
    }
}

// The first of the writes of the number, called after an index if one is given, that may have the next known
// pair.
fn first_of_number<D: Count>(
    walk: &ForwardWalk<'_, D>,
    number: u64,
    last: Option<usize>,
) -> Option<Tried<D>> {
    for entry in walk.numbers.waiting(number, last).iter().take(MOST_WAITING) {
        if fitting(walk, entry.rec).is_some() {
            return Some(Tried {
                rec: entry.rec,
                last: entry.at,
            });
        }
    }
    None
}

// The kind of the unanswered deletes under the condition of the present pair.
fn delete_on_present(document: Document) -> Option<WaitKind> {
    match document {
        Document::Known(at) => Some(WaitKind::LostDeleteOn(at)),
        Document::Invented(Some(at)) => Some(WaitKind::LostDeleteOnNamed(at)),
        Document::Invented(None) | Document::Absent => None,
    }
}

// The kind of the unanswered indexes under the condition of the present pair.
fn index_on_present(document: Document) -> Option<WaitKind> {
    match document {
        Document::Known(at) => Some(WaitKind::LostIndexOn(at)),
        Document::Invented(Some(at)) => Some(WaitKind::LostIndexOnNamed(at)),
        Document::Invented(None) | Document::Absent => None,
    }
}

// The kind of the conflicts under the condition of the present pair.
fn conflict_on_present(document: Document) -> Option<WaitKind> {
    match document {
        Document::Known(at) => Some(WaitKind::ConflictOn(at)),
        Document::Invented(Some(at)) => Some(WaitKind::ConflictOnNamed(at)),
        Document::Invented(None) | Document::Absent => None,
    }
}

// The unanswered delete that would be performed, one under the condition of the present pair first.
fn lost_delete<D: Count>(walk: &mut ForwardWalk<'_, D>) -> Option<No<D>> {
    if let Some(kind) = delete_on_present(walk.state.document) {
        if let Some(rec) = walk.first(kind) {
            return Some(rec);
        }
    }
    walk.first(WaitKind::LostDelete)
}

// The unanswered write of the document that would be performed, one under the condition of the present pair
// first.
fn lost_index<D: Count>(walk: &mut ForwardWalk<'_, D>) -> Option<No<D>> {
    if let Some(kind) = index_on_present(walk.state.document) {
        if let Some(rec) = walk.first(kind) {
            return Some(rec);
        }
    }
    if !walk.state.document.is_live() {
        if let Some(rec) = walk.first(WaitKind::LostCreate) {
            return Some(rec);
        }
    }
    walk.first(WaitKind::LostIndex)
}

// The first, in response order, of the conflicts of a kind that may be placed, with a reply after an index if
// one is given.
fn first_conflict<D: Count>(
    walk: &ForwardWalk<'_, D>,
    kind: WaitKind,
    last: Option<usize>,
    deletes: bool,
) -> Option<Timed<D>> {
    let mut first: Option<Timed<D>> = None;
    for waiting in walk.waiting(kind).iter().take(MOST_WAITING) {
        if let Some(reply_at) = performable(walk, waiting.rec, last, deletes) {
            let is_first = match first {
                Some(entry) => reply_at < entry.at,
                None => true,
            };
            if is_first {
                first = Some(Timed {
                    at: reply_at,
                    rec: waiting.rec,
                });
            }
        }
    }
    first
}

// The index of the reply of a conflict that may be placed.
fn performable<D: Count>(
    walk: &ForwardWalk<'_, D>,
    rec: No<D>,
    last: Option<usize>,
    deletes: bool,
) -> Option<usize> {
    let found = walk.records.of(rec);
    let (reply_at, _) = found.heard?;
    let is_kind = deletes || leaves_it(found.op);
    if last < Some(reply_at) && is_kind && walk.may_be_placed(rec) {
        Some(reply_at)
    } else {
        None
    }
}

// The first, in response order, of the conflicts that would be performed, with a reply after an index if one
// is given.
fn conflict<D: Count>(
    walk: &mut ForwardWalk<'_, D>,
    last: Option<usize>,
    deletes: bool,
) -> Option<Timed<D>> {
    if walk.conflicts == Conflicts::Plain {
        return None;
    }
    let free = first_conflict(walk, WaitKind::FreeConflict, last, deletes);
    let other = match walk.state.document {
        Document::Absent => first_conflict(walk, WaitKind::CreateConflict, last, deletes),
        present => match conflict_on_present(present) {
            Some(kind) => first_conflict(walk, kind, last, deletes),
            None => None,
        },
    };
    earlier(free, other)
}

// The writes that can have the next known pair, if only a condition names it: one unanswered write, then the
// conflicts. (No reply has the index 0.)
fn write_of_any_number<D: Count>(
    walk: &mut ForwardWalk<'_, D>,
    last: Option<usize>,
) -> Option<Tried<D>> {
    if last.is_none() {
        if let Some(rec) = lost_index(walk) {
            return Some(Tried { rec, last: 0 });
        }
    }
    let refused = conflict(walk, last, false)?;
    Some(Tried {
        rec: refused.rec,
        last: refused.at,
    })
}

// The next write that can have the known pair, which is the next one, after those up to an index if one is
// given.
fn next_writer_of<D: Count>(
    walk: &mut ForwardWalk<'_, D>,
    entry: KnownPair<D>,
    last: Option<usize>,
) -> Option<Tried<D>> {
    match (entry.writer, entry.number) {
        (Some(rec), _) if last.is_none() => Some(Tried {
            rec: fitting(walk, rec)?,
            last: 0,
        }),
        (Some(_), _) => None,
        (None, Some(number)) => {
            let _ = walk.numbers.first(number, &walk.placed);
            first_of_number(walk, number, last)
        }
        (None, None) => write_of_any_number(walk, last),
    }
}

// The next write with the next known pair to try, after those up to an index if one is given; and what is
// tried after it.
fn next_known<D: Count>(walk: &mut ForwardWalk<'_, D>, last: Option<usize>) -> Option<Attempt<D>> {
    if !walk.state.has_inserted() {
        return None;
    }
    let entry = walk.next_known()?;
    let tried = next_writer_of(walk, entry, last)?;
    Some(Attempt {
        write: Placed::Known(tried.rec, entry.pair),
        next: NextTry::Next(Some(tried.last)),
    })
}

// The last conflict that was placed as refused and can be the write with the next known pair here, if no reply
// tells which write has it, without the last `from` placed records; and what is tried after it.
fn next_turned<D: Count>(walk: &ForwardWalk<'_, D>, from: usize) -> Option<Attempt<D>> {
    let entry = walk.next_known()?;
    let may_be_refused = walk.conflicts == Conflicts::Maybe && entry.writer.is_none();
    if !may_be_refused || !walk.state.has_inserted() {
        return None;
    }
    for back in from..MOST_WAITING {
        if let Some(write) = walk.turned_to_known(back, entry) {
            let next = NextTry::NextTurned(back + 1);
            return Some(Attempt { write, next });
        }
    }
    None
}

// The write that has the next known pair, or is the only one of its number.
fn next_writer<D: Count>(walk: &ForwardWalk<'_, D>) -> Option<Rec> {
    let entry = walk.next_known()?;
    let rec = match entry.writer {
        Some(rec) => rec,
        None => walk.numbers.only(entry.number?)?,
    };
    Some(walk.records.of(rec))
}

// The last conflict that was placed as refused and can be an inserted write here, without the last `from` placed
// records; and what is tried after it.
fn last_turned<D: Count>(walk: &ForwardWalk<'_, D>, from: usize) -> Option<Attempt<D>> {
    for back in from..MOST_WAITING {
        if let Some(write) = walk.turned_over(back) {
            let next = NextTry::Turned(back + 1);
            return Some(Attempt { write, next });
        }
    }
    None
}

// Whether the next write needs the document to exist, or not to exist, and the opposite is the case.
fn next_misses<D: Count>(walk: &ForwardWalk<'_, D>) -> bool {
    match next_writer(walk) {
        Some(found) => match needs(found) {
            Some(live) => live != walk.state.document.is_live(),
            None => false,
        },
        None => false,
    }
}

// Whether an inserted delete is of any use, or an inserted write of the document.
fn serves<D: Count>(walk: &mut ForwardWalk<'_, D>, delete: bool) -> bool {
    let document = walk.state.document;
    if let Some(kind) = conflict_on_present(document) {
        if walk.first(kind).is_some() {
            return true;
        }
    }
    if delete != document.is_live() {
        return false;
    }
    let waiting = if delete {
        WaitKind::Missing
    } else {
        WaitKind::CreateConflict
    };
    walk.first(waiting).is_some() || next_misses(walk) || (delete && next_may_create(walk))
}

// Whether a create that no reply shows to be performed, which needs the document to be absent, can have the next known
// pair.
fn next_may_create<D: Count>(walk: &mut ForwardWalk<'_, D>) -> bool {
    let Some(entry) = walk.next_known() else {
        return false;
    };
    if entry.writer.is_some() {
        return false;
    }
    if walk.conflicts == Conflicts::Maybe && walk.has_refused_create(entry.number) {
        return true;
    }
    match entry.number {
        Some(number) => {
            let _ = walk.numbers.first(number, &walk.placed);
            has_create(walk, number)
        }
        None => walk.first(WaitKind::LostCreate).is_some(),
    }
}

// Whether a create of the number may be placed.
fn has_create<D: Count>(walk: &ForwardWalk<'_, D>, number: u64) -> bool {
    for waiting in walk.numbers.waiting(number, None).iter().take(MOST_WAITING) {
        let found = walk.records.of(waiting.rec);
        if needs(found) == Some(false) && walk.may_be_placed(waiting.rec) {
            return true;
        }
    }
    false
}

// Whether a write may be inserted before the next known pair: there is a number for it, and the next write
// does not ask for exactly the pair that is present.
fn may_insert<D: Count>(walk: &ForwardWalk<'_, D>) -> bool {
    if walk.room() == 0 || walk.state.budget_left() == 0 {
        return false;
    }
    match next_writer(walk) {
        Some(found) => found.op.condition().is_none(),
        None => true,
    }
}

// An unanswered write to insert, a delete or a write of the document.
fn write_to_insert<D: Count>(walk: &mut ForwardWalk<'_, D>, delete: bool) -> Option<No<D>> {
    if !may_insert(walk) || !serves(walk, delete) {
        return None;
    }
    if delete {
        lost_delete(walk)
    } else {
        lost_index(walk)
    }
}

// A conflict that was placed as refused, to be performed here, and what is tried after it.
fn turn_back<D: Count>(walk: &mut ForwardWalk<'_, D>, from: usize) -> Option<Attempt<D>> {
    let is_live = walk.state.document.is_live();
    if walk.conflicts == Conflicts::Maybe && may_insert(walk) && serves(walk, is_live) {
        last_turned(walk, from)
    } else {
        None
    }
}

// Whether a delete whose reply is a conflict under the condition of the named pair may have been performed
// there or later.
fn has_refused_delete<D: Count>(walk: &ForwardWalk<'_, D>, at: usize) -> bool {
    if walk.conflicts == Conflicts::Plain {
        return false;
    }
    let conflicts = walk.all(WaitKind::ConflictOnNamed(at));
    for waiting in conflicts.iter().take(MOST_WAITING) {
        let rec = waiting.rec;
        if walk.is_delete(rec) && (!walk.placed.of(rec) || walk.can_stand(rec)) {
            return true;
        }
    }
    false
}

// Whether a delete under the condition of the named pair may be performed there or later: an unanswered one,
// or under Maybe one whose reply is a conflict.
fn has_delete<D: Count>(walk: &mut ForwardWalk<'_, D>, at: usize) -> bool {
    walk.is_left(WaitKind::LostDeleteOnNamed(at)) || has_refused_delete(walk, at)
}

// Whether an inserted write of the document with an inserted delete after it is of any use.
fn serves_both<D: Count>(walk: &mut ForwardWalk<'_, D>) -> bool {
    if walk.state.document.is_live() {
        serves(walk, true)
    } else {
        matches!(next_writer(walk).and_then(needs), Some(false))
            || conflict(walk, None, false).is_some()
    }
}

// The named pair that a write of the document may take so that a delete which asks for it can be performed
// after it, from an index among these pairs on.
fn pair_for_delete<D: Count>(walk: &mut ForwardWalk<'_, D>, from: usize) -> Option<NamedPair> {
    if !may_insert(walk) || walk.state.budget_left() < 2 || !serves_both(walk) {
        return None;
    }
    let mut place = from;
    for _ in 0..MOST_WAITING {
        let named = walk.named_pair(place)?;
        if has_delete(walk, named.at) {
            return Some(named);
        }
        place = named.next;
    }
    None
}

// A conflict that was placed as refused, as a write of the document that takes the pair.
fn turned_to<D: Count>(walk: &ForwardWalk<'_, D>, pair: Pair) -> Option<Placed<D>> {
    if walk.conflicts == Conflicts::Plain {
        return None;
    }
    for back in 0..MOST_WAITING {
        if let Some(write) = walk.turned_to_write(back, pair) {
            return Some(write);
        }
    }
    None
}

// A write of the document that takes a pair which a delete asks for, at a turn of one of the three kinds: an
// unanswered one, one whose reply is a conflict, or such a one that was placed as refused; and what is tried after it.
fn asked<D: Count>(
    walk: &mut ForwardWalk<'_, D>,
    from: usize,
    turn: NextTry,
) -> Option<Attempt<D>> {
    let named = pair_for_delete(walk, from)?;
    let pair = Some(named.pair);
    let write = match turn {
        NextTry::AskedRefused(_) => Placed::Inserted(conflict(walk, None, false)?.rec, pair),
        NextTry::AskedTurned(_) => turned_to(walk, named.pair)?,
        _ => Placed::Inserted(lost_index(walk)?, pair),
    };
    let next = match turn {
        NextTry::AskedRefused(_) => NextTry::AskedRefused(named.next),
        NextTry::AskedTurned(_) => NextTry::AskedTurned(named.next),
        _ => NextTry::Asked(named.next),
    };
    Some(Attempt { write, next })
}

// The record as an inserted write, whose pair isn't chosen yet; and what is tried after it.
fn inserted<D: Count>(rec: No<D>, next: NextTry) -> Attempt<D> {
    Attempt {
        write: Placed::Inserted(rec, None),
        next,
    }
}

// The write that is tried at a turn, if there is one; and what is tried after it.
fn attempt_at<D: Count>(walk: &mut ForwardWalk<'_, D>, turn: NextTry) -> Option<Attempt<D>> {
    match turn {
        NextTry::Next(last) => next_known(walk, last),
        NextTry::NextTurned(from) => next_turned(walk, from),
        NextTry::Delete => Some(inserted(write_to_insert(walk, true)?, turn.otherwise())),
        NextTry::Index => Some(inserted(write_to_insert(walk, false)?, turn.otherwise())),
        NextTry::Conflict(last) => match conflict(walk, last, true) {
            Some(refused) if may_insert(walk) => {
                Some(inserted(refused.rec, NextTry::Conflict(Some(refused.at))))
            }
            _ => None,
        },
        NextTry::Turned(from) => turn_back(walk, from),
        NextTry::Asked(from) | NextTry::AskedRefused(from) | NextTry::AskedTurned(from) => {
            asked(walk, from, turn)
        }
        NextTry::Done => None,
    }
}

/// Returns the next write to try at a point, if one is left, and advances the turn.
pub fn next_write<D: Count>(
    walk: &mut ForwardWalk<'_, D>,
    turn: &mut NextTry,
) -> Option<Placed<D>> {
    for _ in 0..9 {
        if let Some(made) = attempt_at(walk, *turn) {
            *turn = made.next;
            return Some(made.write);
        }
        *turn = turn.otherwise();
    }
    None
}

/// Returns whether the point cannot lead anywhere: a get found the present pair and can't be placed, or the
/// next write is under the condition of a pair that is gone.
pub fn is_dead_end<D: Count>(walk: &mut ForwardWalk<'_, D>) -> bool {
    if let Document::Known(at) = walk.state.document {
        if walk.is_left(WaitKind::Found(at)) {
            return true;
        }
    }
    match next_writer(walk) {
        Some(found) => found.op.condition().is_some() && !fits(walk, found),
        None => false,
    }
}
