use crate::count::{Count, No};
use crate::table::Table;
use doc_register::{Op, Reply};
use events::Rec;
use version_pair::Pair;

/// A write of a chain.
#[derive_where(Clone, Copy)]
pub struct ChainWrite<D: Count> {
    /// Its pair; `None` for one that is invented at the end.
    pub pair: Option<Pair>,
    /// Its record.
    pub rec: No<D>,
}

/// Writes in their order, and for each answered record that is not one of them its stretch: how many of them
/// come before it.
#[derive(Drop)]
pub struct Chain<D: Count> {
    pub writes: Vec<ChainWrite<D>>,
    pub stretches: Table<D, Option<usize>>,
}

/// Returns whether the document exists after the operation.
pub fn leaves_it(op: Op) -> bool {
    matches!(op, Op::Index { .. } | Op::Create { .. })
}

/// Returns whether the document must exist before the write, or must not; `None` if either will do.
pub fn needs(found: Rec) -> Option<bool> {
    match found.heard {
        Some((_, Reply::Indexed { created, .. })) => Some(!created),
        Some((_, Reply::Deleted { found, .. })) => Some(found),
        _ => match found.op {
            Op::Create { .. } => Some(false),
            Op::Index { cond: Some(_), .. } | Op::Delete { cond: Some(_) } => Some(true),
            _ => None,
        },
    }
}

/// Returns whether the record's reply is a conflict.
pub fn is_conflict(found: Rec) -> bool {
    matches!(found.heard, Some((_, Reply::Conflict)))
}

/// Returns whether the record's reply is a conflict that no document refuses: an index or a delete without a
/// condition, which must be performed.
pub fn is_free_conflict(found: Rec) -> bool {
    is_conflict(found) && found.op.condition().is_none() && !matches!(found.op, Op::Create { .. })
}
