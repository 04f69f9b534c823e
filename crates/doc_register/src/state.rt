ghost use Rattle.std.specs.Prelude.{◌≡◌, IfNone, IfSome, None as Nothing};

use crate::op::Op;
use crate::reply::Reply;
use version_pair::Pair;

/// The state of one document.
#[derive(Clone, Copy, Debug, PartialEq, Eq)]
pub enum DocState {
    /// It was never written.
    Never,
    /// Its last change, with this pair, deleted it.
    Gone(Pair),
    /// Its last change, with this pair, wrote it with this number.
    Here(Pair, u64),
}

impl DocState {
    ghost use Rattle.doc_register.specs.Register.{DocStep, last_pair};

    /// Returns the pair of the document's last change, if it has one.
    pub fn pair(&self) -> Option<Pair>
        ensures { result ≡ last_pair self.now }
    {
        match self {
            DocState::Never => None,
            DocState::Gone(pair) | DocState::Here(pair, _) => Some(*pair),
        }
    }

    /// Returns a write without a condition, and its reply, that bring a document that was never written to
    /// this state; `None` if this document was never written.
    pub fn making(&self) -> Option<(Op, Reply)>
        // The operation and its reply are a step from a document that was never written to this state, and
        // hide no pair.
        ensures some { IfSome result (λ made. DocStep DocState.Never made.0 made.1 Nothing self.now) }
        // There is no result only for a document that was never written.
        ensures none { IfNone result (self.now ≡ DocState.Never) }
    {
        match *self {
            DocState::Never => None,
            DocState::Gone(pair) => Some((
                Op::Delete { cond: None },
                Reply::Deleted { pair, found: false },
            )),
            DocState::Here(pair, k) => Some((
                Op::Index { k, cond: None },
                Reply::Indexed {
                    pair,
                    created: true,
                },
            )),
        }
    }
}

/// How to read a conflict.
#[derive(Clone, Copy, Debug, PartialEq, Eq)]
pub enum Conflicts {
    /// A write whose reply is a conflict was not performed.
    Plain,
    /// A write whose reply is a conflict may have been performed, with a pair that the reply does not show.
    Maybe,
}
