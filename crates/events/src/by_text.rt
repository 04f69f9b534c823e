ghost use Rattle.std.specs.Prelude.{◌≡◌};
ghost use Rattle.std.proofs.Common.{ap};
ghost use Rattle.std.specs.Cmp.Lexicographic.{bytes_decides, nat_list_eq_equiv};
ghost use Rattle.std.specs.Hash as fed;
ghost use Rattle.events.specs.Events.{is_same};

use indexmap::Equivalent;
use version_pair::{DocId, IdText};

/// The text of an id. It finds the id where ids are keys.
#[derive(Clone, Copy, PartialEq, Eq, Hash)]
pub(crate) struct ByText<'t> {
    text: &'t str,
}

impl<'t> ByText<'t> {
    /// Returns the text of the id as a key.
    pub fn of(id: &IdText<'t>) -> ByText<'t>
        ensures { result.text.now ≡ id.now }
    {
        ByText { text: id.as_str() }
    }
}

impl<'t> Equivalent<DocId> for ByText<'t> {
    ghost equivalent = { λ q d. is_same q.text.now d };

    ghost respects_hash = { λ q d h. ap fed.str ((bytes_decides q.text.now d).0 h) };

    ghost respects_eq = { λ q d e. nat_list_eq_equiv.congr q.text.now d e };

    fn equivalent(&self, key: &DocId) -> bool {
        self.text == key.as_str()
    }
}
