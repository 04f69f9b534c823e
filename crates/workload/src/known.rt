ghost use Rattle.std.specs.Prelude.{◌≡◌, ◌<◌, IfOk};
ghost use Rattle.workload.specs.ClientRuns.{after_reply, nothing_known, pair_in};
ghost use Rattle.workload.specs.Plans.{most_docs};

use crate::plan::MOST_DOCS;
use doc_register::Reply;
use std::alloc::{AllocError, Global};
use std::marker::Model;
use version_pair::Pair;

/// What a client knows: for each document that there may be, the pair last reported of it, if there is one.
///
/// Contracts see the list of these pairs, which `pair_in` reads by the number of a document.
#[derive(Drop)]
pub struct LastPairs {
    pairs: Vec<Option<Pair>>,
}

impl Model for LastPairs {
    ghost use Rattle.std.specs.Prelude.{◌≡◌, List, Option, length};
    ghost use Rattle.version_pair.specs.declared.pair.Pair.{Pair};
    ghost use Rattle.workload.specs.Plans.{most_docs};

    ghost Value = { List (Option Pair) };

    ghost view = { λ k. k.pairs.items };

    ghost invariant = { λ k. length k.pairs.items ≡ most_docs };
}

impl LastPairs {
    /// Returns the value in which nothing is known.
    pub fn nothing(alloc: Global) -> Result<LastPairs, AllocError>
        ensures { IfOk result (λ known. pair_in known ≡ nothing_known) }
    {
        let mut pairs = Vec::with_capacity(alloc, MOST_DOCS as usize)?;
        for _ in 0..MOST_DOCS {
            pairs.push(None)?;
        }
        Ok(LastPairs { pairs })
    }

    /// Returns the pair last reported of a document, if there is one.
    pub fn pair(&self, doc: u32) -> Option<Pair>
        ensures { result ≡ pair_in self.now doc }
    {
        self.pairs.get(doc as usize).copied().unwrap_or(None)
    }

    /// Takes in a reply: from now on the document has the pair that the reply reports, or none.
    pub fn hear(&mut self, doc: u32, reply: &Reply)
        requires { doc < most_docs }
        ensures { pair_in self.new ≡ after_reply (pair_in self.old) doc reply.now }
    {
        self.pairs[doc as usize] = reply.pair();
    }
}
