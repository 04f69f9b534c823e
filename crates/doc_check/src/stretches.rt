ghost use Rattle.std.specs.Prelude.{◌≡◌, ◌≤◌, ◌<◌, ◌↔◌, ℕ, IfOk, IfSome, IfNone, IsTrue, Some, length, slice_get};
ghost use Rattle.std.specs.List.Sorted.{IsBinarySearchResult, IsSearchInRange};
ghost use Rattle.doc_register.specs.declared.reply.Reply.TheVariants.{Conflict};
ghost use Rattle.doc_register.specs.Register.{HasPair};
ghost use Rattle.doc_register.specs.Run.{pair_taken};
ghost use Rattle.write_chain.specs.Chain.{IsChain, Rises, pair_cmp};
ghost use Rattle.events.specs.Heard.{pair_of};
ghost use Rattle.doc_check.specs.aids.Stretches.{AreLaidOut, AreStretches, FitsAs, HoldsNowhere, IsGuess, IsLatest, IsReadIn, ReadFits, WriteFits, state_in};

use crate::latest::latest_stretches;
use doc_register::{DocState, Op, Reply, step};
use events::Rec;
use std::alloc::Global;
use version_pair::{NoMemory, Pair};
use write_chain::{pairs_of, states_of};

// The number of links below the bound that are examined before the whole chain is searched.
const NEAR: usize = 16;

/// The chain of a document, and what each stretch of it allows. Stretch 0 comes before the first write of the
/// chain, stretch j after the j-th write.
#[derive(Drop)]
pub struct Stretches {
    // The writes of the chain, each as its pair and its record.
    chain: Vec<(Pair, usize)>,
    // Their pairs, which rise.
    pairs: Vec<Pair>,
    // The state of the document in each stretch.
    states: Vec<DocState>,
    // For each stretch, the latest one up to it in which the document does not exist.
    absent: Vec<Option<usize>>,
    // For each stretch, the latest one up to it in which the document exists.
    present: Vec<Option<usize>>,
}

impl Stretches {
    /// Returns the stretches of a chain.
    pub fn of(
        alloc: Global,
        records: &[Rec],
        chain: Vec<(Pair, usize)>,
    ) -> Result<Stretches, NoMemory>
        requires chain { IsChain records.now chain.items }
        requires rising { Rises chain.items }
        ensures { IfOk result (λ stretches. AreStretches records.now stretches
            × (stretches.chain.items ≡ chain.items)) }
    {
        let states = states_of(alloc, records, &chain)?;
        let absent = latest_stretches(alloc, &states, false)?;
        let present = latest_stretches(alloc, &states, true)?;
        let pairs = pairs_of(alloc, &chain)?;
        Ok(Stretches {
            chain,
            pairs,
            states,
            absent,
            present,
        })
    }

    /// Returns the number of the last stretch.
    pub fn last(&self) -> usize
        ensures { result ≡ length self.now.chain.items }
    {
        self.chain.len()
    }

    // Whether a call that is not a performed write can have this reply in the stretch.
    fn allows(&self, found: &Rec, reply: Reply, stretch: usize) -> bool
        requires { stretch < length self.now.states.items }
        ensures { IsTrue result ↔ IsReadIn self.now.states.items found.now.op reply stretch }
    {
        match step(self.states[stretch], &found.op, &reply, None) {
            Some(state) => state == self.states[stretch],
            None => false,
        }
    }

    // The link of the chain with this pair, if it is one of the few below the bound.
    fn near_link(&self, pair: Pair, bound: usize) -> Option<usize>
        ensures { IfSome result (λ link. slice_get self.now.pairs.items link ≡ Some pair) }
    {
        let mut link = bound.min(self.pairs.len());
        let least = link.saturating_sub(NEAR);
        while link > least {
            link -= 1;
            if self.pairs[link] == pair {
                return Some(link);
            }
        }
        None
    }

    // The link of the chain with this pair. It is searched for below the bound first: calls are answered soon
    // after what they see, so most pairs are there.
    fn link_of(&self, pair: Pair, bound: usize) -> Result<usize, usize>
        ensures bound { IsSearchInRange result (length self.now.pairs.items) }
        ensures position { IsBinarySearchResult (λ p. pair_cmp p pair) self.now.pairs.items result }
    {
        match self.near_link(pair, bound) {
            Some(link) => Ok(link),
            None => self.pairs.binary_search(&pair),
        }
    }

    // The stretch that begins with the write of this pair, which is searched for below the bound first.
    fn of_pair(&self, pair: Pair, bound: usize) -> Option<usize>
        requires { AreLaidOut self.now }
        ensures some { IfSome result
            (λ j. (l : ℕ) → HasPair (state_in self.now.states.items l) pair → l ≡ j) }
        ensures none { IfNone result
            ((l : ℕ) → ¬ HasPair (state_in self.now.states.items l) pair) }
    {
        match self.link_of(pair, bound) {
            Ok(link) => Some(link + 1),
            Err(_) => None,
        }
    }

    // The latest stretch up to the bound in which the document does not have exactly the pair that the call
    // asks for.
    fn other_than_asked(&self, found: &Rec, bound: usize) -> Option<usize>
        requires { bound < length self.now.states.items }
        ensures some { IfSome result
            (IsGuess (IsReadIn self.now.states.items found.now.op Conflict) bound) }
        ensures none { IfNone result
            (HoldsNowhere (IsReadIn self.now.states.items found.now.op Conflict) bound) }
    {
        let mut stretch = bound;
        while !self.allows(found, Reply::Conflict, stretch) {
            if stretch == 0 {
                return None;
            }
            stretch -= 1;
        }
        Some(stretch)
    }

    // The latest stretch up to the bound that may be that of a conflict. A write without a condition never
    // conflicts.
    fn of_conflict(&self, found: &Rec, bound: usize) -> Option<usize>
        requires laid_out { AreLaidOut self.now }
        requires bound { bound < length self.now.states.items }
        ensures some { IfSome result
            (IsGuess (IsReadIn self.now.states.items found.now.op Conflict) bound) }
        ensures none { IfNone result
            (HoldsNowhere (IsReadIn self.now.states.items found.now.op Conflict) bound) }
    {
        match found.op {
            Op::Create { .. } => self.present[bound],
            Op::Index { cond: Some(_), .. } | Op::Delete { cond: Some(_) } => {
                self.other_than_asked(found, bound)
            }
            _ => None,
        }
    }

    // The latest stretch up to the bound that may be that of a get that found the pair.
    fn of_found(&self, pair: Pair, bound: usize) -> Option<usize>
        requires { AreLaidOut self.now }
        ensures some { IfSome result (λ j. (j ≤ bound)
            × ((l : ℕ) → HasPair (state_in self.now.states.items l) pair → l ≡ j)) }
        ensures none { IfNone result
            ((l : ℕ) → l ≤ bound → ¬ HasPair (state_in self.now.states.items l) pair) }
    {
        match self.of_pair(pair, bound) {
            Some(stretch) => {
                if stretch <= bound {
                    Some(stretch)
                } else {
                    None
                }
            }
            None => None,
        }
    }

    // The latest stretch up to the bound that may be that of a call that is not a performed write.
    fn guess(&self, found: &Rec, reply: Reply, bound: usize) -> Option<usize>
        requires laid_out { AreLaidOut self.now }
        requires bound { bound < length self.now.states.items }
        requires read { pair_taken reply None ≡ None }
        ensures some { IfSome result
            (IsGuess (IsReadIn self.now.states.items found.now.op reply) bound) }
        ensures none { IfNone result
            (HoldsNowhere (IsReadIn self.now.states.items found.now.op reply) bound) }
    {
        match reply {
            Reply::Found { pair, .. } => self.of_found(pair, bound),
            Reply::Missing => self.absent[bound],
            Reply::Conflict => self.of_conflict(found, bound),
            _ => None,
        }
    }

    // The latest stretch up to the bound for a call that is not a performed write.
    fn of_read(&self, found: &Rec, bound: usize) -> Option<usize>
        requires laid_out { AreLaidOut self.now }
        requires bound { bound < length self.now.states.items }
        requires read { pair_of found.now.heard ≡ None }
        ensures some { IfSome result
            (IsLatest (ReadFits self.now.states.items found.now.op found.now.heard) bound) }
        ensures none { IfNone result
            (HoldsNowhere (ReadFits self.now.states.items found.now.op found.now.heard) bound) }
    {
        let Some(heard) = found.heard else {
            return None;
        };
        match self.guess(found, heard.1, bound) {
            Some(stretch) => {
                if self.allows(found, heard.1, stretch) {
                    Some(stretch)
                } else {
                    None
                }
            }
            None => None,
        }
    }

    // The stretch that begins with the write, if it is not above the bound.
    fn of_write(&self, rec: usize, pair: Pair, bound: usize) -> Option<usize>
        requires { AreLaidOut self.now }
        ensures some { IfSome result (IsLatest (WriteFits self.now.chain.items rec pair) bound) }
        ensures none { IfNone result
            (HoldsNowhere (WriteFits self.now.chain.items rec pair) bound) }
    {
        match self.link_of(pair, bound) {
            Ok(link) => {
                if link < bound && self.chain[link].1 == rec {
                    Some(link + 1)
                } else {
                    None
                }
            }
            Err(_) => None,
        }
    }

    /// Returns the latest stretch up to the bound that the record fits.
    pub fn latest(&self, rec: usize, found: &Rec, bound: usize) -> Option<usize>
        requires laid_out { AreLaidOut self.now }
        requires bound { bound < length self.now.states.items }
        ensures some { IfSome result (IsLatest (FitsAs (pair_of found.now.heard)
            self.now.chain.items self.now.states.items rec found.now) bound) }
        ensures none { IfNone result (HoldsNowhere (FitsAs (pair_of found.now.heard)
            self.now.chain.items self.now.states.items rec found.now) bound) }
    {
        match found.pair_taken() {
            Some(pair) => self.of_write(rec, pair, bound),
            None => self.of_read(found, bound),
        }
    }
}
