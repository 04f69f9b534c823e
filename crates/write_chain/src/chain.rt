ghost use Rattle.std.specs.Prelude.{◌≡◌, ◌∷◌, ◌↔◌, ◌<◌, All, IfOk, IsTrue, length, map};
ghost use Rattle.doc_register.specs.declared.state.DocState.TheVariants.{Never};
ghost use Rattle.write_chain.specs.Chain.{IsChain, Rises, after_link, performed_records};

use crate::nearly_ordered::sort_nearly_ordered;
use doc_register::{DocState, Op};
use events::Rec;
use std::alloc::Global;
use version_pair::{NoMemory, Pair};

// The performed answered writes in the order of their records, each as its pair and the number of its record.
fn performed_by_pair(alloc: Global, records: &[Rec]) -> Result<Vec<(Pair, usize)>, NoMemory>
    ensures links { IfOk result (λ links. links.items ≡ performed_records 0 records.now) }
    ensures within { IfOk result (λ links. All (λ link. link.1 < length records.now) links.items) }
{
    let mut links = Vec::new(alloc);
    for k in 0..records.len() {
        if let Some(pair) = records[k].pair_taken() {
            links.push((pair, k))?;
        }
    }
    Ok(links)
}

/// Returns the chain of a document: its performed answered writes, sorted by pair.
pub fn chain_of(alloc: Global, records: &[Rec]) -> Result<Vec<(Pair, usize)>, NoMemory>
    // The chain has the performed answered writes of the records, each once, by pair and then by number.
    ensures chain { IfOk result (λ chain. IsChain records.now chain.items) }
    // Each number is that of a record.
    ensures within { IfOk result (λ chain. All (λ link. link.1 < length records.now) chain.items) }
{
    let mut links = performed_by_pair(alloc, records)?;
    sort_nearly_ordered(&mut links);
    Ok(links)
}

/// Returns whether each pair of the chain is below the next.
pub fn rises(chain: &[(Pair, usize)]) -> bool
    ensures { IsTrue result ↔ Rises chain.now }
{
    for k in 1..chain.len() {
        if !chain[k - 1].0.is_below(chain[k].0) {
            return false;
        }
    }
    true
}

/// Returns the pairs of the chain.
pub fn pairs_of(alloc: Global, chain: &[(Pair, usize)]) -> Result<Vec<Pair>, NoMemory>
    ensures { IfOk result (λ pairs. pairs.items ≡ map (λ link. link.0) chain.now) }
{
    let mut pairs = Vec::new(alloc);
    for link in chain {
        pairs.push(link.0)?;
    }
    Ok(pairs)
}

// The document after a write of the chain.
fn after(records: &[Rec], link: (Pair, usize)) -> DocState
    ensures { result ≡ after_link records.now link }
{
    let (pair, rec) = link;
    match records.get(rec) {
        Some(found) => match found.op {
            Op::Index { k, .. } | Op::Create { k } => DocState::Here(pair, k),
            Op::Delete { .. } => DocState::Gone(pair),
            Op::Get => DocState::Never,
        },
        None => DocState::Never,
    }
}

/// Returns the state of the document in each stretch of the chain. In stretch 0, before the first write, the
/// document was never written; stretch j comes after the j-th write.
pub fn states_of(
    alloc: Global,
    records: &[Rec],
    chain: &[(Pair, usize)],
) -> Result<Vec<DocState>, NoMemory>
    // The first state is that of a document that was never written, and then comes one after each write of
    // the chain.
    ensures { IfOk result
        (λ states. states.items ≡ Never ∷ map (after_link records.now) chain.now) }
{
    let mut states = Vec::new(alloc);
    states.push(DocState::Never)?;
    for link in chain {
        states.push(after(records, *link))?;
    }
    Ok(states)
}
