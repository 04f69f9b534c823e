ghost use Rattle.std.specs.Prelude.{◌≡◌, ◌<◌, ◌%◌, IfOk, OnOk, map};
ghost use Rattle.workload.specs.Drawing.{after_turn, after_turns, clients_drawn, generator_of, kind_numbered as kind_by, turn_drawn, turns_drawn};

use crate::turn::{Kind, Turn};
use rand_core::utils::NextWord;
use rand_pcg::Lcg64Xsh32;
use std::alloc::{AllocError, Global};

// The stream of generator words from which a plan is drawn.
const STREAM: u64 = 54;

/// Returns the generator of the seed from which a plan is drawn.
pub fn generator(seed: u64) -> Lcg64Xsh32
    ensures { result ≡ generator_of seed }
{
    Lcg64Xsh32::new(seed, STREAM)
}

// The kind of this number, 0 to 7.
fn kind_numbered(number: u32) -> Kind
    ensures { result ≡ kind_by number }
{
    match number {
        0..=2 => Kind::Get,
        3 | 4 => Kind::PutIfSeen,
        5 => Kind::Put,
        6 => Kind::DeleteIfSeen,
        _ => Kind::Delete,
    }
}

// A turn, with that many documents to choose from.
#[tactic(auto, unfolding(crate::specs::Drawing::turn_drawn, crate::specs::Drawing::after_turn))]
fn draw_turn(random: &mut Lcg64Xsh32, docs: u32) -> Turn
    requires { 0 < docs }
    ensures turn { result ≡ turn_drawn docs random.old }
    ensures random { random.new ≡ after_turn random.old }
{
    let doc = random.next_word() % docs;
    let kind = kind_numbered(random.next_word() % 8);
    Turn { doc, kind }
}

// The turns of a client with that many calls.
#[tactic(auto, using(crate::proofs::DrawingLemmas::more_turns), unfolding(crate::specs::Drawing::turns_drawn, crate::specs::Drawing::after_turns))]
fn draw_turns(
    alloc: Global,
    random: &mut Lcg64Xsh32,
    calls: u32,
    docs: u32,
) -> Result<Vec<Turn>, AllocError>
    requires { 0 < docs }
    ensures turns { IfOk result (λ turns. turns.items ≡ turns_drawn docs calls random.old) }
    ensures random { OnOk result (random.new ≡ after_turns calls random.old) }
{
    let mut turns = Vec::with_capacity(alloc, calls as usize)?;
    for _ in 0..calls {
        turns.push(draw_turn(random, docs))?;
    }
    Ok(turns)
}

/// Returns the turns of that many clients with that many calls each, drawn client by client.
#[tactic(auto, using(crate::proofs::DrawingLemmas::more_clients), unfolding(crate::specs::Drawing::clients_drawn, crate::proofs::DrawingLemmas::after_clients))]
pub fn draw_clients(
    alloc: Global,
    random: &mut Lcg64Xsh32,
    clients: u32,
    calls: u32,
    docs: u32,
) -> Result<Vec<Vec<Turn>>, AllocError>
    requires { 0 < docs }
    ensures { IfOk result (λ drawn. map (λ turns. turns.items) drawn.items
        ≡ clients_drawn docs calls clients random.old) }
{
    let mut drawn = Vec::with_capacity(alloc, clients as usize)?;
    for _ in 0..clients {
        drawn.push(draw_turns(alloc, random, calls, docs)?)?;
    }
    Ok(drawn)
}
