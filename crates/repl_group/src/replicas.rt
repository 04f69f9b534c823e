ghost use Rattle.std.specs.Prelude.{◌≡◌, ℕ, ◌+◌, cond, ◌<◌, count_by, Some, false, slice_get, replicate, slice_set, vec_len, IfOk, OnErr, OnOk, map, true};
ghost use Rattle.std.specs.Option.{option_copied};
ghost use Rattle.repl_group.specs.declared.replica.Replica.{Replica as Kept};
ghost use Rattle.repl_group.specs.aids.Following.{follows};
ghost use Rattle.repl_group.specs.aids.Holding.{HeldState};
ghost use Rattle.repl_group.specs.aids.Keeping.{new_replica, taken_by};

use crate::held::Held;
use crate::replica::Replica;
use std::alloc::Global;
use std::mem;
use version_pair::NoMemory;

/// Returns this many copies that hold nothing, in sync and reached.
pub fn new_replicas(alloc: Global, count: u32) -> Result<Vec<Replica>, NoMemory>
    ensures { IfOk result (λ replicas. replicas.items ≡ replicate count new_replica) }
{
    let mut replicas = Vec::new(alloc);
    for _ in 0..count {
        replicas.push(Replica {
            held: Held::new(alloc),
            is_cut: false,
            is_in_sync: true,
        })?;
    }
    Ok(replicas)
}

/// Returns the copy of this number.
pub fn find_replica(replicas: &[Replica], copy: u32) -> Option<&Replica>
    ensures { option_copied result ≡ slice_get replicas.now copy }
{
    replicas.get(copy as usize)
}

/// Reaches a copy again, in sync, and lets it hold this.
pub fn renew(replicas: &mut Vec<Replica>, copy: u32, held: Held)
    requires { copy < vec_len replicas.old }
    ensures { replicas.new.items ≡ slice_set replicas.old.items copy (record { held = held; is_cut = false; is_in_sync = true }) }
{
    replicas[copy as usize] = Replica {
        held,
        is_cut: false,
        is_in_sync: true,
    };
}

// Whether the copy takes what a new primary holds.
fn is_follower(replica: &Replica) -> bool
    ensures { result ≡ follows replica.now }
{
    replica.is_in_sync && !replica.is_cut
}

// The number of copies that take what a new primary holds.
fn follower_count(replicas: &[Replica]) -> usize
    ensures { result ≡ count_by follows replicas.now }
{
    let mut count = 0;
    for replica in replicas {
        if is_follower(replica) {
            count += 1;
        }
    }
    count
}

// That many copies of what is held.
fn copies_of(alloc: Global, held: &Held, count: usize) -> Result<Vec<Held>, NoMemory>
    ensures { IfOk result (λ sets. sets.items ≡ replicate count held.now) }
{
    let mut sets = Vec::new(alloc);
    for _ in 0..count {
        sets.push(held.copy()?)?;
    }
    Ok(sets)
}

// Gives a copy one of the sets, all of which are what the new primary holds; a copy that is cut is not in
// sync any more.
fn lead(replica: &mut Replica, sets: &mut Vec<Held>)
    ensures { (held : HeldState) (n : ℕ) → sets.old.items ≡ replicate (n + cond (follows replica.old) 1 0) held
        → (replica.new ≡ taken_by held replica.old) × (sets.new.items ≡ replicate n held) }
{
    if !is_follower(replica) {
        replica.is_in_sync = false;
        return;
    }
    if let Some(set) = sets.pop() {
        replica.held = set;
    }
}

// Gives each copy one of the sets.
fn hand_over(replicas: &mut Vec<Replica>, mut sets: Vec<Held>)
    ensures { (held : HeldState) → sets.items ≡ replicate (count_by follows replicas.old.items) held
        → replicas.new.items ≡ map (taken_by held) replicas.old.items }
{
    for replica in replicas.iter_mut() {
        lead(replica, &mut sets);
    }
}

/// Lets the copies that are in sync and not cut hold what the new primary holds, which is one of them; the
/// cut copies are not in sync any more. If memory is refused, nothing changes. For each of these copies the
/// time is proportional to the number of documents.
pub fn follow(replicas: &mut Vec<Replica>, primary: u32) -> Result<(), NoMemory>
    requires { primary < vec_len replicas.old }
    ensures ok { OnOk result ((y : Kept) → slice_get replicas.old.items primary ≡ Some y → follows y ≡ true
        → replicas.new.items ≡ map (taken_by y.held) replicas.old.items) }
    ensures err { OnErr result (replicas.new.items ≡ replicas.old.items) }
{
    let alloc = *replicas.allocator();
    let others = follower_count(replicas).saturating_sub(1);
    let mut sets = copies_of(alloc, &replicas[primary as usize].held, others)?;
    sets.reserve(1)?;
    let own = mem::replace(&mut replicas[primary as usize].held, Held::new(alloc));
    sets.push_reserved(own);
    hand_over(replicas, sets);
    Ok(())
}
