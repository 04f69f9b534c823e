ghost use Rattle.std.specs.Prelude.{◌≡◌, ◌∷◌, ◌++◌, IfOk, IsTrue, ℕ, cond, true};
ghost use Rattle.deciding.specs.Branches.{is_in};
ghost use Rattle.deciding.specs.Steps.{without};

use std::alloc::Global;
use version_pair::NoMemory;

/// Returns whether the number is one of the list.
pub fn is_in(number: usize, list: &[usize]) -> bool
    ensures { result ≡ is_in number list.now }
{
    for i in 0..list.len() {
        if list[i] == number {
            return true;
        }
    }
    false
}

/// Returns whether all numbers of the first list are in the second.
pub fn are_in(first: &[usize], second: &[usize]) -> bool
    ensures { IsTrue result → (n : ℕ) → is_in n first.now ≡ true → is_in n second.now ≡ true }
{
    for i in 0..first.len() {
        if !is_in(first[i], second) {
            return false;
        }
    }
    true
}

/// Returns the list without the number.
pub fn without(alloc: Global, number: usize, list: &[usize]) -> Result<Vec<usize>, NoMemory>
    ensures { IfOk result (λ left. left.items ≡ without number list.now) }
{
    let mut left = Vec::new(alloc);
    for i in 0..list.len() {
        if list[i] != number {
            left.push(list[i])?;
        }
    }
    Ok(left)
}

/// Returns the list with the number before it, if it is to be added.
pub fn with_some(
    alloc: Global,
    is_added: bool,
    number: usize,
    list: &[usize],
) -> Result<Vec<usize>, NoMemory>
    ensures { IfOk result (λ all. all.items ≡ cond is_added (number ∷ list.now) list.now) }
{
    let mut all = Vec::new(alloc);
    if is_added {
        all.push(number)?;
    }
    all.extend_from_slice(list)?;
    Ok(all)
}
