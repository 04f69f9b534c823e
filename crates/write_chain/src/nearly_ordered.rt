ghost use Rattle.std.specs.Prelude.{IsPermutation, IsSorted, ◌<◌, length};

// The number of steps for each item by which items are moved down before the general sort takes the list.
const STEPS: usize = 8;

// Moves the item at an index down past those that are above it, by at most that many steps. Returns how many
// steps are left.
fn sink<T: Ord>(items: &mut Vec<T>, place: usize, steps: usize) -> usize
    requires { place < length items.old.items }
    ensures { IsPermutation items.old.items items.new.items }
{
    let mut at = place;
    let mut left = steps;
    while at > 0 && left > 0 && items[at].cmp(&items[at - 1]).is_lt() {
        items.swap(at - 1, at);
        at -= 1;
        left -= 1;
    }
    left
}

/// Sorts a list whose items are near their final positions, as those of replies are among those of calls.
/// Each item is moved down step by step, with a total of a few steps per item; then the general sort takes
/// the list, which is already sorted unless that was too few.
pub fn sort_nearly_ordered<T: Ord>(items: &mut Vec<T>)
    // The list has the items that it had.
    ensures permutation { IsPermutation items.old.items items.new.items }
    // They are in their order.
    ensures sorted { IsSorted T.cmp items.new.items }
{
    let mut left = items.len().saturating_mul(STEPS);
    for place in 1..items.len() {
        left = sink(items, place, left);
    }
    items.sort_unstable();
}
