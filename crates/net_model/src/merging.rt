//! The sums of a list's entries, one for each point.

ghost use Rattle.std.specs.Prelude.{◌≡◌, ℕ, ◌+◌, ◌^◌, ◌<◌, ◌≤◌, sum_by, All, length, take};
ghost use Rattle.std.specs.List.{filter_map, range_with_len};
ghost use Rattle.std.specs.List.Sorted.{IsNonDecreasingBy};
ghost use Rattle.net_model.specs.Forms.Steps.{as_sum};

use crate::parts::Near;

/// Sorts the entries by their points, and puts one entry with the sum of the weights in the place of
/// those of one point.
pub(crate) fn merge(near: &mut Vec<Near>)
    requires fits { sum_by (λ entry. entry.weight) near.old.items < 2 ^ 64 }
    requires weighty { All (λ entry. 1 ≤ entry.weight) near.old.items }
    ensures { (n : ℕ) → All (λ entry. entry.point < n) near.old.items
        → near.new.items ≡ filter_map (as_sum near.old.items) (range_with_len 0 n) }
{
    // Entries of one point are added up, so their order is free, and the sort takes no memory.
    near.sort_unstable_by_key(|entry| entry.point);
    let last = join_runs(near.as_mut_slice());
    near.truncate(last + 1);
}

/// Puts one entry with the sum of the weights in the place of each run of entries of one point, to
/// the front, and gives the place of the last of them, or 0 where there is none. What stands past
/// that place is left over.
fn join_runs(near: &mut [Near]) -> usize
    requires sorted { IsNonDecreasingBy (λ entry. entry.point) near.old }
    requires fits { sum_by (λ entry. entry.weight) near.old < 2 ^ 64 }
    requires weighty { All (λ entry. 1 ≤ entry.weight) near.old }
    ensures within { result ≤ length near.old }
    ensures joined { (n : ℕ) → All (λ entry. entry.point < n) near.old
        → take (result + 1) near.new ≡ filter_map (as_sum near.old) (range_with_len 0 n) }
{
    let mut last = 0;
    for i in 1..near.len() {
        let entry = near[i];
        if near[last].point == entry.point {
            near[last].weight += entry.weight;
        } else {
            last += 1;
            near[last] = entry;
        }
    }
    last
}
