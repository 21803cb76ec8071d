//! Laws of the cut. Each is the contract of a function that does nothing, and holds of any lists, cut by a call or not.

ghost use Rattle.std.specs.Prelude.{◌≡◌, ℕ, ◌≤◌, ◌↔◌, ◌-◌, true, List, length, take, min, slice_index, All, Contains};
ghost use Rattle.std.specs.List.Sorted.{IsStrictlyIncreasing};
ghost use Rattle.area_cut.specs.declared.region.Region.{Region};
ghost use Rattle.area_cut.specs.Regions.{ArePartition, AreShares, HaveHomes, IsGood, IsInside};
ghost use Rattle.area_cut.specs.Cut.{in_first, parts_of, cut_of};
ghost use Rattle.area_cut.specs.Order.{IsInOrder, IsShortestFront, AreBalanced};

/// The first part is the rule's: the shortest front of the points, in the order of (mid, number), that has at least one
/// point and whose doubled area is at least the whole; and all but the last point where that front is all of them. At least
/// one point, all in ascending order, have such an order and such a front.
pub fn front_is_first()
    ensures there { (areas mids points : List ℕ) → IsStrictlyIncreasing points → 1 ≤ length points
        → (order : List ℕ) × ((n : ℕ) × (IsInOrder mids points order × IsShortestFront areas order n)) }
    ensures first { (areas mids points order : List ℕ) (n p : ℕ) → IsInOrder mids points order → 2 ≤ length points
        → IsShortestFront areas order n → Contains points p
        → (in_first areas mids points p ≡ true) ↔ Contains (take (min n (length order - 1)) order) p }
{}

/// The areas of the two parts differ by at most twice the largest area of a point.
pub fn parts_balance()
    ensures { (areas mids points : List ℕ) (most : ℕ) → IsStrictlyIncreasing points → 2 ≤ length points
        → All (λ p. slice_index areas p ≤ most) points → AreBalanced areas mids points most }
{}

/// Each part lies in the region that was cut, so the line between the parts does, too.
pub fn parts_lie_inside()
    ensures { (areas xs ys : List ℕ) (region : Region) → IsGood region → All (IsInside region) (parts_of areas xs ys region) }
{}

/// The cut keeps each point in exactly one region, the regions good, and their ends within a limit.
pub fn parts_share()
    ensures { (points limit : ℕ) (areas xs ys : List ℕ) (regions : List Region) → AreShares points limit regions
        → AreShares points limit (cut_of areas xs ys regions) }
{}

/// Where each point stands in exactly one region, each has one home.
pub fn points_have_homes()
    ensures { (points : ℕ) (regions : List Region) → ArePartition points regions → HaveHomes points regions }
{}
