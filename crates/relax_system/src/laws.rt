//! Laws of the rounded equations. Each is the contract of a function that does nothing.

ghost use Rattle.std.specs.Prelude.{◌≡◌, ℕ, ◌+◌, ◌<◌, ◌≤◌, List, length, ℤ};
ghost use Rattle.pad_reach.specs.Chain.{HasChain};
ghost use Rattle.relax_system.specs.declared.points.Point.{Point};
ghost use Rattle.relax_system.specs.System.{IsValid, joints_of};
ghost use Rattle.relax_system.specs.Means.{InBoxes, AtMost, IsFloorFixed, IsCeilFixed};
ghost use Rattle.relax_system.specs.Extremal.{IsLeast, IsGreatest};
ghost use Rattle.relax_system.specs.declared.side.Side.{Side};
ghost use Rattle.relax_system.specs.Sides.{AllBefore, distance, starts_of, IsExtremal};
ghost use Rattle.relax_system.specs.Halved.{halved, doubled, IsCascade, cascade_way};
ghost use Rattle.relax_system.specs.Exact.{IsExact, IsBetween, HasLowerResiduals, HasUpperResiduals};

/// A valid system has exactly one least vector, and it is the least fixed point of the rounded-down means.
pub fn least_vector()
    ensures there { (points : List Point) → IsValid points → (v : List ℕ) × IsLeast points v }
    ensures one { (points : List Point) (u v : List ℕ) → IsValid points → IsLeast points u → IsLeast points v → u ≡ v }
    ensures fixed { (points : List Point) (v : List ℕ) → IsValid points → IsLeast points v → IsFloorFixed points v }
    ensures first { (points : List Point) (v u : List ℕ) → IsValid points → IsLeast points v
        → InBoxes points u → IsFloorFixed points u → AtMost v u }
{}

/// A valid system has exactly one greatest vector, and it is the greatest fixed point of the rounded-up means.
pub fn greatest_vector()
    ensures there { (points : List Point) → IsValid points → (v : List ℕ) × IsGreatest points v }
    ensures one { (points : List Point) (u v : List ℕ) → IsValid points → IsGreatest points u → IsGreatest points v → u ≡ v }
    ensures fixed { (points : List Point) (v : List ℕ) → IsValid points → IsGreatest points v → IsCeilFixed points v }
    ensures last { (points : List Point) (v u : List ℕ) → IsValid points → IsGreatest points v
        → InBoxes points u → IsCeilFixed points u → AtMost u v }
{}

/// The least and the greatest vector enclose every exact solution, where each point has a chain to an anchored point.
pub fn enclosure()
    ensures ordered { (points : List Point) (lo hi : List ℕ) → IsValid points → IsLeast points lo → IsGreatest points hi
        → AtMost lo hi }
    ensures lower { (points : List Point) (lo : List ℕ) → IsValid points → IsLeast points lo → HasLowerResiduals points lo }
    ensures upper { (points : List Point) (hi : List ℕ) → IsValid points → IsGreatest points hi → HasUpperResiduals points hi }
    ensures encloses { (points : List Point) (lo hi : List ℕ) (d : ℕ) (z : List ℤ) → IsValid points
        → ((p : ℕ) → p < length points → HasChain (joints_of points) p)
        → IsLeast points lo → IsGreatest points hi → IsExact points d z → IsBetween lo hi d z }
{}

/// Any two vectors with small residuals enclose every exact solution, where each point has a chain to an anchored point.
pub fn residuals_enclose()
    ensures ordered { (points : List Point) (lo hi : List ℕ) → IsValid points
        → ((p : ℕ) → p < length points → HasChain (joints_of points) p)
        → InBoxes points lo → InBoxes points hi → HasLowerResiduals points lo → HasUpperResiduals points hi
        → AtMost lo hi }
    ensures encloses { (points : List Point) (lo hi : List ℕ) (d : ℕ) (z : List ℤ) → IsValid points
        → ((p : ℕ) → p < length points → HasChain (joints_of points) p)
        → InBoxes points lo → InBoxes points hi → HasLowerResiduals points lo → HasUpperResiduals points hi
        → IsExact points d z → IsBetween lo hi d z }
{}

/// A halved system is valid, and not halved it is the system itself. What a solve has found, doubled, lies before what the solve with
/// one halving less finds. All solves with fewer and fewer halvings together go no further than the last one would alone, from the
/// ends of the boxes. From below and from above.
pub fn halving()
    ensures valid { (side : Side) (shift : ℕ) (points : List Point) → IsValid points → IsValid (halved side shift points) }
    ensures whole { (side : Side) (points : List Point) → halved side 0 points ≡ points }
    ensures before { (side : Side) (shift : ℕ) (points : List Point) (y v : List ℕ) → IsValid points
        → IsExtremal side (halved side (shift + 1) points) y → IsExtremal side (halved side shift points) v
        → AllBefore side (doubled side (halved side shift points) y) v }
    ensures way { (side : Side) (points : List Point) (most : ℕ) (found : ℕ → List ℕ) → IsValid points
        → IsCascade side points most found → cascade_way side points most found ≤ distance side (starts_of side points) (found 0) }
{}
