//! Laws of rounds. Each is the contract of a function that does nothing.

ghost use Rattle.std.specs.Prelude.{◌≡◌, ℕ, ◌<◌, ◌≤◌, List, [], ◌∷◌, length};
ghost use Rattle.relax_system.specs.declared.valid.TheConstants.{MOST_COORDINATE};
ghost use Rattle.pad_reach.specs.Chain.{HasChain};
ghost use Rattle.relax_system.specs.System.{IsValid, joints_of as system_joints};
ghost use Rattle.area_cut.specs.declared.axis.Axis.{Axis};
ghost use Rattle.area_cut.specs.declared.region.Region.{Region};
ghost use Rattle.area_cut.specs.Regions.{AreShares};
ghost use Rattle.net_model.specs.Values.{NetworkValue};
ghost use Rattle.net_model.specs.WellFormed.{IsNet};
ghost use Rattle.net_model.specs.Webs.{joints_of};
ghost use Rattle.level_run.specs.declared.level.Level.{Level};
ghost use Rattle.level_run.specs.declared.rounds.Rounds.{Rounds};
ghost use Rattle.level_run.specs.Rounds.{rounds_in};
ghost use Rattle.level_run.specs.LevelSystem.{level_system};
ghost use Rattle.level_run.specs.Levels.{IsLevels, HasChains, Encloses, IsGap, core_region, level_at, solve_on, system_of};

use area_cut::{parts_share, points_have_homes};
use relax_system::{enclosure, greatest_vector, least_vector};

/// A network's chains are chains of each round's system, and where each point has one, the system is valid.
pub fn chains_stay()
    ensures chains { (axis : Axis) (network : NetworkValue) (regions : List Region) (mids : List ℕ) (p : ℕ) → IsNet network
        → p < length network.points → HasChain (joints_of network) p → HasChain (system_joints (level_system axis network regions mids)) p }
    ensures valid { (axis : Axis) (network : NetworkValue) (regions : List Region) (mids : List ℕ) → IsNet network → HasChains network
        → AreShares (length network.points) MOST_COORDINATE regions → IsValid (level_system axis network regions mids) }
{
    points_have_homes();
}

/// There is exactly one list of rounds where each point has a chain, and never more.
pub fn levels_are_one()
    ensures there { (network : NetworkValue) (rounds : Rounds) → IsNet network → HasChains network → 1 ≤ rounds.passes → (levels : List Level) × IsLevels network rounds levels }
    ensures one { (network : NetworkValue) (rounds : Rounds) (a b : List Level) → IsLevels network rounds a → IsLevels network rounds b → a ≡ b }
{
    parts_share();
    points_have_homes();
    least_vector();
    greatest_vector();
}

/// Each round's systems are valid; its lower and upper vectors are fixed points, in order with small residuals, and enclose every
/// exact solution.
pub fn levels_enclose()
    ensures valid { (network : NetworkValue) (rounds : Rounds) (levels : List Level) (axis : Axis) (r : ℕ) → IsNet network → HasChains network
        → IsLevels network rounds levels → r < rounds_in rounds → IsValid (system_of axis network levels r) }
    ensures encloses { (network : NetworkValue) (rounds : Rounds) (levels : List Level) (axis : Axis) (r : ℕ) → IsNet network → HasChains network
        → IsLevels network rounds levels → r < rounds_in rounds → Encloses (system_of axis network levels r) (solve_on axis (level_at levels r)) }
{
    parts_share();
    points_have_homes();
    least_vector();
    greatest_vector();
    enclosure();
}

/// Rounds have exactly one gap.
pub fn gap_is_one()
    ensures there { (levels : List Level) → (gap : ℕ) × IsGap levels gap }
    ensures one { (levels : List Level) (a b : ℕ) → IsGap levels a → IsGap levels b → a ≡ b }
{}

/// The first round uses no mids: whatever they are, its systems are the same.
pub fn first_uses_no_mids()
    ensures { (axis : Axis) (network : NetworkValue) (mids other : List ℕ) → IsNet network
        → level_system axis network (core_region network ∷ []) mids ≡ level_system axis network (core_region network ∷ []) other }
{
    points_have_homes();
}
