//! Laws of the tables. Each is the contract of a function that does nothing.

ghost use Rattle.std.specs.Prelude.{ℕ, ◌-◌, ◌*◌, ◌<◌, ◌≤◌, List, length};
ghost use Rattle.relax_system.specs.declared.points.Point.{Point};
ghost use Rattle.relax_system.specs.declared.side.Side.TheVariants.{Floor, Ceil};
ghost use Rattle.relax_system.specs.System.{IsValid, point_at};
ghost use Rattle.relax_system.specs.Sides.{starts_of};
ghost use Rattle.relax_system.specs.Means.{IsPreFixed, IsPostFixed};
ghost use Rattle.relax_system.specs.Extremal.{IsLeast, IsGreatest};
ghost use Rattle.relax_table.specs.Seats.{SeatState};
ghost use Rattle.relax_table.specs.Floor.{IsFloorStart, IsBelowLeast};
ghost use Rattle.relax_table.specs.Ceil.{IsCeilStart, IsAboveGreatest};

/// A floor table may start at the bottoms of the boxes, and a ceil table at the tops.
pub fn ends_may_start()
    ensures bottoms { (points : List Point) → IsValid points → 0 < length points → IsFloorStart points (starts_of Floor points) }
    ensures tops { (points : List Point) → IsValid points → 0 < length points → IsCeilStart points (starts_of Ceil points) }
{}

/// A seat whose own values are quiet has seen the extremal vector.
pub fn quiet_is_extremal()
    ensures least { (s : SeatState) → IsBelowLeast s → IsPreFixed s.system s.seen → IsLeast s.system s.seen }
    ensures greatest { (s : SeatState) → IsAboveGreatest s → IsPostFixed s.system s.seen → IsGreatest s.system s.seen }
{}

/// A seat moves a word at most as often as there are points times the width of the widest box.
pub fn moves_are_few()
    ensures raises { (s : SeatState) (width : ℕ) → IsValid s.system → IsBelowLeast s
        → ((i : ℕ) → i < length s.system → (point_at s.system i).hi - (point_at s.system i).lo ≤ width) → s.moves ≤ length s.system * width }
    ensures lowers { (s : SeatState) (width : ℕ) → IsValid s.system → IsAboveGreatest s
        → ((i : ℕ) → i < length s.system → (point_at s.system i).hi - (point_at s.system i).lo ≤ width) → s.moves ≤ length s.system * width }
{}
