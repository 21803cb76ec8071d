//! Laws of the machine. Each is the contract of a function that does nothing.

ghost use Rattle.std.specs.Prelude.{◌≡◌, ℕ, ◌<◌, List, length, slice_index};
ghost use Rattle.std.specs.List.{fold};
ghost use Rattle.relax_system.specs.declared.side.Side.{Side};
ghost use Rattle.relax_system.specs.declared.points.Point.{Point};
ghost use Rattle.relax_system.specs.System.{IsValid};
ghost use Rattle.relax_table.specs.Step.{word_after, seen_after};
ghost use Rattle.book_files.specs.declared.schedule.Event.{Event};
ghost use Rattle.book_files.specs.Schedule.{seat_of, point_of};
ghost use Rattle.relax_world.specs.World.{WorldState, first_world, world_after, kind_of, seen_by};
ghost use Rattle.relax_world.specs.Sound.{IsSoundWorld};

/// Whatever the schedule, what holds of the machine holds behind it.
pub fn schedules_are_sound()
    ensures { (side : Side) (points : List Point) (seats : ℕ) (events : List Event) → IsValid points
        → IsSoundWorld (fold world_after (first_world side points seats) events) }
{}

/// An event of a seat and a point that are there is the step of a table's seat: of the word that it finds, and of what its seat has
/// seen.
pub fn steps_are_of_tables()
    ensures word { (w : WorldState) (e : Event) → seat_of e < length w.seen → point_of e < length w.words
        → slice_index (world_after w e).words (point_of e)
        ≡ word_after w.side w.system (kind_of e) (point_of e) (slice_index w.words (point_of e)) (seen_by w (seat_of e)) }
    ensures seen { (w : WorldState) (e : Event) → seat_of e < length w.seen → point_of e < length w.words
        → seen_by (world_after w e) (seat_of e)
        ≡ seen_after w.side w.system (kind_of e) (point_of e) (slice_index w.words (point_of e)) (seen_by w (seat_of e)) }
{}
