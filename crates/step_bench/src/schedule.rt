//! A schedule, read and played on one side of one axis.

ghost use Rattle.relax_world.specs.World.{IsSeatCount};

use crate::texts::load_text;
use crate::watch::{Answer, NO_MEMORY, Watch};
use book_files::read_schedule;
use relax_system::{Side, System};
use relax_world::play;

/// Reads the schedule of that name, plays it from below by so many seats, and prints the raises of each.
pub fn measure_schedule(
    rt: &HostRuntime,
    watch: &mut Watch<'_>,
    system: &System,
    name: &str,
    seats: u32,
) -> Answer<()>
    requires { IsSeatCount seats }
{
    let text = load_text(rt, name)?;
    watch.begin()?;
    let Ok(events) = read_schedule(rt.alloc(), &text) else {
        return Err("the schedule isn't read");
    };
    watch.end("read schedule", &events)?;
    let Ok(played) = play(rt.alloc(), system, Side::Floor, seats, events.as_slice()) else {
        return Err(NO_MEMORY);
    };
    watch.end("play", &played)?;
    for raises in played.raises.as_slice() {
        watch.tell("raises", *raises)?;
    }
    Ok(())
}
