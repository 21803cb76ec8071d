//! Schedules that were worked by hand, step by step on the machine, and replayed on a table.

use crate::samples::{PAIR, Row, system_of};
use relax_world::{Event, Side, World, play};
use std::process::Abort;
use std::test::Fail;

/// A schedule of two seats on the pair of points, and what it leads to.
struct Script {
    side: Side,
    events: &'static [Event],
    /// On the machine: the words, what each of the seats has seen, and how many steps changed a word.
    words: &'static [u64],
    seen: [&'static [u64]; 2],
    changes: u64,
    /// On a table, once seat 0 is settled: its values, and the raises of each seat.
    values: &'static [u64],
    raises: &'static [u64],
}

const SCRIPTS: &[Script] = &[
    // seat 1 sees the word before seat 0 moves it, and its mean is made of what is outdated then
    Script {
        side: Side::Floor,
        events: &[
            Event::Load { seat: 1, point: 1 },
            Event::Renew { seat: 0, point: 1 },
            Event::Renew { seat: 1, point: 0 },
        ],
        words: &[0, 1],
        seen: [&[0, 1], &[0, 0]],
        changes: 1,
        values: &[0, 1],
        raises: &[1, 0],
    },
    // the raise of another seat than the one that settles
    Script {
        side: Side::Floor,
        events: &[Event::Renew { seat: 1, point: 1 }],
        words: &[0, 1],
        seen: [&[0, 0], &[0, 1]],
        changes: 1,
        values: &[0, 1],
        raises: &[0, 1],
    },
    // no event: the settling has the raise
    Script {
        side: Side::Floor,
        events: &[],
        words: &[0, 0],
        seen: [&[0, 0], &[0, 0]],
        changes: 0,
        values: &[0, 1],
        raises: &[1, 0],
    },
    // a second renewal changes nothing, and seats and points past the last ones neither
    Script {
        side: Side::Floor,
        events: &[
            Event::Renew { seat: 1, point: 1 },
            Event::Renew { seat: 1, point: 1 },
            Event::Renew { seat: 9, point: 1 },
            Event::Renew { seat: 2, point: 1 },
            Event::Renew { seat: 0, point: 9 },
            Event::Load { seat: 0, point: 2 },
            Event::Load { seat: 0, point: 1 },
        ],
        words: &[0, 1],
        seen: [&[0, 1], &[0, 1]],
        changes: 1,
        values: &[0, 1],
        raises: &[0, 1],
    },
    // the same on the way down
    Script {
        side: Side::Ceil,
        events: &[
            Event::Load { seat: 1, point: 0 },
            Event::Renew { seat: 0, point: 0 },
            Event::Renew { seat: 1, point: 1 },
        ],
        words: &[2, 3],
        seen: [&[2, 3], &[3, 3]],
        changes: 1,
        values: &[2, 3],
        raises: &[1, 0],
    },
    Script {
        side: Side::Ceil,
        events: &[Event::Renew { seat: 1, point: 0 }],
        words: &[2, 3],
        seen: [&[3, 3], &[2, 3]],
        changes: 1,
        values: &[2, 3],
        raises: &[0, 1],
    },
    Script {
        side: Side::Ceil,
        events: &[
            Event::Renew { seat: 9, point: 0 },
            Event::Renew { seat: 0, point: 9 },
        ],
        words: &[3, 3],
        seen: [&[3, 3], &[3, 3]],
        changes: 0,
        values: &[2, 3],
        raises: &[1, 0],
    },
];

#[test]
fn machines_step_as_by_hand(rt: HostRuntime) -> Result<(), Fail> {
    for script in SCRIPTS {
        let system = system_of(&rt, rt.alloc(), &PAIR)?;
        let mut world = World::new(rt.alloc(), &system, script.side, 2)?;
        for event in script.events {
            world.step(*event);
        }
        is_there(&rt, &world, script);
        let mut other = World::new(rt.alloc(), &system, script.side, 2)?;
        other.run(script.events);
        is_there(&rt, &other, script);
    }
    Ok(())
}

/// The machine is where the script leads.
fn is_there(rt: &impl Abort, world: &World<'_>, script: &Script) {
    assert!(rt; world.seats() == 2);
    assert!(rt; world.words() == script.words);
    assert!(rt; world.seen(0) == script.seen[0]);
    assert!(rt; world.seen(1) == script.seen[1]);
    assert_eq!(rt; world.changes(), script.changes);
}

#[test]
fn schedules_play_as_by_hand(rt: HostRuntime) -> Result<(), Fail> {
    for script in SCRIPTS {
        let system = system_of(&rt, rt.alloc(), &PAIR)?;
        let played = play(rt.alloc(), &system, script.side, 2, script.events)?;
        assert!(rt; played.values.as_slice() == script.values);
        assert!(rt; played.raises.as_slice() == script.raises);
    }
    Ok(())
}

#[test]
fn no_point_has_no_value(rt: HostRuntime) -> Result<(), Fail> {
    let none: [Row; 0] = [];
    let system = system_of(&rt, rt.alloc(), &none)?;
    let played = play(
        rt.alloc(),
        &system,
        Side::Floor,
        3,
        &[Event::Renew { seat: 0, point: 0 }],
    )?;
    assert!(rt; played.values.as_slice().is_empty());
    assert!(rt; played.raises.as_slice() == [0, 0, 0].as_slice());
    Ok(())
}
