//! Tables that were worked by hand, with three seats in turn.

ghost use Rattle.std.specs.Prelude.{◌≡◌, ◌<◌, length, IfOk};
ghost use Rattle.relax_system.specs.declared.side.Side.TheVariants.{Floor, Ceil};
ghost use Rattle.relax_system.specs.Sides.{starts_of};
ghost use Rattle.relax_table.specs.Seats.{IsSeatOf};

use crate::samples::{PAIR, Row, system_of};
use book_text::Memory;
use relax_system::System;
use relax_table::{
    CeilSeat, CeilTable, FloorSeat, FloorTable, Lowered, Raised, Steps, ends_may_start,
};
use std::alloc::Global;
use std::marker::Brand;
use std::mem;
use std::process::Abort;
use std::sync::ledger::{Blank, Ledger};
use std::test::Fail;

/// A chain of three points in the box from 0 to 9, with a constant 0 before it and a constant 9 behind it.
const TRIO: [Row; 3] = [
    (0, 9, &[(1, 1)], 1, 0),
    (0, 9, &[(0, 1), (2, 1)], 0, 0),
    (0, 9, &[(1, 1)], 1, 9),
];

/// A call with a seat: the points, and the word that is found and the one that is left.
#[derive(Clone, Copy)]
enum Act {
    Look(usize, u64),
    Fetch(usize, u64, u64),
    Relax(usize, u64, u64),
    /// The mark words, how many passes at most, and how many the seat has taken then.
    Chase(usize, usize, u64, u64),
    SettleRange(usize, usize),
    Settle,
}

/// What a seat does, what it has seen then, and how many words it has moved.
type Turn = (&'static [Act], &'static [u64], u64);

/// What is done on a table from an end of the boxes.
struct Script {
    rows: &'static [Row],
    /// By the first seat, before a second one is split from it, and a third one from that.
    alone: Turn,
    /// By one seat after the other, over and over.
    turns: &'static [Turn],
    /// By the seat that all three are joined to.
    joined: Turn,
}

/// On the way up.
const RISES: &[Script] = &[
    // a seat that is split after a raise, and settled then
    Script {
        rows: &PAIR,
        alone: (&[Act::Relax(1, 0, 1), Act::Relax(0, 0, 0)], &[0, 1], 1),
        turns: &[(&[Act::Settle], &[0, 1], 1), (&[], &[0, 1], 0)],
        joined: (&[], &[0, 1], 1),
    },
    // the second seat looks at the word that the first one raised, and the third one looks around
    Script {
        rows: &PAIR,
        alone: (&[], &[0, 0], 0),
        turns: &[
            (&[Act::Relax(1, 0, 1)], &[0, 1], 1),
            (
                &[Act::Look(1, 1), Act::Fetch(0, 0, 0), Act::SettleRange(0, 1)],
                &[0, 1],
                0,
            ),
            (&[Act::Relax(0, 0, 0)], &[0, 1], 0),
        ],
        joined: (&[], &[0, 1], 1),
    },
    // the second seat looks at both neighbours, and finds the word that the first one left; the third one only fetches
    Script {
        rows: &TRIO,
        alone: (&[], &[0, 0, 0], 0),
        turns: &[
            (
                &[
                    Act::Relax(2, 0, 4),
                    Act::Relax(1, 0, 2),
                    Act::Relax(2, 4, 5),
                    Act::Relax(0, 0, 1),
                ],
                &[1, 2, 5],
                4,
            ),
            (&[Act::Relax(1, 2, 3)], &[1, 3, 5], 1),
            (&[Act::Fetch(2, 5, 5)], &[0, 0, 5], 0),
        ],
        joined: (&[], &[1, 3, 5], 5),
    },
    // a chase that finds the marks of both points, that of the one whose neighbour was raised, and none
    Script {
        rows: &PAIR,
        alone: (&[Act::Chase(0, 1, 64, 3)], &[0, 1], 1),
        turns: &[(&[], &[0, 1], 1)],
        joined: (&[], &[0, 1], 1),
    },
    // a chase of two passes, and one that goes on with the marks that it left until there are none
    Script {
        rows: &TRIO,
        alone: (&[Act::Chase(0, 1, 2, 2)], &[0, 2, 4], 2),
        turns: &[(&[Act::Chase(0, 1, 64, 7)], &[1, 3, 6], 6)],
        joined: (&[], &[1, 3, 6], 6),
    },
    // a seat counts the raises that it makes as it settles a fresh table
    Script {
        rows: &PAIR,
        alone: (&[Act::Settle], &[0, 1], 1),
        turns: &[],
        joined: (&[], &[0, 1], 1),
    },
];

/// The same on the way down.
const FALLS: &[Script] = &[
    Script {
        rows: &PAIR,
        alone: (&[Act::Relax(0, 3, 2)], &[2, 3], 1),
        turns: &[(&[Act::Settle], &[2, 3], 1), (&[], &[2, 3], 0)],
        joined: (&[], &[2, 3], 1),
    },
    Script {
        rows: &PAIR,
        alone: (&[], &[3, 3], 0),
        turns: &[
            (&[Act::Relax(0, 3, 2)], &[2, 3], 1),
            (
                &[Act::Look(0, 2), Act::Fetch(1, 3, 3), Act::SettleRange(0, 1)],
                &[2, 3],
                0,
            ),
            (&[Act::Relax(1, 3, 3)], &[2, 3], 0),
        ],
        joined: (&[], &[2, 3], 1),
    },
    Script {
        rows: &TRIO,
        alone: (&[], &[9, 9, 9], 0),
        turns: &[
            (
                &[
                    Act::Relax(0, 9, 5),
                    Act::Relax(1, 9, 7),
                    Act::Relax(2, 9, 8),
                    Act::Relax(0, 5, 4),
                ],
                &[4, 7, 8],
                4,
            ),
            (&[Act::Relax(1, 7, 6)], &[4, 6, 8], 1),
            (&[Act::Fetch(0, 4, 4)], &[4, 9, 9], 0),
        ],
        joined: (&[], &[4, 6, 8], 5),
    },
    Script {
        rows: &PAIR,
        alone: (&[Act::Settle], &[2, 3], 1),
        turns: &[],
        joined: (&[], &[2, 3], 1),
    },
    Script {
        rows: &PAIR,
        alone: (&[Act::Chase(0, 1, 64, 3)], &[2, 3], 1),
        turns: &[],
        joined: (&[], &[2, 3], 1),
    },
];

/// A floor table from the bottoms of the boxes.
fn from_bottoms<'a>(
    rt: &impl Abort,
    alloc: Global,
    system: &'a System,
) -> Result<(FloorTable<'a>, FloorSeat), Memory>
    ensures table { IfOk result (λ t. t.0.system ≡ system.now) }
    ensures own { IfOk result (λ t. IsSeatOf t.0 t.1) }
{
    assert!(rt; 0 < system.points());
    ends_may_start();
    let mut start = Vec::new(alloc);
    for i in 0..system.points() {
        start.push(system.point(i).lo)?;
    }
    FloorTable::new(alloc, system, &start)
}

/// A ceil table from the tops of the boxes.
fn from_tops<'a>(
    rt: &impl Abort,
    alloc: Global,
    system: &'a System,
) -> Result<(CeilTable<'a>, CeilSeat), Memory>
    ensures table { IfOk result (λ t. t.0.system ≡ system.now) }
    ensures own { IfOk result (λ t. IsSeatOf t.0 t.1) }
{
    assert!(rt; 0 < system.points());
    ends_may_start();
    let mut start = Vec::new(alloc);
    for i in 0..system.points() {
        start.push(system.point(i).hi)?;
    }
    CeilTable::new(alloc, system, &start)
}

/// How many points the table of a floor seat has.
fn floor_points(table: &FloorTable<'_>, seat: &FloorSeat) -> usize
    requires { IsSeatOf table.now seat.now }
    ensures { result ≡ length table.now.system }
{
    let _ = table;
    seat.seen().len()
}

/// One call with a seat of a floor table, which finds and leaves what the act says.
fn rise<L: Ledger>(
    rt: &impl Abort,
    table: &FloorTable<'_>,
    seat: &mut FloorSeat,
    act: Act,
    steps: &mut Steps<L>,
)
    requires { IsSeatOf table.now seat.old }
    ensures { IsSeatOf table.now seat.new }
{
    let points = floor_points(table, seat);
    match act {
        Act::Look(i, word) => {
            assert!(rt; i < points);
            assert_eq!(rt; table.look(seat, i, steps), word);
        }
        Act::Fetch(i, old, new) => {
            assert!(rt; i < points);
            assert_eq!(rt; table.raise(seat, i, steps), Raised { old, new });
        }
        Act::Relax(i, old, new) => {
            assert!(rt; i < points);
            assert_eq!(rt; table.relax(seat, i, steps), Raised { old, new });
        }
        Act::Chase(from, to, passes, takes) => {
            assert!(rt; from <= to && to < 1000 && passes <= 64);
            assert!(rt; to == 0 || 64 * (to - 1) < points);
            table.chase(seat, from, to, passes, steps);
            assert_eq!(rt; seat.takes(), takes);
        }
        Act::SettleRange(from, to) => {
            assert!(rt; from <= to && to <= points);
            table.settle_range(seat, from, to, steps);
        }
        Act::Settle => table.settle(seat, steps),
    }
}

/// A turn of a seat of a floor table.
fn climb<L: Ledger>(
    rt: &impl Abort,
    table: &FloorTable<'_>,
    seat: &mut FloorSeat,
    steps: &mut Steps<L>,
    turn: Turn,
)
    requires { IsSeatOf table.now seat.old }
    ensures { IsSeatOf table.now seat.new }
{
    let (acts, seen, raises) = turn;
    for act in acts {
        rise(rt, table, seat, *act, steps);
    }
    assert_eq!(rt; seat.seen(), seen);
    assert_eq!(rt; seat.raises(), raises);
}

/// How many points the table of a ceil seat has.
fn ceil_points(table: &CeilTable<'_>, seat: &CeilSeat) -> usize
    requires { IsSeatOf table.now seat.now }
    ensures { result ≡ length table.now.system }
{
    let _ = table;
    seat.seen().len()
}

/// One call with a seat of a ceil table, which finds and leaves what the act says.
fn fall<L: Ledger>(
    rt: &impl Abort,
    table: &CeilTable<'_>,
    seat: &mut CeilSeat,
    act: Act,
    steps: &mut Steps<L>,
)
    requires { IsSeatOf table.now seat.old }
    ensures { IsSeatOf table.now seat.new }
{
    let points = ceil_points(table, seat);
    match act {
        Act::Look(i, word) => {
            assert!(rt; i < points);
            assert_eq!(rt; table.look(seat, i, steps), word);
        }
        Act::Fetch(i, old, new) => {
            assert!(rt; i < points);
            assert_eq!(rt; table.lower(seat, i, steps), Lowered { old, new });
        }
        Act::Relax(i, old, new) => {
            assert!(rt; i < points);
            assert_eq!(rt; table.relax(seat, i, steps), Lowered { old, new });
        }
        Act::Chase(from, to, passes, takes) => {
            assert!(rt; from <= to && to < 1000 && passes <= 64);
            assert!(rt; to == 0 || 64 * (to - 1) < points);
            table.chase(seat, from, to, passes, steps);
            assert_eq!(rt; seat.takes(), takes);
        }
        Act::SettleRange(from, to) => {
            assert!(rt; from <= to && to <= points);
            table.settle_range(seat, from, to, steps);
        }
        Act::Settle => table.settle(seat, steps),
    }
}

/// A turn of a seat of a ceil table.
fn descend<L: Ledger>(
    rt: &impl Abort,
    table: &CeilTable<'_>,
    seat: &mut CeilSeat,
    steps: &mut Steps<L>,
    turn: Turn,
)
    requires { IsSeatOf table.now seat.old }
    ensures { IsSeatOf table.now seat.new }
{
    let (acts, seen, lowers) = turn;
    for act in acts {
        fall(rt, table, seat, *act, steps);
    }
    assert_eq!(rt; seat.seen(), seen);
    assert_eq!(rt; seat.lowers(), lowers);
}

/// Plays a script on a floor table.
fn goes_up<L: Ledger>(
    rt: &impl Abort,
    alloc: Global,
    steps: &mut Steps<L>,
    script: &Script,
) -> Result<(), Memory> {
    let system = system_of(rt, alloc, script.rows)?;
    let (whole, mut first) = from_bottoms(rt, alloc, &system)?;
    let table = &whole;
    climb(rt, table, &mut first, steps, script.alone);
    let mut second = table.split(&mut first)?;
    let mut third = table.split(&mut second)?;
    for turn in script.turns {
        climb(rt, table, &mut first, steps, *turn);
        mem::swap(&mut first, &mut second);
        mem::swap(&mut second, &mut third);
    }
    let both = table.join_seats(first, second);
    let mut all = table.join_seats(both, third);
    climb(rt, table, &mut all, steps, script.joined);
    Ok(())
}

/// Plays a script on a ceil table.
fn goes_down<L: Ledger>(
    rt: &impl Abort,
    alloc: Global,
    steps: &mut Steps<L>,
    script: &Script,
) -> Result<(), Memory> {
    let system = system_of(rt, alloc, script.rows)?;
    let (whole, mut first) = from_tops(rt, alloc, &system)?;
    let table = &whole;
    descend(rt, table, &mut first, steps, script.alone);
    let mut second = table.split(&mut first)?;
    let mut third = table.split(&mut second)?;
    for turn in script.turns {
        descend(rt, table, &mut first, steps, *turn);
        mem::swap(&mut first, &mut second);
        mem::swap(&mut second, &mut third);
    }
    let both = table.join_seats(first, second);
    let mut all = table.join_seats(both, third);
    descend(rt, table, &mut all, steps, script.joined);
    Ok(())
}

/// All of it, with one counter.
fn works<L: Ledger>(rt: &impl Abort, alloc: Global, blank: Blank) -> Result<(), Memory>
    requires name { blank.name ≡ L.name }
    requires parts { blank.parts ≡ L.parts }
    requires some { 0 < L.parts }
{
    let mut steps = Steps::<L>::new(blank);
    for script in RISES {
        goes_up(rt, alloc, &mut steps, script)?;
    }
    for script in FALLS {
        goes_down(rt, alloc, &mut steps, script)?;
    }
    Ok(())
}

#[test]
fn tables_work(rt: HostRuntime) -> Result<(), Fail> {
    works::<Brand>(&rt, rt.alloc(), Blank::new(1))?;
    Ok(())
}
