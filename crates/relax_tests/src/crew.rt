//! Small systems, worked by hand, by one seat and by many, and gates that watch the seats.

ghost use Rattle.std.specs.Prelude.{◌<◌, length};
ghost use Rattle.relax_crew.specs.Crew.{IsCrewSize};

use crate::samples::{PAIR, Row, chain_of, system_of};
use book_outer::{Gate, OpenGate};
use book_text::Memory;
use relax_crew::{MOST_SEATS, greatest, least};
use relax_system::{System, greatest_plain, least_plain};
use std::alloc::Global;
use std::process::Abort;
use std::sync::atomic::{AtomicBool, AtomicU64, Ordering};
use std::test::Fail;
use std::thread::Threads;

/// How often a seat looks for the other one.
const TURNS: u64 = 50_000_000;

/// How many systems a crew solves in turn: those with 20 halvings and fewer, and the system itself.
const SOLVES: u64 = 21;

/// The way on which the seats move the words.
#[derive(Clone, Copy)]
enum Way {
    Up,
    Down,
}

/// What the seats have seen in the end, and how many words they moved.
fn solve<R: Threads + Sync, G: Gate>(
    rt: &R,
    alloc: Global,
    system: &System,
    way: Way,
    seats: usize,
    gate: &G,
) -> Result<(Vec<u64>, u64), Memory>
    requires some { 0 < length system.now }
    requires seats { IsCrewSize seats }
{
    match way {
        Way::Up => {
            let low = least(rt, alloc, system, seats, gate)?;
            Ok((low.seat.seen().to_vec(alloc)?, low.raises))
        }
        Way::Down => {
            let high = greatest(rt, alloc, system, seats, gate)?;
            Ok((high.seat.seen().to_vec(alloc)?, high.lowers))
        }
    }
}

/// The pair from below and from above, by so many seats. The one move is made by whichever seat.
const PAIRED: &[(Way, &[u64])] = &[(Way::Up, &[0, 1]), (Way::Down, &[2, 3])];

#[test]
fn any_seats_solve_the_pair(rt: HostRuntime) -> Result<(), Fail> {
    let system = system_of(&rt, rt.alloc(), &PAIR)?;
    assert!(rt; 0 < system.points());
    for (way, want) in PAIRED {
        for seats in [1, 2, 3, 64] {
            assert!(rt; 1 <= seats && seats <= MOST_SEATS);
            let (seen, moves) = solve(&rt, rt.alloc(), &system, *way, seats, &OpenGate)?;
            assert_eq!(rt; (seen.as_slice(), moves), (*want, 1));
        }
    }
    Ok(())
}

/// A chain on which each of two seats makes many moves that the other one sees.
#[test]
fn two_seats_solve_a_chain(rt: HostRuntime) -> Result<(), Fail> {
    let system = chain_of(&rt, rt.alloc(), 40, 1000)?;
    assert!(rt; 0 < system.points());
    let (low, _) = solve(&rt, rt.alloc(), &system, Way::Up, 2, &OpenGate)?;
    assert_eq!(rt;
        low.as_slice(),
        least_plain(rt.alloc(), &system)?.as_slice()
    );
    let (high, _) = solve(&rt, rt.alloc(), &system, Way::Down, 2, &OpenGate)?;
    assert_eq!(rt;
        high.as_slice(),
        greatest_plain(rt.alloc(), &system)?.as_slice()
    );
    Ok(())
}

/// Adds 100 and the seat's number to a word of the point at each pass.
#[derive(Drop)]
struct Watch {
    words: Vec<AtomicU64>,
}

impl Gate for Watch {
    fn pass(&self, seat: usize, point: usize) {
        if point < self.words.len() && seat < 64 {
            self.words[point].fetch_add(100 + seat as u64, Ordering::SeqCst);
        }
    }
}

/// The seats of each point of a chain, and how many seats there are.
const DEALS: &[(&[u8], usize)] = &[
    (&[0, 0, 0], 1),
    (&[0, 0, 1, 1], 2),
    (&[0, 1, 2, 2], 3),
    (&[0, 0, 1, 1, 2, 2, 2], 3),
    (&[2, 4], 5),
    (&[0, 1, 2, 3, 4, 5, 6], 7),
    (&[15, 31, 47, 63], 64),
];

/// The seats pass the points of a chain once in each solve, each its own range.
fn deals<R: Threads + Abort + Sync>(
    rt: &R,
    alloc: Global,
    way: Way,
    owners: &[u8],
    seats: usize,
) -> Result<(), Memory>
    requires { IsCrewSize seats }
{
    assert!(rt; owners.len() <= 7);
    let system = chain_of(rt, alloc, owners.len() as u32, 9)?;
    assert!(rt; 0 < system.points());
    let mut words = Vec::new(alloc);
    for _ in owners {
        words.push(AtomicU64::new(0))?;
    }
    let watch = Watch { words };
    solve(rt, alloc, &system, way, seats, &watch)?;
    for (word, owner) in watch.words.iter().zip(owners) {
        let passes = SOLVES * (100 + u64::from(*owner));
        assert_eq!(rt; word.load(Ordering::SeqCst), passes);
    }
    Ok(())
}

#[test]
fn each_point_is_passed_by_its_seat_in_each_solve(rt: HostRuntime) -> Result<(), Fail> {
    for way in [Way::Up, Way::Down] {
        for (owners, seats) in DEALS {
            assert!(rt; 1 <= *seats && *seats <= MOST_SEATS);
            deals(&rt, rt.alloc(), way, owners, *seats)?;
        }
    }
    Ok(())
}

/// Whether the flag is seen within so many looks.
fn comes(flag: &AtomicBool, looks: u64) -> bool {
    (0..looks).any(|_| flag.load(Ordering::SeqCst))
}

/// Whether a seat has passed the gate, and whether it saw at its first pass that the other one had.
#[derive(Drop)]
struct Flags {
    passed: AtomicBool,
    met: AtomicBool,
}

impl Flags {
    fn new() -> Flags {
        Flags {
            passed: AtomicBool::new(false),
            met: AtomicBool::new(false),
        }
    }

    /// At the first pass it looks for the other seat, for so many turns at most.
    fn pass(&self, other: &Flags) {
        if !self.passed.swap(true, Ordering::SeqCst) {
            self.met
                .store(comes(&other.passed, TURNS), Ordering::SeqCst);
        }
    }
}

/// Holds each of two seats after its first relaxation until the other one has made one.
#[derive(Drop)]
struct Meeting {
    first: Flags,
    second: Flags,
}

impl Gate for Meeting {
    fn pass(&self, seat: usize, _point: usize) {
        match seat {
            0 => self.first.pass(&self.second),
            1 => self.second.pass(&self.first),
            _ => {}
        }
    }
}

/// Four points in the box from 0 to 1 that aren't joined, with the constant 1, and the same with the constant 0. Each is
/// moved once, and each of the two seats has moved the first one of its range before they meet.
const MET: &[(Way, &[Row], &[u64])] = &[
    (
        Way::Up,
        &[
            (0, 1, &[], 1, 1),
            (0, 1, &[], 1, 1),
            (0, 1, &[], 1, 1),
            (0, 1, &[], 1, 1),
        ],
        &[1, 1, 1, 1],
    ),
    (
        Way::Down,
        &[
            (0, 1, &[], 1, 0),
            (0, 1, &[], 1, 0),
            (0, 1, &[], 1, 0),
            (0, 1, &[], 1, 0),
        ],
        &[0, 0, 0, 0],
    ),
];

/// Each seat sees the other one, and the moves of both are counted.
#[test]
fn two_seats_meet(rt: HostRuntime) -> Result<(), Fail> {
    for (way, rows, want) in MET {
        let system = system_of(&rt, rt.alloc(), rows)?;
        assert!(rt; 0 < system.points());
        let gate = Meeting {
            first: Flags::new(),
            second: Flags::new(),
        };
        let (seen, moves) = solve(&rt, rt.alloc(), &system, *way, 2, &gate)?;
        assert_eq!(rt; (seen.as_slice(), moves), (*want, 4));
        assert!(rt; gate.first.met.load(Ordering::SeqCst));
        assert!(rt; gate.second.met.load(Ordering::SeqCst));
    }
    Ok(())
}

/// A point whose constant is 1023: each of the last ten solves brings one binary digit, by one raise.
#[test]
fn each_solve_brings_a_digit(rt: HostRuntime) -> Result<(), Fail> {
    let system = system_of(&rt, rt.alloc(), &[(0, 1023, &[], 1, 1023)])?;
    assert!(rt; 0 < system.points());
    let low = least(&rt, rt.alloc(), &system, 1, &OpenGate)?;
    assert_eq!(rt; low.seat.seen(), [1023].as_slice());
    assert_eq!(rt; (low.raises, low.seat.raises()), (10, 1));
    Ok(())
}

/// Four points in the box from 0 to 9. The two in the middle are joined; the second of them has nearly the weight of its
/// constants alone, and the others have no pull. The last solve begins at 0, 4, 6 and 0.
const PULLED: [Row; 4] = [
    (0, 9, &[], 1, 0),
    (0, 9, &[(2, 1)], 1, 5),
    (0, 9, &[(1, 1)], 100, 750),
    (0, 9, &[], 1, 0),
];

/// In the last solve it lets the second of two seats fetch its first point before the first one fetches its second.
#[derive(Drop)]
struct Turns {
    first_passes: AtomicU64,
    second_passes: AtomicU64,
    second_came: AtomicBool,
    first_came: AtomicBool,
}

impl Gate for Turns {
    fn pass(&self, _seat: usize, point: usize) {
        match point {
            0 => {
                if is_last(&self.first_passes) {
                    comes(&self.second_came, TURNS);
                }
            }
            1 => {
                if self.first_passes.load(Ordering::SeqCst) == SOLVES {
                    self.first_came.store(true, Ordering::SeqCst);
                }
            }
            2 => {
                if is_last(&self.second_passes) {
                    self.second_came.store(true, Ordering::SeqCst);
                    comes(&self.first_came, TURNS);
                    // time for a fetch that would still be under way
                    comes(&AtomicBool::new(false), TURNS / 50);
                }
            }
            _ => {}
        }
    }
}

/// Counts a pass, and whether it is that of the last solve.
fn is_last(passes: &AtomicU64) -> bool {
    let before = passes.fetch_add(1, Ordering::SeqCst);
    before < SOLVES && before + 1 == SOLVES
}

/// In the last solve the third point is raised to 7 before the second one is relaxed, which then rises to 6 at once. Where the gate
/// is called before a relaxation, the second point rises to 5 first, and there are three raises.
#[test]
fn the_gate_is_called_after_the_relaxation(rt: HostRuntime) -> Result<(), Fail> {
    let system = system_of(&rt, rt.alloc(), &PULLED)?;
    assert!(rt; 0 < system.points());
    let gate = Turns {
        first_passes: AtomicU64::new(0),
        second_passes: AtomicU64::new(0),
        second_came: AtomicBool::new(false),
        first_came: AtomicBool::new(false),
    };
    let low = least(&rt, rt.alloc(), &system, 2, &gate)?;
    assert_eq!(rt; low.seat.seen(), [0, 6, 7, 0].as_slice());
    assert_eq!(rt; low.seat.raises(), 2);
    Ok(())
}
