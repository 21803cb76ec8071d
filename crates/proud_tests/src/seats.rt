//! How many seats are asked for, and that they run at the same time.

use book_outer::Gate;
use book_text::Memory;
use proud_top::Status;
use run_cases::{NO_CELL, ONE_CELL, Run, TWO_CELLS, Texts, check_runs, end_on};
use std::alloc::Global;
use std::process::Abort;
use std::sync::atomic::{AtomicU64, Ordering};
use std::test::Fail;

/// Two cells, whatever the number of seats is.
const TWO: &[u8] = b"UCLA pl 1.0\na 2 0 : N\nb 7 0 : N\nl 0 5 : N /FIXED\nr 10 5 : N /FIXED\n";

const TWO_REPORT: &[u8] = b"cells 2 terminals 2 nets 3 pins 6\nlevels 4 gap 2\nwire 10\n";

/// Runs by a number of seats.
const GOOD: &[Run] = &[
    (
        &["proud", "--seats", "1", "a.aux"],
        TWO_CELLS,
        TWO,
        TWO_REPORT,
    ),
    (
        &["proud", "--seats", "7", "a.aux"],
        TWO_CELLS,
        TWO,
        TWO_REPORT,
    ),
    (
        &["proud", "--seats", "64", "a.aux"],
        TWO_CELLS,
        TWO,
        TWO_REPORT,
    ),
    (
        &["proud", "--seats", "04", "a.aux"],
        TWO_CELLS,
        TWO,
        TWO_REPORT,
    ),
    // without a point no crew is needed
    (
        &["proud", "--seats", "2", "a.aux"],
        NO_CELL,
        b"UCLA pl 1.0\np 3 4 : N /FIXED\n",
        b"cells 0 terminals 1 nets 0 pins 0\nlevels 4 gap 0\nwire 0\n",
    ),
];

#[test]
fn seats_may_be_asked_for(rt: HostRuntime) -> Result<(), Fail> {
    Ok(check_runs(&rt, rt.alloc(), GOOD)?)
}

/// How often a seat looks for the other one.
const TURNS: u64 = 50_000_000;

/// How often a seat has passed the gate, and at how many of its passes it saw that the other one had as often.
#[derive(Drop)]
struct Flags {
    passes: AtomicU64,
    met: AtomicU64,
}

impl Flags {
    fn new() -> Flags {
        Flags {
            passes: AtomicU64::new(0),
            met: AtomicU64::new(0),
        }
    }

    /// At each pass it looks for the other seat, for so many turns at most.
    fn pass(&self, other: &Flags) {
        let before = self.passes.fetch_add(1, Ordering::SeqCst);
        if (0..TURNS).any(|_| other.passes.load(Ordering::SeqCst) > before) {
            self.met.fetch_add(1, Ordering::SeqCst);
        }
    }

    /// It has passed once in each solve for so many vectors, and met the other one each time.
    fn has_met(&self, vectors: u64) -> bool {
        let solves = SHIFTS.saturating_mul(vectors);
        self.passes.load(Ordering::SeqCst) == solves && self.met.load(Ordering::SeqCst) == solves
    }
}

/// Holds each of two seats after the one relaxation of its first sweep until the other one has made as many.
#[derive(Drop)]
struct Meeting {
    first: Flags,
    second: Flags,
}

impl Gate for Meeting {
    fn pass(&self, seat: usize, _point: usize) {
        match seat {
            0 => self.first.pass(&self.second),
            1 => self.second.pass(&self.first),
            _ => {}
        }
    }
}

/// How many systems are solved for one vector: those with 20 halvings and fewer, and the system itself.
const SHIFTS: u64 = 21;

/// Words that ask for two seats, and how many vectors there are: from below and from above, on each axis, in each round.
const MEETINGS: &[(&[&str], u64)] = &[
    (
        &[
            "proud", "--levels", "0", "--passes", "1", "--seats", "2", "a.aux",
        ],
        4,
    ),
    (
        &[
            "proud", "--levels", "1", "--passes", "1", "--seats", "2", "a.aux",
        ],
        8,
    ),
];

/// Each of the two seats that are asked for sees the other one inside its first sweep, in each of the solves.
#[test]
fn proud_meets(rt: HostRuntime) -> Result<(), Fail> {
    for (words, vectors) in MEETINGS {
        let gate = Meeting {
            first: Flags::new(),
            second: Flags::new(),
        };
        let end = end_on(&rt, rt.alloc(), words, TWO_CELLS, &gate)?;
        assert_eq!(rt; end.status, Status::Done);
        assert!(rt; gate.first.has_met(*vectors));
        assert!(rt; gate.second.has_met(*vectors));
    }
    Ok(())
}

/// Four cells in a chain between two terminals.
const FOUR_CELLS: Texts = Texts {
    nodes: b"UCLA nodes 1.0\nNumNodes : 6\nNumTerminals : 2\n\
        a 2 10\nb 2 10\nc 2 10\nd 2 10\nl 0 0 terminal\nr 0 0 terminal\n",
    nets: b"UCLA nets 1.0\nNumNets : 5\nNumPins : 10\n\
        NetDegree : 2\nl B\na B\nNetDegree : 2\na B\nb B\nNetDegree : 2\nb B\nc B\n\
        NetDegree : 2\nc B\nd B\nNetDegree : 2\nd B\nr B\n",
    pl: b"UCLA pl 1.0\nl 0 5 : N /FIXED\nr 10 5 : N /FIXED\n",
    ..ONE_CELL
};

/// Adds 100 and the seat's number to a word of the point at each pass.
#[derive(Drop)]
struct Watch {
    words: Vec<AtomicU64>,
}

impl Watch {
    fn over(alloc: Global, points: usize) -> Result<Watch, Memory> {
        let mut words = Vec::new(alloc);
        for _ in 0..points {
            words.push(AtomicU64::new(0))?;
        }
        Ok(Watch { words })
    }

    /// In each solve for so many vectors, four of them a round, each point has been passed once, by its owner.
    fn shows(&self, rt: &impl Abort, owners: &[u8], vectors: u64) {
        assert!(rt; vectors <= 4 * 26 && self.words.len() == owners.len());
        for i in 0..owners.len() {
            let word = self.words[i].load(Ordering::SeqCst);
            assert_eq!(rt; word, vectors * SHIFTS * (100 + u64::from(owners[i])));
        }
    }
}

impl Gate for Watch {
    fn pass(&self, seat: usize, point: usize) {
        if point < self.words.len() && seat < 64 {
            self.words[point].fetch_add(100 + seat as u64, Ordering::SeqCst);
        }
    }
}

/// Words that ask for levels, passes and seats, which seat owns each of the four cells, and how many vectors there are.
type Deal = (&'static [&'static str], &'static [u8], u64);

const DEALS: &[Deal] = &[
    (
        &["proud", "--levels", "0", "--passes", "1", "a.aux"],
        &[0, 1, 2, 3],
        4,
    ),
    (
        &[
            "proud", "--levels", "0", "--passes", "1", "--seats", "1", "a.aux",
        ],
        &[0, 0, 0, 0],
        4,
    ),
    (
        &[
            "proud", "--levels", "0", "--passes", "1", "--seats", "3", "a.aux",
        ],
        &[0, 1, 2, 2],
        4,
    ),
    (
        &[
            "proud", "--levels", "0", "--passes", "1", "--seats", "7", "a.aux",
        ],
        &[1, 3, 5, 6],
        4,
    ),
    (
        &[
            "proud", "--levels", "0", "--passes", "1", "--seats", "64", "a.aux",
        ],
        &[15, 31, 47, 63],
        4,
    ),
    (&["proud", "--levels", "0", "a.aux"], &[0, 1, 2, 3], 8),
    (
        &["proud", "--levels", "0", "--passes", "3", "a.aux"],
        &[0, 1, 2, 3],
        12,
    ),
    (
        &[
            "proud", "--levels", "1", "--passes", "1", "--seats", "3", "a.aux",
        ],
        &[0, 1, 2, 2],
        8,
    ),
];

/// The seats that the words ask for pass the four cells, each its own range.
#[test]
fn as_many_seats_work_as_are_asked_for(rt: HostRuntime) -> Result<(), Fail> {
    let alloc = rt.alloc();
    for (words, owners, vectors) in DEALS {
        let gate = Watch::over(alloc, 4)?;
        let end = end_on(&rt, alloc, words, FOUR_CELLS, &gate)?;
        assert_eq!(rt; end.status, Status::Done);
        gate.shows(&rt, owners, *vectors);
    }
    Ok(())
}
