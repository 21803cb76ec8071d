//! Schedules in place of a crew: what is placed stays, no gate is called, and a schedule is read behind the design.

use crate::grids::{assert_same, end_on_grid};
use crate::words::USAGE;
use book_outer::Gate;
use book_text::Memory;
use proud_top::{FileKind, Refusal, Status, TextFault, TextKind};
use run_cases::{Case, ONE_CELL, Run, TWO_CELLS, Texts, USUAL, Unmet, placed, stopped};
use std::alloc::Global;
use std::sync::atomic::{AtomicU64, Ordering};
use std::test::Fail;
use std::thread::Threads;

/// Counts its calls.
#[derive(Drop)]
struct Counter {
    passes: AtomicU64,
}

impl Counter {
    fn new() -> Counter {
        Counter {
            passes: AtomicU64::new(0),
        }
    }

    fn passes(&self) -> u64 {
        self.passes.load(Ordering::SeqCst)
    }
}

impl Gate for Counter {
    fn pass(&self, _seat: usize, _point: usize) {
        self.passes.fetch_add(1, Ordering::SeqCst);
    }
}

/// The placement of two cells without a cut, and its report.
const TWO: &[u8] = b"UCLA pl 1.0\na 2 0 : N\nb 6 0 : N\nl 0 5 : N /FIXED\nr 10 5 : N /FIXED\n";

const TWO_REPORT: &[u8] = b"cells 2 terminals 2 nets 3 pins 6\nlevels 0 gap 2\nwire 10\n";

/// Words that ask for no cut, and for the schedule `s`.
const BY_SCHEDULE: &[&str] = &["proud", "--levels", "0", "--schedule", "s", "a.aux"];

/// Runs that are done.
const PLACED: &[Run] = &[
    (
        BY_SCHEDULE,
        Texts {
            schedule: b"renew 0 1\nload 1 0\nrenew 1 0\nrenew 9 9\n",
            ..TWO_CELLS
        },
        TWO,
        TWO_REPORT,
    ),
    (BY_SCHEDULE, TWO_CELLS, TWO, TWO_REPORT),
    (
        &[
            "proud",
            "--schedule=s",
            "a.aux",
            "--seats",
            "1",
            "--levels",
            "0",
        ],
        Texts {
            schedule: b"# a comment\r\n\r\nLOAD 0 4294967295\r\nReNew 0 1",
            ..TWO_CELLS
        },
        TWO,
        TWO_REPORT,
    ),
    (
        &["proud", "--schedule", "s", "a.aux"],
        Texts {
            schedule: b"renew 3 0\nrenew 3 0\nrenew 2 1\nload 2 0\nrenew 2 1\n",
            ..USUAL
        },
        b"UCLA pl 1.0\nu 6 12 : N\nv 14 24 : N\nm 14 0 : N /FIXED\ni -1 18 : N /FIXED\nq 20 30 : N /FIXED\n",
        b"cells 2 terminals 3 nets 3 pins 7\nlevels 4 gap 1\nwire 37.5\n",
    ),
];

/// The words of a run that ends before there is a placement, its design, the number of the folder's call that fails or 0, and how
/// it ends.
type Stopped = (
    &'static [&'static str],
    Texts<'static>,
    u64,
    Status,
    &'static [u8],
);

/// A schedule with a line that is none.
const BAD_LINE: Texts = Texts {
    schedule: b"load 1\n",
    ..TWO_CELLS
};

const REFUSED: Status = Status::Refused(Refusal::Text(
    FileKind::Schedule,
    TextFault {
        line: 1,
        kind: TextKind::BadLine,
    },
));

const REFUSED_LINE: &[u8] = b"proud: schedule:1: bad line\n";

const UNREAD: Status = Status::ReadFault(FileKind::Schedule);

const UNREAD_LINE: &[u8] = b"proud: cannot read schedule\n";

const STOPPED: &[Stopped] = &[
    (BY_SCHEDULE, BAD_LINE, 0, REFUSED, REFUSED_LINE),
    (
        BY_SCHEDULE,
        Texts {
            schedule: b"renew 0 0\n\nrenew 0 4294967296\n",
            ..TWO_CELLS
        },
        0,
        Status::Refused(Refusal::Text(
            FileKind::Schedule,
            TextFault {
                line: 3,
                kind: TextKind::BadLine,
            },
        )),
        b"proud: schedule:3: bad line\n",
    ),
    // the folder's calls before are begin, read and read of each of five files
    (BY_SCHEDULE, TWO_CELLS, 16, UNREAD, UNREAD_LINE),
    (BY_SCHEDULE, TWO_CELLS, 17, UNREAD, UNREAD_LINE),
    // there is no such file
    (
        &["proud", "--schedule", "t", "a.aux"],
        TWO_CELLS,
        0,
        UNREAD,
        UNREAD_LINE,
    ),
    // the design comes first
    (
        BY_SCHEDULE,
        Texts {
            scl: b"UCLA scl 1.0\n",
            ..BAD_LINE
        },
        0,
        Status::Refused(Refusal::Text(
            FileKind::Scl,
            TextFault {
                line: 2,
                kind: TextKind::BadLine,
            },
        )),
        b"proud: scl:2: bad line\n",
    ),
    // and what the files make comes behind the schedule
    (
        BY_SCHEDULE,
        Texts {
            nets: b"UCLA nets 1.0\nNumNets : 0\nNumPins : 0\n",
            schedule: b"load 1\n",
            ..ONE_CELL
        },
        0,
        REFUSED,
        REFUSED_LINE,
    ),
    (
        &["proud", "--schedule", "s"],
        BAD_LINE,
        0,
        Status::Usage,
        USAGE,
    ),
];

/// How often a run calls its gate. It has to answer what it is to answer.
fn passes_of<R: Threads + Sync>(rt: &R, alloc: Global, case: Case<'_>) -> Result<u64, Unmet> {
    let gate = Counter::new();
    let end = case.run(rt, alloc, &gate)?;
    case.compare(alloc, &end)?;
    Ok(gate.passes())
}

#[test]
fn schedules_solve_in_place_of_a_crew(rt: HostRuntime) -> Result<(), Fail> {
    for (words, texts, file, report) in PLACED {
        let case = placed(*texts, file, report).by(words);
        let passes = passes_of(&rt, rt.alloc(), case)?;
        assert_eq!(rt; passes, 0);
    }
    for (words, texts, call, status, report) in STOPPED {
        let case = stopped(*texts, *status, report).by(words).failing(*call);
        let passes = passes_of(&rt, rt.alloc(), case)?;
        assert_eq!(rt; passes, 0);
    }
    Ok(())
}

/// The crew calls the gate.
#[test]
fn a_crew_solves_without_a_schedule(rt: HostRuntime) -> Result<(), Fail> {
    let case = placed(TWO_CELLS, TWO, TWO_REPORT);
    let words = &["proud", "--levels", "0", "a.aux"];
    let passes = passes_of(&rt, rt.alloc(), case.by(words))?;
    assert!(rt; passes > 0);
    Ok(())
}

/// So often the same line.
fn lines(alloc: Global, line: &[u8], count: usize) -> Result<Vec<u8>, Memory> {
    let mut text = Vec::new(alloc);
    for _ in 0..count {
        text.extend_from_slice(line)?;
    }
    Ok(text)
}

/// A line, and how often it stands in the schedule.
const LINES: &[(&[u8], usize)] = &[(b"", 0), (b"renew 0 0\n", 10_000), (b"renew 1 77\n", 500)];

/// A grid is placed as by a crew, whatever the schedule is.
#[test]
fn schedules_place_a_grid(rt: HostRuntime) -> Result<(), Fail> {
    let alloc = rt.alloc();
    let plain = end_on_grid(&rt, alloc, &["proud", "--grid", "12,12,5"], b"", 0)?;
    for (line, count) in LINES {
        let schedule = lines(alloc, line, *count)?;
        let words = &["proud", "--grid", "12,12,5", "--schedule", "s"];
        assert_same(&rt, &plain, &end_on_grid(&rt, alloc, words, &schedule, 0)?);
    }
    Ok(())
}
