//! What words ask for.

use book_outer::Words;
use grid_design::Grid;
use proud_words::{Request, Source, WordsFault, requested};
use std::test::Fail;

/// Words that ask for a design, and what is expected: levels and passes, seats, the output file and the design.
const DESIGNS: [(&str, (u32, u32), usize, &str, &str); 19] = [
    ("a.aux", (4, 2), 4, "a.proud.pl", "a.aux"),
    ("a", (4, 2), 4, "a.proud.pl", "a"),
    ("dir/a.AUX", (4, 2), 4, "dir/a.AUX.proud.pl", "dir/a.AUX"),
    ("a.aux.aux", (4, 2), 4, "a.aux.proud.pl", "a.aux.aux"),
    (".aux", (4, 2), 4, ".proud.pl", ".aux"),
    ("--levels 0 a.aux", (0, 2), 4, "a.proud.pl", "a.aux"),
    ("--levels=12 a.aux", (12, 2), 4, "a.proud.pl", "a.aux"),
    (
        "a.aux --seats 64 --levels 3",
        (3, 2),
        64,
        "a.proud.pl",
        "a.aux",
    ),
    ("--seats 1 a.aux --out b.pl", (4, 2), 1, "b.pl", "a.aux"),
    ("--out=a.aux a.aux", (4, 2), 4, "a.aux", "a.aux"),
    ("--levels +03 a.aux", (3, 2), 4, "a.proud.pl", "a.aux"),
    ("-- --levels", (4, 2), 4, "--levels.proud.pl", "--levels"),
    ("--levels 3 -- a.aux", (3, 2), 4, "a.proud.pl", "a.aux"),
    ("--passes 5 a.aux", (4, 5), 4, "a.proud.pl", "a.aux"),
    ("a.aux --passes 1", (4, 1), 4, "a.proud.pl", "a.aux"),
    (
        "--passes=8 --levels=2 a.aux",
        (2, 8),
        4,
        "a.proud.pl",
        "a.aux",
    ),
    (
        "--levels 12 --passes +2 a.aux",
        (12, 2),
        4,
        "a.proud.pl",
        "a.aux",
    ),
    ("-- a.aux", (4, 2), 4, "a.proud.pl", "a.aux"),
    ("-", (4, 2), 4, "-.proud.pl", "-"),
];

/// Words that ask for a grid, and what is expected: levels and passes, seats, the output file, and rows, columns and number.
const GRIDS: [(&str, (u32, u32), usize, &str, u32, u32, u64); 3] = [
    ("--grid 2,3,1", (4, 2), 4, "grid.proud.pl", 2, 3, 1),
    (
        "--grid=64,1,18446744073709551615 --levels 12",
        (12, 2),
        4,
        "grid.proud.pl",
        64,
        1,
        18446744073709551615,
    ),
    (
        "--seats 7 --grid 12,12,5 --out a.pl",
        (4, 2),
        7,
        "a.pl",
        12,
        12,
        5,
    ),
];

/// Words that ask for nothing.
const REFUSED: [&str; 34] = [
    "",
    "--seats 0 a.aux",
    "--seats 65 a.aux",
    "--levels x a.aux",
    "--levels 13 a.aux",
    "--levels -1 a.aux",
    "--levels=-0 a.aux",
    "--levels= a.aux",
    "--levels 1.0 a.aux",
    "--levels 18446744073709551616 a.aux",
    "--levels a.aux",
    "--passes 0 a.aux",
    "--passes 9 a.aux",
    "--passes a.aux",
    "--passes 6 a.aux",
    "--levels 12 --passes 3 a.aux",
    "--passes 2 --passes 2 a.aux",
    "--grid 2,2",
    "--grid 2,2,1 a.aux",
    "--grid 0,2,1",
    "--grid 65,2,1",
    "--grid",
    "--out",
    "--out b.pl",
    "--help",
    "--help=x a.aux",
    "-h",
    "help --levels",
    "--version a.aux",
    "--level 3 a.aux",
    "--levels 3 --levels 3 a.aux",
    "--grid 2,3,1 --grid 2,3,1",
    "a.aux b.aux",
    "-x a.aux",
];

fn asked(rt: &HostRuntime, line: &str) -> Result<Request, WordsFault> {
    let alloc = rt.alloc();
    let mut words = Words::new(alloc);
    words.push("proud")?;
    for word in line.split(' ') {
        if !word.is_empty() {
            words.push(word)?;
        }
    }
    requested(alloc, &words)
}

#[test]
fn designs_are_asked_for(rt: HostRuntime) -> Result<(), Fail> {
    for (line, (levels, passes), seats, out, design) in DESIGNS {
        let request = asked(&rt, line).ok().ok_or(line)?;
        assert!(rt; request.rounds.levels == levels && request.rounds.passes == passes);
        assert!(rt; request.seats == seats);
        assert!(rt; request.out.as_str() == out);
        assert!(rt; matches!(&request.source, Source::Design(name) if name.as_str() == design));
    }
    Ok(())
}

#[test]
fn grids_are_asked_for(rt: HostRuntime) -> Result<(), Fail> {
    for (line, (levels, passes), seats, out, rows, columns, number) in GRIDS {
        let request = asked(&rt, line).ok().ok_or(line)?;
        let grid = Grid {
            rows,
            columns,
            number,
        };
        assert!(rt; request.rounds.levels == levels && request.rounds.passes == passes);
        assert!(rt; request.seats == seats);
        assert!(rt; request.out.as_str() == out);
        assert!(rt; matches!(&request.source, Source::Grid(found) if *found == grid));
    }
    Ok(())
}

#[test]
fn other_words_ask_for_nothing(rt: HostRuntime) -> Result<(), Fail> {
    for line in REFUSED {
        let fault = asked(&rt, line).err().ok_or(line)?;
        assert!(rt; fault == WordsFault::Usage);
    }
    Ok(())
}
