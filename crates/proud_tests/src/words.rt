//! Which words ask for nothing, and into which file the placement is put.

use book_outer::OpenGate;
use proud_top::Status;
use run_cases::{MIDDLE, MIDDLE_REPORT, ONE_CELL, OUTPUT, TWO_CELLS, end_on, stopped};
use std::test::Fail;

/// The line for words of another form.
pub(crate) const USAGE: &[u8] =
    b"usage: proud [--levels N] [--passes N] [--seats N] [--out FILE] [--schedule FILE] (DESIGN | --grid R,C,K)\n";

/// Words that ask for nothing.
const USAGES: &[&[&str]] = &[
    &["proud"],
    &[],
    &["proud", "a.aux", "a.aux"],
    &["proud", "--help"],
    &["proud", "--levels", "13", "a.aux"],
    &["proud", "--levels", "x", "a.aux"],
    &["proud", "--levels", "-1", "a.aux"],
    &["proud", "--levels", "4"],
    &["proud", "--levels"],
    &["proud", "--levels", "4", "--levels", "4", "a.aux"],
    &["proud", "--passes", "0", "a.aux"],
    &["proud", "--passes", "9", "a.aux"],
    &["proud", "--levels", "12", "--passes", "3", "a.aux"],
    &["proud", "--passes", "6", "a.aux"],
    &["proud", "--seats", "0", "a.aux"],
    &["proud", "--seats", "65", "a.aux"],
    &["proud", "--seats", "x", "a.aux"],
    &["proud", "--seats", "4", "--seats", "4", "a.aux"],
    &["proud", "-seats", "4", "a.aux"],
    &["proud", "--levels", "4", "--seats", "4"],
    &["proud", "a.aux", "--out"],
    &["proud", "--grid", "2,2"],
    &["proud", "--grid", "0,2,1"],
    &["proud", "--grid", "2,65,1"],
    &["proud", "--grid", "02,2,1"],
    &["proud", "--grid", "2,2,1", "a.aux"],
];

/// The first call of the folder fails, so a run that reads anything ends with a read fault.
#[test]
fn words_that_ask_for_nothing_are_told(rt: HostRuntime) -> Result<(), Fail> {
    let usage = stopped(TWO_CELLS, Status::Usage, USAGE).failing(1);
    for words in USAGES {
        usage.by(words).check(&rt, rt.alloc())?;
    }
    Ok(())
}

/// Words that ask for the one cell, and the output file: one of its own, or one of those that are read.
const FILES: &[(&[&str], &str)] = &[
    (&["proud", "a.aux"], "a.proud.pl"),
    (&["proud", "--seats=2", "--", "a.aux"], "a.proud.pl"),
    (
        &["proud", "a.aux", "--seats", "7", "--levels", "4"],
        "a.proud.pl",
    ),
    (&["proud", "--out", "b.pl", "a.aux"], "b.pl"),
    (&["proud", "a.aux", "--out", "below/b"], "below/b"),
    (&["proud", "a.aux", "--out=a.pl"], "a.pl"),
    (&["proud", "--out", "a.aux", "a.aux"], "a.aux"),
];

#[test]
fn the_output_file_may_be_asked_for(rt: HostRuntime) -> Result<(), Fail> {
    for (words, name) in FILES {
        let end = end_on(&rt, rt.alloc(), words, ONE_CELL, &OpenGate)?;
        assert_eq!(rt; end.status, Status::Done);
        assert!(rt; end.report.written() == MIDDLE_REPORT);
        assert!(rt; end.folder.file(name) == Some(MIDDLE));
        assert!(rt; *name == OUTPUT || end.folder.file(OUTPUT).is_none());
    }
    Ok(())
}
