//! Reads that give few bytes: a design is placed as else.

ghost use Rattle.std.specs.Prelude.{◌≤◌};

use crate::standing::{Due, assert_stands, due_of};
use book_outer::{Calls, MemFolder, OpenGate};
use book_text::Memory;
use proud_top::Status;
use run_cases::{
    NO_CELL, ONE_CELL, SPELT_ANEW, THREE_PADS, TWO_CELLS, TWO_ROWS, Texts, USUAL, WEIGHTED, end_of,
    files_of, sink_of,
};
use std::alloc::Global;
use std::process::Abort;
use std::test::Fail;
use std::thread::Threads;

const DESIGNS: &[Texts] = &[
    ONE_CELL, TWO_CELLS, THREE_PADS, SPELT_ANEW, NO_CELL, USUAL, TWO_ROWS, WEIGHTED,
];

/// One seat, since threads that start take most of a test's time.
const WORDS: &[&str] = &["proud", "--seats", "1", "a.aux"];

/// What is due comes where each read gives at most so many bytes.
fn assert_slow<R: Threads + Abort + Sync>(
    rt: &R,
    alloc: Global,
    texts: Texts<'_>,
    due: &Due,
    most: usize,
) -> Result<(), Memory>
    requires { 1 ≤ most }
{
    let folder = MemFolder::slow(files_of(alloc, texts)?, Calls::new(alloc), most);
    let end = end_of(rt, alloc, WORDS, folder, sink_of(alloc, 0)?, &OpenGate)?;
    assert_eq!(rt; end.status, Status::Done);
    assert_stands(rt, texts, due, &end);
    // so many reads were needed
    assert!(rt; end.folder.calls() > (texts.scl.len() / most) as u64);
    Ok(())
}

#[test]
fn short_reads_give_the_same_placement(rt: HostRuntime) -> Result<(), Fail> {
    let alloc = rt.alloc();
    for texts in DESIGNS {
        let due = due_of(&rt, alloc, *texts)?;
        assert_slow(&rt, alloc, *texts, &due, 1)?;
        assert_slow(&rt, alloc, *texts, &due, 2)?;
        assert_slow(&rt, alloc, *texts, &due, 7)?;
    }
    Ok(())
}
