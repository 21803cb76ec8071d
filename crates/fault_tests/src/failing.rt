//! Each call of the outside fails once: which status comes then, and what stands.

ghost use Rattle.std.specs.Prelude.{◌≤◌};

use crate::standing::{assert_stands, due_of};
use book_outer::{MemFolder, OpenGate};
use book_text::Memory;
use proud_top::{FileKind, Status};
use run_cases::{ONE_CELL, TWO_ROWS, Texts, USUAL, calls_of, end_of, files_of, folder_of, sink_of};
use std::alloc::Global;
use std::process::Abort;
use std::test::Fail;
use std::thread::Threads;

/// A design, and its files in the order in which they are read.
type Design = (Texts<'static>, &'static [FileKind]);

const DESIGNS: &[Design] = &[
    (
        ONE_CELL,
        &[
            FileKind::Aux,
            FileKind::Nodes,
            FileKind::Nets,
            FileKind::Pl,
            FileKind::Scl,
        ],
    ),
    (USUAL, ALL_SIX),
    (TWO_ROWS, ALL_SIX),
];

const ALL_SIX: &[FileKind] = &[
    FileKind::Aux,
    FileKind::Nodes,
    FileKind::Nets,
    FileKind::Wts,
    FileKind::Pl,
    FileKind::Scl,
];

/// Words that ask for one seat, and for four.
const SEATS: &[&[&str]] = &[&["proud", "--seats", "1", "a.aux"], FOUR_SEATS];

const FOUR_SEATS: &[&str] = &["proud", "--seats", "4", "a.aux"];

/// How many calls a file of so many bytes takes: it is begun, read in pieces of at most so many bytes, and found to have ended.
fn calls_for(length: usize, most: usize) -> u64
    requires { 1 ≤ most }
{
    let last = if length % most == 0 { 0 } else { 1 };
    ((length / most) as u64).saturating_add(last + 2)
}

/// The status that is due where so many calls of the folder went well before the one that fails. Behind those for the files one
/// creates the output file, and one puts its text.
fn due_after(design: Design, most: usize, calls: u64) -> Status
    requires { 1 ≤ most }
{
    let (texts, kinds) = design;
    let mut left = calls;
    for kind in kinds {
        let own = calls_for(texts.text(*kind).len(), most);
        if left < own {
            return Status::ReadFault(*kind);
        }
        left -= own;
    }
    if left < 2 {
        Status::WriteFault
    } else {
        Status::Done
    }
}

/// How many runs are tried at most before one is done.
const MOST_RUNS: u64 = 2_000;

/// The first call of the folder fails, then in another run the second, and so on until a run is done, since it has no call of that
/// number. A read gives at most so many bytes.
fn assert_folder_fails_once<R: Threads + Abort + Sync>(
    rt: &R,
    alloc: Global,
    design: Design,
    words: &[&str],
    most: usize,
) -> Result<(), Memory>
    requires { 1 ≤ most }
{
    let due = due_of(rt, alloc, design.0)?;
    for before in 0..MOST_RUNS {
        let failing = calls_of(alloc, before + 1)?;
        let folder = MemFolder::slow(files_of(alloc, design.0)?, failing, most);
        let end = end_of(rt, alloc, words, folder, sink_of(alloc, 0)?, &OpenGate)?;
        assert_eq!(rt; end.status, due_after(design, most, before));
        assert_stands(rt, design.0, &due, &end);
        if end.status == Status::Done {
            assert_eq!(rt; end.folder.calls(), before);
            return Ok(());
        }
        // behind the call that failed there was none
        assert_eq!(rt; end.folder.calls(), before + 1);
    }
    assert!(rt; false, "no run was done");
    Ok(())
}

#[test]
fn each_call_of_the_folder_fails_once(rt: HostRuntime) -> Result<(), Fail> {
    for design in DESIGNS {
        for words in SEATS {
            assert_folder_fails_once(&rt, rt.alloc(), *design, words, usize::MAX)?;
        }
    }
    Ok(())
}

#[test]
fn each_read_of_a_piece_fails_once(rt: HostRuntime) -> Result<(), Fail> {
    for design in DESIGNS {
        assert_folder_fails_once(&rt, rt.alloc(), *design, FOUR_SEATS, 7)?;
    }
    Ok(())
}

/// As for the folder: the first put of the report fails, then the second, and so on. The output file is whole then.
fn assert_report_fails_once<R: Threads + Abort + Sync>(
    rt: &R,
    alloc: Global,
    texts: Texts<'_>,
    words: &[&str],
) -> Result<(), Memory> {
    let due = due_of(rt, alloc, texts)?;
    for before in 0..MOST_RUNS {
        let folder = folder_of(alloc, texts, 0)?;
        let report = sink_of(alloc, before + 1)?;
        let end = end_of(rt, alloc, words, folder, report, &OpenGate)?;
        assert_stands(rt, texts, &due, &end);
        if end.status == Status::Done {
            assert_eq!(rt; end.report.calls(), before);
            assert!(rt; before > 0);
            return Ok(());
        }
        assert_eq!(rt; end.status, Status::WriteFault);
        assert_eq!(rt; end.report.calls(), before + 1);
    }
    assert!(rt; false, "no run was done");
    Ok(())
}

#[test]
fn each_put_of_the_report_fails_once(rt: HostRuntime) -> Result<(), Fail> {
    for (texts, _) in DESIGNS {
        for words in SEATS {
            assert_report_fails_once(&rt, rt.alloc(), *texts, words)?;
        }
    }
    Ok(())
}
