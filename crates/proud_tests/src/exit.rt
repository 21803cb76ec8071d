//! The exit status of a run.

use crate::statuses::{NO_WORDS, TALL_CELL};
use book_outer::{OpenGate, Words};
use book_text::Memory;
use proud_top::{Status, exit_code};
use run_cases::{Case, DONE, ONE_CELL, OUTPUT, folder_of, sink_of, stopped, words_of};
use std::alloc::Global;
use std::process::Abort;
use std::test::Fail;
use std::thread::Threads;

/// Asserts the exit status of a run without a call that fails, and what the output file holds and the report got.
fn assert_exit<R: Threads + Abort + Sync>(
    rt: &R,
    alloc: Global,
    words: Result<Words, Memory>,
    case: Case<'_>,
    code: u8,
) -> Result<(), Memory> {
    let mut folder = folder_of(alloc, case.texts, 0)?;
    let mut report = sink_of(alloc, 0)?;
    let exit = exit_code(rt, alloc, words, &mut folder, &mut report, &OpenGate);
    assert_eq!(rt; exit, code);
    assert!(rt; report.written() == case.report);
    assert!(rt; folder.file(OUTPUT) == case.file);
    Ok(())
}

/// Runs, and the exit status of each.
const CODES: &[(Case, u8)] = &[(DONE, 0), (NO_WORDS, 1), (TALL_CELL, 2)];

#[test]
fn runs_end_with_their_codes(rt: HostRuntime) -> Result<(), Fail> {
    for (case, code) in CODES {
        let words = Ok(words_of(rt.alloc(), case.words)?);
        assert_exit(&rt, rt.alloc(), words, *case, *code)?;
    }
    Ok(())
}

#[test]
fn want_of_memory_for_the_words_is_told(rt: HostRuntime) -> Result<(), Fail> {
    let nothing = stopped(ONE_CELL, Status::Memory, b"");
    assert_exit(&rt, rt.alloc(), Err(Memory), nothing, 5)?;
    Ok(())
}
