//! How the program ends, whatever the outside is.

ghost use Rattle.std.specs.Prelude.{◌≡◌, IfOk, IsErr};
ghost use Rattle.proud_top.specs.Codes.{code_of, IsExit};

use crate::status::Status;
use crate::top::proud;
use book_outer::{Folder, Gate, Sink, Words};
use book_text::Memory;
use std::alloc::Global;
use std::thread::Threads;

/// The exit status of the program: that of the run on the words, or that of want of memory where there wasn't enough for
/// the words.
///
/// It is 0 for a run that is done, 1 for words that ask for nothing, 2 for a refusal, 3 for a file that can't be read, 4 for an
/// output file or a report that can't be written, and 5 for want of memory.
pub fn exit_code<R: Threads + Sync, F: Folder, S: Sink, G: Gate>(
    rt: &R,
    alloc: Global,
    words: Result<Words, Memory>,
    folder: &mut F,
    report: &mut S,
    gate: &G,
) -> u8
    ensures exit { IfOk words (λ list. IsExit list (F.state folder.old) (F.state folder.new) (S.state report.old) (S.state report.new) result) }
    ensures memory { IsErr words → result ≡ code_of Status.Memory }
    ensures folder_kept { IsErr words → F.state folder.new ≡ F.state folder.old }
    ensures report_kept { IsErr words → S.state report.new ≡ S.state report.old }
{
    match words {
        Ok(words) => run_code(rt, alloc, &words, folder, report, gate),
        Err(_) => Status::Memory.code(),
    }
}

/// The exit status of a run on words that are there.
fn run_code<R: Threads + Sync, F: Folder, S: Sink, G: Gate>(
    rt: &R,
    alloc: Global,
    words: &Words,
    folder: &mut F,
    report: &mut S,
    gate: &G,
) -> u8
    ensures { IsExit words.now (F.state folder.old) (F.state folder.new) (S.state report.old) (S.state report.new) result }
{
    proud(rt, alloc, words, folder, report, gate).code()
}
