//! Folders, sinks and words in memory.

ghost use Rattle.std.specs.Prelude.{IfOk};
ghost use Rattle.book_outer.specs.Files.{AreNamesDistinct};

use crate::designs::Texts;
use book_outer::{Calls, Files, MemFolder, MemSink, Words};
use book_text::Memory;
use std::alloc::Global;

/// The words of a run on the design in the folder itself.
pub const A: &[&str] = &["proud", "a.aux"];

/// The output file of such a run.
pub const OUTPUT: &str = "a.proud.pl";

/// The design's files in the folder itself, and beside them the schedule `s`.
pub fn files_of(alloc: Global, texts: Texts<'_>) -> Result<Files, Memory>
    ensures { IfOk result AreNamesDistinct }
{
    let mut files = Files::new(alloc);
    files.push("a.aux", texts.aux)?;
    files.push("a.nodes", texts.nodes)?;
    files.push("a.nets", texts.nets)?;
    files.push("a.wts", texts.wts)?;
    files.push("a.pl", texts.pl)?;
    files.push("a.scl", texts.scl)?;
    files.push("s", texts.schedule)?;
    Ok(files)
}

/// Whether these files are as they were.
pub fn are_kept(folder: &MemFolder, texts: Texts<'_>) -> bool {
    folder.file("a.aux") == Some(texts.aux)
        && folder.file("a.nodes") == Some(texts.nodes)
        && folder.file("a.nets") == Some(texts.nets)
        && folder.file("a.wts") == Some(texts.wts)
        && folder.file("a.pl") == Some(texts.pl)
        && folder.file("a.scl") == Some(texts.scl)
        && folder.file("s") == Some(texts.schedule)
}

/// A folder with these files, in which the call of that number fails, or none for 0.
pub fn folder_of(alloc: Global, texts: Texts<'_>, failing: u64) -> Result<MemFolder, Memory> {
    Ok(MemFolder::new(files_of(alloc, texts)?, calls_of(alloc, failing)?))
}

/// A report in which the put of that number fails, or none for 0.
pub fn sink_of(alloc: Global, failing: u64) -> Result<MemSink, Memory> {
    Ok(MemSink::new(alloc, calls_of(alloc, failing)?))
}

/// The number of one call, or none for 0.
pub fn calls_of(alloc: Global, number: u64) -> Result<Calls, Memory> {
    let mut calls = Calls::new(alloc);
    if number != 0 {
        calls.push(number)?;
    }
    Ok(calls)
}

/// The words of a command line.
pub fn words_of(alloc: Global, words: &[&str]) -> Result<Words, Memory> {
    let mut list = Words::new(alloc);
    for word in words {
        list.push(word)?;
    }
    Ok(list)
}
