//! Runs, and what they are to answer.

use crate::designs::{MIDDLE, MIDDLE_REPORT, ONE_CELL, Texts};
use crate::folders::{A, OUTPUT, are_kept, folder_of, sink_of, words_of};
use book_outer::{Gate, MemFolder, MemSink, OpenGate};
use book_text::Memory;
use proud_top::{Status, proud};
use std::alloc::{AllocError, Global};
use std::thread::Threads;

/// How a run ended, and what it left.
#[derive(Drop)]
pub struct End {
    pub status: Status,
    pub folder: MemFolder,
    pub report: MemSink,
}

/// A run by these words.
pub fn end_of<R: Threads + Sync, G: Gate>(
    rt: &R,
    alloc: Global,
    words: &[&str],
    mut folder: MemFolder,
    mut report: MemSink,
    gate: &G,
) -> Result<End, Memory> {
    let words = words_of(alloc, words)?;
    let status = proud(rt, alloc, &words, &mut folder, &mut report, gate);
    Ok(End {
        status,
        folder,
        report,
    })
}

/// A run by these words in the folder of a design, in which no call fails.
pub fn end_on<R: Threads + Sync, G: Gate>(
    rt: &R,
    alloc: Global,
    words: &[&str],
    texts: Texts<'_>,
    gate: &G,
) -> Result<End, Memory> {
    let folder = folder_of(alloc, texts, 0)?;
    end_of(rt, alloc, words, folder, sink_of(alloc, 0)?, gate)
}

/// A run on a design in the folder itself, and what it is to answer. All files but the output file are to stay as they were.
#[derive(Clone, Copy)]
pub struct Case<'a> {
    pub words: &'static [&'static str],
    pub texts: Texts<'a>,
    /// The number of the folder's call that fails, or 0.
    pub call: u64,
    /// The number of the put that fails, or 0.
    pub put: u64,
    pub status: Status,
    /// What the output file holds, where there is one.
    pub file: Option<&'a [u8]>,
    pub report: &'static [u8],
}

/// What a run left that is other than its case says. The tests assert that there is nothing, since only they may end the process.
#[derive(Debug, Drop)]
pub enum Unmet {
    Memory,
    Status(Status),
    Report(String),
    /// The output file, where there is one.
    Output(Option<String>),
    /// A file that the run was to leave as it was.
    Files,
}

impl From<Memory> for Unmet {
    fn from(_memory: Memory) -> Unmet {
        Unmet::Memory
    }
}

impl From<AllocError> for Unmet {
    fn from(_error: AllocError) -> Unmet {
        Unmet::Memory
    }
}

/// The run on one cell, which is placed.
pub const DONE: Case = Case {
    words: A,
    texts: ONE_CELL,
    call: 0,
    put: 0,
    status: Status::Done,
    file: Some(MIDDLE),
    report: MIDDLE_REPORT,
};

/// A run that ends without an output file.
pub fn stopped<'a>(texts: Texts<'a>, status: Status, report: &'static [u8]) -> Case<'a> {
    Case {
        texts,
        status,
        file: None,
        report,
        ..DONE
    }
}

/// A run that is done, with the text of its output file and its report.
pub fn placed<'a>(texts: Texts<'a>, file: &'a [u8], report: &'static [u8]) -> Case<'a> {
    Case {
        texts,
        file: Some(file),
        report,
        ..DONE
    }
}

impl Case<'static> {
    /// The same run on another design.
    pub fn on<'a>(self, texts: Texts<'a>) -> Case<'a> {
        Case { texts, ..self }
    }
}

impl<'a> Case<'a> {
    /// The same run by other words.
    pub fn by(self, words: &'static [&'static str]) -> Case<'a> {
        Case { words, ..self }
    }

    /// The same run where the folder's call of that number fails, or none for 0.
    pub fn failing(self, call: u64) -> Case<'a> {
        Case { call, ..self }
    }

    /// The run, with a gate.
    pub fn run<R: Threads + Sync, G: Gate>(
        &self,
        rt: &R,
        alloc: Global,
        gate: &G,
    ) -> Result<End, Memory> {
        let folder = folder_of(alloc, self.texts, self.call)?;
        let report = sink_of(alloc, self.put)?;
        end_of(rt, alloc, self.words, folder, report, gate)
    }

    /// Whether the run answers what it is to answer.
    pub fn check<R: Threads + Sync>(&self, rt: &R, alloc: Global) -> Result<(), Unmet> {
        let end = self.run(rt, alloc, &OpenGate)?;
        self.compare(alloc, &end)
    }

    /// Whether a run ended as it is to.
    pub fn compare(&self, alloc: Global, end: &End) -> Result<(), Unmet> {
        if end.status != self.status {
            return Err(Unmet::Status(end.status));
        }
        if end.report.written() != self.report {
            return Err(Unmet::Report(text_of(alloc, end.report.written())?));
        }
        if end.folder.file(OUTPUT) != self.file {
            return Err(output_of(alloc, &end.folder)?);
        }
        if !are_kept(&end.folder, self.texts) {
            return Err(Unmet::Files);
        }
        Ok(())
    }
}

/// The words of a run that is done, its design, the text of its placement, and its report.
pub type Run<'a> = (&'static [&'static str], Texts<'a>, &'a [u8], &'static [u8]);

/// Whether each run is done as it is to be. If not, the number of the first that isn't, from 0, and what it left.
pub fn check_runs<R: Threads + Sync>(
    rt: &R,
    alloc: Global,
    runs: &[Run<'_>],
) -> Result<(), (usize, Unmet)> {
    for (number, (words, texts, file, report)) in runs.iter().enumerate() {
        let case = placed(*texts, file, report).by(words);
        if let Err(unmet) = case.check(rt, alloc) {
            return Err((number, unmet));
        }
    }
    Ok(())
}

/// As `check_runs`, for runs that end in any way.
pub fn check_all<R: Threads + Sync>(
    rt: &R,
    alloc: Global,
    cases: &[Case<'_>],
) -> Result<(), (usize, Unmet)> {
    for (number, case) in cases.iter().enumerate() {
        if let Err(unmet) = case.check(rt, alloc) {
            return Err((number, unmet));
        }
    }
    Ok(())
}

fn output_of(alloc: Global, folder: &MemFolder) -> Result<Unmet, Memory> {
    match folder.file(OUTPUT) {
        Some(bytes) => Ok(Unmet::Output(Some(text_of(alloc, bytes)?))),
        None => Ok(Unmet::Output(None)),
    }
}

fn text_of(alloc: Global, bytes: &[u8]) -> Result<String, Memory> {
    Ok(String::from_utf8_lossy(alloc, bytes)?)
}
