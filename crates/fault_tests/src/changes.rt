//! Designs with a change in one of their files, which are refused, and the line of each.

use proud_top::{DesignFault, FileKind, Refusal, Status, TextFault, TextKind};
use run_cases::{Texts, Unmet, changed, stopped};
use std::alloc::Global;
use std::thread::Threads;

/// A design, one of its files, some text that stands there, and what stands in its first place instead.
pub(crate) type Change = (Texts<'static>, FileKind, &'static [u8], &'static [u8]);

/// A change, at which line the file has its first fault then, which, and the line that tells it.
pub(crate) type FaultyText = (Change, u64, TextKind, &'static [u8]);

/// A change, the first fault of the files together, and the line that tells it.
pub(crate) type FaultyDesign = (Change, DesignFault, &'static [u8]);

/// Whether each text is refused so. If not, the number of the first that isn't, from 0, and what the run left.
pub(crate) fn check_texts<R: Threads + Sync>(
    rt: &R,
    alloc: Global,
    texts: &[FaultyText],
) -> Result<(), (usize, Unmet)> {
    for (number, (change, line, kind, report)) in texts.iter().enumerate() {
        let fault = TextFault {
            line: *line,
            kind: *kind,
        };
        let refusal = Refusal::Text(change.1, fault);
        if let Err(unmet) = check(rt, alloc, *change, refusal, report) {
            return Err((number, unmet));
        }
    }
    Ok(())
}

/// Whether each design is refused so, as for texts.
pub(crate) fn check_designs<R: Threads + Sync>(
    rt: &R,
    alloc: Global,
    designs: &[FaultyDesign],
) -> Result<(), (usize, Unmet)> {
    for (number, (change, fault, report)) in designs.iter().enumerate() {
        if let Err(unmet) = check(rt, alloc, *change, Refusal::Design(*fault), report) {
            return Err((number, unmet));
        }
    }
    Ok(())
}

fn check<R: Threads + Sync>(
    rt: &R,
    alloc: Global,
    change: Change,
    refusal: Refusal,
    report: &'static [u8],
) -> Result<(), Unmet> {
    let (texts, kind, old, new) = change;
    let status = Status::Refused(refusal);
    if status.code() != 2 {
        return Err(Unmet::Status(status));
    }
    let text = changed(alloc, texts.text(kind), old, new)?;
    stopped(texts.with(kind, &text), status, report).check(rt, alloc)
}
