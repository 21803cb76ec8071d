//! What stands behind a run on a design that can be placed, by its status.

use book_outer::{CalmFolder, CalmSink, MemSink, OpenGate};
use book_text::Memory;
use proud_top::{FileKind, Status, proud};
use run_cases::{A, End, OUTPUT, Texts, are_kept, files_of, words_of};
use std::alloc::Global;
use std::process::Abort;
use std::thread::Threads;

/// What a run leaves in which nothing fails: the texts of the placement and of the report.
#[derive(Drop)]
pub(crate) struct Due {
    placement: Vec<u8>,
    report: Vec<u8>,
}

/// What is due of a design.
pub(crate) fn due_of<R: Threads + Abort + Sync>(
    rt: &R,
    alloc: Global,
    texts: Texts<'_>,
) -> Result<Due, Memory> {
    let mut folder = CalmFolder::new(files_of(alloc, texts)?);
    let mut report = CalmSink::new(alloc);
    let words = words_of(alloc, A)?;
    let status = proud(rt, alloc, &words, &mut folder, &mut report, &OpenGate);
    assert_eq!(rt; status, Status::Done);
    let placement = folder.file(OUTPUT).unwrap_or(b"");
    assert!(rt; placement.starts_with(b"UCLA pl 1.0\n"));
    Ok(Due {
        placement: placement.to_vec(alloc)?,
        report: report.written().to_vec(alloc)?,
    })
}

/// Asserts what the table of the statuses says that stands after a run on a design that can be placed. The files of the design are
/// as they were under each status.
pub(crate) fn assert_stands<R: Abort>(rt: &R, texts: Texts<'_>, due: &Due, end: &End) {
    let file = end.folder.file(OUTPUT);
    let got = end.report.written();
    let status = end.status;
    assert!(rt; are_kept(&end.folder, texts));
    match status {
        Status::Done => assert!(rt;
            file == Some(due.placement.as_slice()) && got == due.report.as_slice()
        ),
        Status::ReadFault(kind) => assert!(rt; file.is_none() && got == cannot_read(kind)),
        Status::WriteFault | Status::Memory => match file {
            None => assert!(rt; end.report.calls() == 0 && got.is_empty()),
            Some(text) => assert!(rt; is_put_up_to(due, text, &end.report)),
        },
        Status::Usage | Status::Refused(_) => assert!(rt; false, "{status:?}"),
    }
}

/// The output file has a front of its text, and the report had no put; or it is whole, and the report got a front.
fn is_put_up_to(due: &Due, text: &[u8], report: &MemSink) -> bool {
    if report.calls() == 0 {
        due.placement.starts_with(text) && report.written().is_empty()
    } else {
        text == due.placement.as_slice() && due.report.starts_with(report.written())
    }
}

/// The line of a file that can't be read.
fn cannot_read(kind: FileKind) -> &'static [u8] {
    match kind {
        FileKind::Aux => b"proud: cannot read aux\n",
        FileKind::Nodes => b"proud: cannot read nodes\n",
        FileKind::Nets => b"proud: cannot read nets\n",
        FileKind::Wts => b"proud: cannot read wts\n",
        FileKind::Pl => b"proud: cannot read pl\n",
        FileKind::Scl => b"proud: cannot read scl\n",
        FileKind::Schedule => b"proud: cannot read schedule\n",
    }
}
