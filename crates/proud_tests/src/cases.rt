//! Cases that aren't met: the other tests rest on being told so.

use book_outer::OpenGate;
use proud_top::Status;
use run_cases::{Case, DONE, TWO_CELLS, Unmet};
use std::test::Fail;

/// Each of these says one thing that isn't so of the run on one cell.
#[test]
fn a_case_that_is_not_met_is_told(rt: HostRuntime) -> Result<(), Fail> {
    let alloc = rt.alloc();
    let end = DONE.run(&rt, alloc, &OpenGate)?;
    let status = Status::WriteFault;
    let other = Case { status, ..DONE }.compare(alloc, &end);
    assert!(rt; matches!(&other, Err(Unmet::Status(Status::Done))));
    let report = b"cells 1 terminals 2 nets 2 pins 4\n";
    let other = Case { report, ..DONE }.compare(alloc, &end);
    assert!(rt; matches!(&other, Err(Unmet::Report(_))));
    let file = Some(b"UCLA pl 1.0\n".as_slice());
    let other = Case { file, ..DONE }.compare(alloc, &end);
    assert!(rt; matches!(&other, Err(Unmet::Output(Some(_)))));
    let file = None;
    let other = Case { file, ..DONE }.compare(alloc, &end);
    assert!(rt; matches!(&other, Err(Unmet::Output(Some(_)))));
    let texts = TWO_CELLS;
    let other = Case { texts, ..DONE }.compare(alloc, &end);
    assert!(rt; matches!(&other, Err(Unmet::Files)));
    Ok(())
}
