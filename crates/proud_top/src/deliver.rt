//! The delivery of what was placed: first into the output file, and then to the report.

ghost use Rattle.proud_top.specs.Statuses.{ReadsNothing};
ghost use Rattle.proud_top.specs.Forms.Stops.{placed_value};
ghost use Rattle.proud_top.specs.Forms.Saying.{Puts, Writes, Delivers};

use crate::place::Placed;
use crate::status::Status;
use book_outer::{Folder, Sink, Trouble};

/// Puts the placement into the file of the name, and where all of it stands, the report's text. The status says what came of it.
pub(crate) fn deliver<F: Folder, S: Sink>(
    folder: &mut F,
    report: &mut S,
    name: &str,
    placed: &Placed,
) -> Status
    ensures reads { ReadsNothing (F.state folder.old) (F.state folder.new) }
    ensures delivers { Delivers name.now (placed_value placed.now) (F.state folder.old) (F.state folder.new) (S.state report.old) (S.state report.new) result }
{
    match write(folder, name, &placed.file) {
        Ok(()) => put(report, &placed.report, Status::Done, Status::WriteFault),
        Err(Trouble::Failed) => Status::WriteFault,
        Err(Trouble::Memory) => Status::Memory,
    }
}

/// Makes the file of the name, and puts a text into it.
fn write<F: Folder>(folder: &mut F, name: &str, text: &[u8]) -> Result<(), Trouble>
    ensures reads { ReadsNothing (F.state folder.old) (F.state folder.new) }
    ensures writes { Writes name.now text.now (F.state folder.old) (F.state folder.new) result }
{
    folder.create(name)?;
    folder.put(text)
}

/// Puts a text to the report, and answers the one status where all of it stands, and the other where the put failed.
pub(crate) fn put<S: Sink>(report: &mut S, text: &[u8], done: Status, failed: Status) -> Status
    ensures { Puts text.now done failed (S.state report.old) (S.state report.new) result }
{
    match report.put(text) {
        Ok(()) => done,
        Err(Trouble::Failed) => failed,
        Err(Trouble::Memory) => Status::Memory,
    }
}
