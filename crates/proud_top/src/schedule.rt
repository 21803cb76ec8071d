//! The events of a schedule, which is read behind the files of the source.

ghost use Rattle.std.specs.Prelude.{◌≡◌, option_map, string_bytes};
ghost use Rattle.proud_top.specs.Forms.Schedules.{Names, Follows};

use crate::gather::load_kind;
use crate::status::Refusal;
use crate::stop::Stop;
use book_files::{Events, FileKind, ReadError, one_answer, read_schedule};
use book_outer::Folder;
use std::alloc::Global;

/// The events of the schedule of that name; none where none is named, and then nothing of the folder is touched.
pub(crate) fn events_of<F: Folder>(
    alloc: Global,
    folder: &mut F,
    name: &Option<String>,
) -> Result<Option<Events>, Stop>
    ensures { Names (option_map string_bytes name.now) (F.state folder.old) (F.state folder.new) result }
{
    match name {
        Some(name) => Ok(Some(read_events(alloc, folder, name.as_str())?)),
        None => Ok(None),
    }
}

/// The events of the schedule of that name.
fn read_events<F: Folder>(alloc: Global, folder: &mut F, name: &str) -> Result<Events, Stop>
    ensures { Follows name.now (F.state folder.old) (F.state folder.new) result }
{
    one_answer();
    let text = load_kind(alloc, folder, FileKind::Schedule, name)?;
    match read_schedule(alloc, &text) {
        Ok(events) => Ok(events),
        Err(ReadError::Fault(fault)) => {
            Err(Stop::Refused(Refusal::Text(FileKind::Schedule, fault)))
        }
        Err(ReadError::Memory) => Err(Stop::Memory),
    }
}
