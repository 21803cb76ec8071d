//! The law that a placement is one, whoever solved.

ghost use Rattle.std.specs.Prelude.{◌≡◌, ℕ, List, Some};
ghost use Rattle.book_outer.specs.Files.{FileEntry};
ghost use Rattle.book_outer.specs.State.{FolderState, SinkState};
ghost use Rattle.proud_top.specs.Statuses.{IsDone};
ghost use Rattle.proud_top.specs.Alike.{AskForTheSame, AreAlike};

use crate::laws::laws;
use proud_words::one_request;

/// One placement for all seats and all schedules: two runs that find the same known files and are both done, and whose words ask for
/// the same but for the number of seats and the schedule, leave the same files and put the same text to the report. One of them may
/// have a schedule and the other none. Nothing is asked of their gates, of their runtimes, or of how the threads of either ran.
pub fn one_placement()
    ensures { (words words' : List (List ℕ)) (files : List FileEntry) (folder folder' other other' : FolderState) (report report' sink sink' : SinkState)
        → AskForTheSame words words' → folder.files ≡ Some files → other.files ≡ Some files
        → IsDone words folder folder' report report' → IsDone words' other other' sink sink'
        → AreAlike folder' other' report report' sink sink' }
{
    laws();
    one_request();
}
