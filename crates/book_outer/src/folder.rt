ghost use Rattle.std.specs.Prelude.{◌≡◌, ◌<◌, length, None, IsSome};
ghost use Rattle.book_outer.specs.Cause.{one_more, HasCause};
ghost use Rattle.book_outer.specs.State.{FolderState};
ghost use Rattle.book_outer.specs.Folder.{Begins, Reads, Creates, Puts, missed_after};

use crate::trouble::Trouble;

/// A folder of files. One file is read and one is written at a time.
pub trait Folder {
    /// What is known of the folder.
    ghost state: { Self → FolderState };

    /// Starts to read a file at its first byte. An absent name is a fault.
    fn begin(&mut self, name: &str) -> Result<(), Trouble>
        ensures begins { Begins (state self.old).files name.now result (state self.new).reading }
        ensures files { (state self.new).files ≡ (state self.old).files }
        ensures writing { (state self.new).writing ≡ (state self.old).writing }
        ensures begun { (state self.new).begun ≡ one_more (state self.old).begun }
        ensures missed { (state self.new).missed ≡ missed_after (state self.old).files name.now (state self.old).missed }
        ensures counted { (state self.new).reads ≡ (state self.old).reads }
        ensures cause { HasCause (state self.old).read_faults (state self.new).read_faults result }
        ensures write_faults { (state self.new).write_faults ≡ (state self.old).write_faults };

    /// Reads the next bytes of the file that was begun, and says how many. 0 is the end of the file.
    fn read(&mut self, buf: &mut [u8]) -> Result<usize, Trouble>
        requires room { 0 < length buf.old }
        requires begun { IsSome (state self.old).reading }
        ensures reads { Reads (state self.old).files (state self.old).reading buf.old buf.new result (state self.new).reading }
        ensures files { (state self.new).files ≡ (state self.old).files }
        ensures writing { (state self.new).writing ≡ (state self.old).writing }
        ensures begun { (state self.new).begun ≡ (state self.old).begun }
        ensures missed { (state self.new).missed ≡ (state self.old).missed }
        ensures counted { (state self.new).reads ≡ one_more (state self.old).reads }
        ensures cause { HasCause (state self.old).read_faults (state self.new).read_faults result }
        ensures write_faults { (state self.new).write_faults ≡ (state self.old).write_faults };

    /// Makes an empty file of that name, in place of one that was there, and starts to write it.
    fn create(&mut self, name: &str) -> Result<(), Trouble>
        ensures creates { Creates (state self.old).files (state self.new).files name.now result (state self.new).writing }
        ensures begun { (state self.new).begun ≡ (state self.old).begun }
        ensures missed { (state self.new).missed ≡ (state self.old).missed }
        ensures counted { (state self.new).reads ≡ (state self.old).reads }
        ensures cause { HasCause (state self.old).write_faults (state self.new).write_faults result }
        ensures read_faults { (state self.new).read_faults ≡ (state self.old).read_faults };

    /// Puts bytes at the end of the file that was created.
    fn put(&mut self, bytes: &[u8]) -> Result<(), Trouble>
        requires { IsSome (state self.old).writing }
        ensures puts { Puts (state self.old).files (state self.old).writing bytes.now result (state self.new).files (state self.new).writing }
        ensures begun { (state self.new).begun ≡ (state self.old).begun }
        ensures missed { (state self.new).missed ≡ (state self.old).missed }
        ensures counted { (state self.new).reads ≡ (state self.old).reads }
        ensures cause { HasCause (state self.old).write_faults (state self.new).write_faults result }
        ensures read_faults { (state self.new).read_faults ≡ (state self.old).read_faults };

    /// Where the files aren't known, no name is counted as missed.
    ghost unknown: { (folder : Self) → (state folder).files ≡ None → (state folder).missed ≡ 0 };
}
