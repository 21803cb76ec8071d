//! A folder and a sink that hold their bytes.

ghost use Rattle.std.specs.Prelude.{◌≡◌, ◌<◌, ◌≤◌, ◌-◌, ◌^◌, length, [], Some, None, Ok, Err, IsOkUnless, OnErr, IsSome, is_some, not, ◌&&◌, if◌then◌else◌, MatchBool, option_copied};
ghost use Rattle.book_outer.specs.Cause.{one_more, HasCause};
ghost use Rattle.book_outer.specs.Files.{AreNamesDistinct, content};
ghost use Rattle.book_outer.specs.Folder.{Begins, Reads, Creates, Puts, missed_after};
ghost use Rattle.book_outer.specs.Memory.{is_to_fail, given};
ghost use Rattle.book_outer.specs.Sink.{Gets};

use crate::folder::Folder;
use crate::lists::{Calls, Files};
use crate::sink::Sink;
use crate::store::{Store, append};
use crate::trouble::{Trouble, counted};
use std::alloc::Global;
use std::marker::Model;

/// A folder that holds its files. The calls of the given numbers fail, and change no bytes. A read gives at most a given number
/// of bytes.
#[derive(Drop)]
pub struct MemFolder {
    store: Store,
    failing: Calls,
    calls: u64,
    most: usize,
    read_faults: u64,
    write_faults: u64,
}

impl Model for MemFolder {
    ghost use Rattle.std.specs.Prelude.{◌≤◌};
    ghost use Rattle.book_outer.specs.Memory.{MemoryFiles};

    ghost Value = { MemoryFiles };

    ghost view = { λ m. record {
      files = m.store.files;
      failing = m.failing;
      calls = m.calls;
      most = m.most;
      reading = m.store.reading;
      writing = m.store.writing;
      begun = m.store.begun;
      missed = m.store.missed;
      reads = m.store.reads;
      read_faults = m.read_faults;
      write_faults = m.write_faults;
    } };

    ghost invariant = { λ m. 1 ≤ m.most };
}

impl MemFolder {
    /// A folder of these files. The numbers of the calls that are to fail count from 1, over all calls of the folder. A read
    /// gives as much as the buffer has room for. It takes no memory.
    pub fn new(files: Files, failing: Calls) -> MemFolder
        requires { AreNamesDistinct files }
        ensures { result ≡ record {
          files = files;
          failing = failing;
          calls = 0;
          most = 2 ^ 64 - 1;
          reading = None;
          writing = None;
          begun = 0;
          missed = 0;
          reads = 0;
          read_faults = 0;
          write_faults = 0;
        } }
    {
        MemFolder::slow(files, failing, usize::MAX)
    }

    /// As `new`, where each read gives at most so many bytes, as a read of a pipe may. It takes no memory.
    pub fn slow(files: Files, failing: Calls, most: usize) -> MemFolder
        requires names { AreNamesDistinct files }
        requires some { 1 ≤ most }
        ensures { result ≡ record {
          files = files;
          failing = failing;
          calls = 0;
          most = most;
          reading = None;
          writing = None;
          begun = 0;
          missed = 0;
          reads = 0;
          read_faults = 0;
          write_faults = 0;
        } }
    {
        MemFolder {
            store: Store::new(files),
            failing,
            calls: 0,
            most,
            read_faults: 0,
            write_faults: 0,
        }
    }

    /// The bytes of a file.
    pub fn file(&self, name: &str) -> Option<&[u8]>
        ensures { option_copied result ≡ content self.now.files name.now }
    {
        self.store.file(name)
    }

    /// How many calls of `begin`, `read`, `create` and `put` there were, those that failed among them. It stays at the greatest
    /// u64.
    pub fn calls(&self) -> u64
        ensures { result ≡ self.now.calls }
    {
        self.calls
    }
}

impl Folder for MemFolder {
    ghost state = { λ m. record { files = Some m.files; reading = m.reading; writing = m.writing; begun = m.begun; missed = m.missed; reads = m.reads; read_faults = m.read_faults; write_faults = m.write_faults } };

    ghost unknown = { λ folder known. Prim.cc };

    fn begin(&mut self, name: &str) -> Result<(), Trouble>
        ensures answer { result ≡ (if is_some (content self.old.files name.now) && not (is_to_fail self.old.failing self.old.calls)
            then Ok tt else Err Trouble.Failed) }
        ensures calls { self.new.calls ≡ one_more self.old.calls }
        ensures failing { self.new.failing ≡ self.old.failing }
        ensures most { self.new.most ≡ self.old.most }
        ensures begins { Begins (Some self.old.files) name.now result self.new.reading }
        ensures files { self.new.files ≡ self.old.files }
        ensures writing { self.new.writing ≡ self.old.writing }
        ensures begun { self.new.begun ≡ one_more self.old.begun }
        ensures missed { self.new.missed ≡ missed_after (Some self.old.files) name.now self.old.missed }
        ensures counted { self.new.reads ≡ self.old.reads }
        ensures cause { HasCause self.old.read_faults self.new.read_faults result }
        ensures write_faults { self.new.write_faults ≡ self.old.write_faults }
    {
        let fails = next_fails(&mut self.calls, &self.failing);
        counted(&mut self.read_faults, self.store.begin(name, fails))
    }

    fn read(&mut self, buf: &mut [u8]) -> Result<usize, Trouble>
        requires room { 0 < length buf.old }
        requires begun { IsSome self.old.reading }
        ensures answer { MatchBool (is_to_fail self.old.failing self.old.calls) (result ≡ Err Trouble.Failed)
            (result ≡ Ok (given self.old.most self.old.files self.old.reading buf.old)) }
        ensures calls { (self.new.calls ≡ one_more self.old.calls) × (self.new.failing ≡ self.old.failing) × (self.new.most ≡ self.old.most) }
        ensures reads { Reads (Some self.old.files) self.old.reading buf.old buf.new result self.new.reading }
        ensures files { self.new.files ≡ self.old.files }
        ensures writing { self.new.writing ≡ self.old.writing }
        ensures begun { self.new.begun ≡ self.old.begun }
        ensures missed { self.new.missed ≡ self.old.missed }
        ensures counted { self.new.reads ≡ one_more self.old.reads }
        ensures cause { HasCause self.old.read_faults self.new.read_faults result }
        ensures write_faults { self.new.write_faults ≡ self.old.write_faults }
    {
        let fails = next_fails(&mut self.calls, &self.failing);
        counted(
            &mut self.read_faults,
            self.store.read(buf, self.most, fails),
        )
    }

    fn create(&mut self, name: &str) -> Result<(), Trouble>
        ensures answer { MatchBool (is_to_fail self.old.failing self.old.calls) (result ≡ Err Trouble.Failed) (IsOkUnless result Trouble.Memory) }
        ensures calls { self.new.calls ≡ one_more self.old.calls }
        ensures failing { self.new.failing ≡ self.old.failing }
        ensures most { self.new.most ≡ self.old.most }
        ensures creates { Creates (Some self.old.files) (Some self.new.files) name.now result self.new.writing }
        ensures begun { self.new.begun ≡ self.old.begun }
        ensures missed { self.new.missed ≡ self.old.missed }
        ensures counted { self.new.reads ≡ self.old.reads }
        ensures cause { HasCause self.old.write_faults self.new.write_faults result }
        ensures read_faults { self.new.read_faults ≡ self.old.read_faults }
    {
        let fails = next_fails(&mut self.calls, &self.failing);
        counted(&mut self.write_faults, self.store.create(name, fails))
    }

    fn put(&mut self, bytes: &[u8]) -> Result<(), Trouble>
        requires { IsSome self.old.writing }
        ensures answer { MatchBool (is_to_fail self.old.failing self.old.calls) (result ≡ Err Trouble.Failed) (IsOkUnless result Trouble.Memory) }
        ensures calls { self.new.calls ≡ one_more self.old.calls }
        ensures failing { self.new.failing ≡ self.old.failing }
        ensures most { self.new.most ≡ self.old.most }
        ensures puts { Puts (Some self.old.files) self.old.writing bytes.now result (Some self.new.files) self.new.writing }
        ensures kept { OnErr result (self.new.files ≡ self.old.files) }
        ensures begun { self.new.begun ≡ self.old.begun }
        ensures missed { self.new.missed ≡ self.old.missed }
        ensures counted { self.new.reads ≡ self.old.reads }
        ensures cause { HasCause self.old.write_faults self.new.write_faults result }
        ensures read_faults { self.new.read_faults ≡ self.old.read_faults }
    {
        let fails = next_fails(&mut self.calls, &self.failing);
        counted(&mut self.write_faults, self.store.put(bytes, fails))
    }
}

/// A sink that holds what was written. The calls of the given numbers fail, and write nothing.
#[derive(Drop)]
pub struct MemSink {
    written: Vec<u8>,
    failing: Calls,
    calls: u64,
    faults: u64,
}

impl Model for MemSink {
    ghost use Rattle.book_outer.specs.Memory.{MemoryBytes};

    ghost Value = { MemoryBytes };

    ghost view = { λ m. record { written = m.written.items; failing = m.failing; calls = m.calls; faults = m.faults } };
}

impl MemSink {
    /// An empty sink. The numbers of the calls that are to fail count from 1. It takes no memory.
    pub fn new(alloc: Global, failing: Calls) -> MemSink
        ensures { result ≡ record { written = []; failing = failing; calls = 0; faults = 0 } }
    {
        MemSink {
            written: Vec::new(alloc),
            failing,
            calls: 0,
            faults: 0,
        }
    }

    /// What was written.
    pub fn written(&self) -> &[u8]
        ensures { result.now ≡ self.now.written }
    {
        &self.written
    }

    /// How many calls of `put` there were, those that failed among them. It stays at the greatest u64.
    pub fn calls(&self) -> u64
        ensures { result ≡ self.now.calls }
    {
        self.calls
    }
}

impl Sink for MemSink {
    ghost state = { λ m. record { written = Some m.written; faults = m.faults } };

    fn put(&mut self, bytes: &[u8]) -> Result<(), Trouble>
        ensures answer { MatchBool (is_to_fail self.old.failing self.old.calls) (result ≡ Err Trouble.Failed) (IsOkUnless result Trouble.Memory) }
        ensures calls { self.new.calls ≡ one_more self.old.calls }
        ensures failing { self.new.failing ≡ self.old.failing }
        ensures gets { Gets (Some self.old.written) (Some self.new.written) bytes.now result }
        ensures kept { OnErr result (self.new.written ≡ self.old.written) }
        ensures cause { HasCause self.old.faults self.new.faults result }
    {
        let fails = next_fails(&mut self.calls, &self.failing);
        counted(&mut self.faults, append(&mut self.written, bytes, fails))
    }
}

// Counts a call, and says whether it is one of those that are to fail.
fn next_fails(calls: &mut u64, failing: &Calls) -> bool
    ensures counted { calls.new ≡ one_more calls.old }
    ensures fails { result ≡ is_to_fail failing.now calls.old }
{
    *calls = calls.saturating_add(1);
    failing.as_slice().contains(calls)
}
