//! A folder and a sink that hold their bytes, and whose only faults are names that aren't there.

ghost use Rattle.std.specs.Prelude.{◌≡◌, ◌<◌, length, [], Some, None, Ok, Err, IsOk, IsOkUnless, OnErr, IsSome, is_some, if◌then◌else◌, option_copied};
ghost use Rattle.book_outer.specs.Cause.{one_more, HasCause};
ghost use Rattle.book_outer.specs.Files.{AreNamesDistinct, content};
ghost use Rattle.book_outer.specs.Folder.{Begins, Reads, Creates, Puts, missed_after};
ghost use Rattle.book_outer.specs.Sink.{Gets};

use crate::folder::Folder;
use crate::lists::Files;
use crate::sink::Sink;
use crate::store::{Store, append};
use crate::trouble::Trouble;
use std::alloc::Global;
use std::marker::Model;

/// A folder that holds its files. Only `begin` of an absent name fails.
#[derive(Drop)]
pub struct CalmFolder {
    store: Store,
}

impl Model for CalmFolder {
    ghost use Rattle.book_outer.specs.Memory.{StoredFiles};

    ghost Value = { StoredFiles };

    ghost view = { λ c. c.store };
}

impl CalmFolder {
    /// A folder of these files. It takes no memory.
    pub fn new(files: Files) -> CalmFolder
        requires { AreNamesDistinct files }
        ensures { result ≡ record { files = files; reading = None; writing = None; begun = 0; missed = 0; reads = 0 } }
    {
        CalmFolder {
            store: Store::new(files),
        }
    }

    /// The bytes of a file.
    pub fn file(&self, name: &str) -> Option<&[u8]>
        ensures { option_copied result ≡ content self.now.files name.now }
    {
        self.store.file(name)
    }
}

impl Folder for CalmFolder {
    ghost state = { λ c. record { files = Some c.files; reading = c.reading; writing = c.writing; begun = c.begun; missed = c.missed; reads = c.reads; read_faults = c.missed; write_faults = 0 } };

    ghost unknown = { λ folder known. Prim.cc };

    fn begin(&mut self, name: &str) -> Result<(), Trouble>
        ensures answer { result ≡ (if is_some (content self.old.files name.now) then Ok tt else Err Trouble.Failed) }
        ensures begins { Begins (Some self.old.files) name.now result self.new.reading }
        ensures files { self.new.files ≡ self.old.files }
        ensures writing { self.new.writing ≡ self.old.writing }
        ensures begun { self.new.begun ≡ one_more self.old.begun }
        ensures missed { self.new.missed ≡ missed_after (Some self.old.files) name.now self.old.missed }
        ensures counted { self.new.reads ≡ self.old.reads }
        ensures cause { HasCause self.old.missed self.new.missed result }
    {
        self.store.begin(name, false)
    }

    fn read(&mut self, buf: &mut [u8]) -> Result<usize, Trouble>
        requires room { 0 < length buf.old }
        requires begun { IsSome self.old.reading }
        ensures answer { IsOk result }
        ensures reads { Reads (Some self.old.files) self.old.reading buf.old buf.new result self.new.reading }
        ensures files { self.new.files ≡ self.old.files }
        ensures writing { self.new.writing ≡ self.old.writing }
        ensures begun { self.new.begun ≡ self.old.begun }
        ensures missed { self.new.missed ≡ self.old.missed }
        ensures counted { self.new.reads ≡ one_more self.old.reads }
    {
        self.store.read(buf, usize::MAX, false)
    }

    fn create(&mut self, name: &str) -> Result<(), Trouble>
        ensures answer { IsOkUnless result Trouble.Memory }
        ensures creates { Creates (Some self.old.files) (Some self.new.files) name.now result self.new.writing }
        ensures begun { self.new.begun ≡ self.old.begun }
        ensures missed { self.new.missed ≡ self.old.missed }
        ensures counted { self.new.reads ≡ self.old.reads }
    {
        self.store.create(name, false)
    }

    fn put(&mut self, bytes: &[u8]) -> Result<(), Trouble>
        requires { IsSome self.old.writing }
        ensures answer { IsOkUnless result Trouble.Memory }
        ensures puts { Puts (Some self.old.files) self.old.writing bytes.now result (Some self.new.files) self.new.writing }
        ensures kept { OnErr result (self.new.files ≡ self.old.files) }
        ensures begun { self.new.begun ≡ self.old.begun }
        ensures missed { self.new.missed ≡ self.old.missed }
        ensures counted { self.new.reads ≡ self.old.reads }
    {
        self.store.put(bytes, false)
    }
}

/// A sink that holds what was written. It never fails.
#[derive(Drop)]
pub struct CalmSink {
    written: Vec<u8>,
}

impl Model for CalmSink {
    ghost use Rattle.std.specs.Prelude.{ℕ, List};

    ghost Value = { List ℕ };

    ghost view = { λ c. c.written.items };
}

impl CalmSink {
    /// An empty sink. It takes no memory.
    pub fn new(alloc: Global) -> CalmSink
        ensures { result ≡ [] }
    {
        CalmSink {
            written: Vec::new(alloc),
        }
    }

    /// What was written.
    pub fn written(&self) -> &[u8]
        ensures { result.now ≡ self.now }
    {
        &self.written
    }
}

impl Sink for CalmSink {
    ghost state = { λ c. record { written = Some c; faults = 0 } };

    fn put(&mut self, bytes: &[u8]) -> Result<(), Trouble>
        ensures answer { IsOkUnless result Trouble.Memory }
        ensures gets { Gets (Some self.old) (Some self.new) bytes.now result }
        ensures kept { OnErr result (self.new ≡ self.old) }
    {
        append(&mut self.written, bytes, false)
    }
}
