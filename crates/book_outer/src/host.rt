//! The real folder of the process and its standard output: the trusted edge. Nothing of their content is known.

ghost use Rattle.std.specs.Prelude.{◌≡◌, ◌↔◌, ◌<◌, ◌≤◌, length, None, IsSome, IfOk};
ghost use Rattle.std.specs.IoError.{error_kind};
ghost use Rattle.std.specs.Io.KnownBytes.{ReadConsumes, WriteAppends};
ghost use Rattle.std.specs.Io.{ReadsAtMost};
ghost use Rattle.book_outer.specs.Cause.{one_more, HasCause};
ghost use Rattle.book_outer.specs.Folder.{Reads, Puts};
ghost use Rattle.book_outer.specs.Host.{some_reading, some_writing, ReadsFile, PutsFile};
ghost use Rattle.book_outer.specs.Sink.{Gets};

use crate::folder::Folder;
use crate::sink::Sink;
use crate::trouble::{Trouble, counted};
use std::io::{ErrorKind, Read, Write};
use std::rt::Files;
use std::{fs, io};

/// The real folder of the process. Relative names start at its current folder.
#[derive(Drop)]
pub struct HostFolder<R: Files> {
    rt: R,
    reading: Option<R::File>,
    writing: Option<R::File>,
    begun: u64,
    reads: u64,
    read_faults: u64,
    write_faults: u64,
    standard: Standard<R::File>,
}

/// Files that hold nothing, open for reading for as long as the folder lives. A file that is opened takes the least descriptor
/// that is free: where the process was started with standard streams closed, a file of the folder would take the descriptor of
/// standard output, and the report would go into it. These three take what is free of the three descriptors of the standard
/// streams before any file of the folder does, and a write of the report to one of them fails, as it should.
#[derive(Drop)]
struct Standard<F> {
    first: Option<F>,
    second: Option<F>,
    third: Option<F>,
}

// A file that holds nothing. Where it can't be opened, the folder works without it.
fn open_empty<R: Files>(rt: &R) -> Option<R::File> {
    fs::open(rt, "/dev/null").ok()
}

impl<R: Files + Drop> HostFolder<R> {
    /// No file of the folder is open. It holds the descriptors of the standard streams where these are free, so that no file
    /// takes one. It takes no memory.
    pub fn new(rt: R) -> HostFolder<R>
        ensures reading { (⟦<HostFolder<R> as Folder>⟧.state result).reading ≡ None }
        ensures writing { (⟦<HostFolder<R> as Folder>⟧.state result).writing ≡ None }
        ensures begun { (⟦<HostFolder<R> as Folder>⟧.state result).begun ≡ 0 }
        ensures reads { (⟦<HostFolder<R> as Folder>⟧.state result).reads ≡ 0 }
        ensures read_faults { (⟦<HostFolder<R> as Folder>⟧.state result).read_faults ≡ 0 }
        ensures write_faults { (⟦<HostFolder<R> as Folder>⟧.state result).write_faults ≡ 0 }
    {
        let standard = Standard {
            first: open_empty(&rt),
            second: open_empty(&rt),
            third: open_empty(&rt),
        };
        HostFolder {
            rt,
            reading: None,
            writing: None,
            begun: 0,
            reads: 0,
            read_faults: 0,
            write_faults: 0,
            standard,
        }
    }
}

impl<R: Files + Drop> Folder for HostFolder<R> {
    ghost state = { λ f. record { files = None; reading = some_reading f.reading; writing = some_writing f.writing; begun = f.begun; missed = 0; reads = f.reads; read_faults = f.read_faults; write_faults = f.write_faults } };

    ghost use Rattle.std.specs.Prelude.{refl};

    ghost unknown = { λ _ _. refl };

    fn begin(&mut self, name: &str) -> Result<(), Trouble> {
        self.begun = self.begun.saturating_add(1);
        self.reading = None;
        let opened = fs::open(&self.rt, name).map_err(trouble_of);
        self.reading = Some(counted(&mut self.read_faults, opened)?);
        Ok(())
    }

    fn read(&mut self, buf: &mut [u8]) -> Result<usize, Trouble>
        requires room { 0 < length buf.old }
        requires begun { IsSome (some_reading self.old.reading) }
        ensures reads { Reads None (some_reading self.old.reading) buf.old buf.new result (some_reading self.new.reading) }
        ensures bytes { ReadsFile R.File.remaining self.old.reading self.new.reading buf.new result }
        ensures writing { self.new.writing ≡ self.old.writing }
        ensures begun { self.new.begun ≡ self.old.begun }
        ensures counted { self.new.reads ≡ one_more self.old.reads }
        ensures cause { HasCause self.old.read_faults self.new.read_faults result }
        ensures write_faults { self.new.write_faults ≡ self.old.write_faults }
    {
        self.reads = self.reads.saturating_add(1);
        counted(&mut self.read_faults, read_open(&mut self.reading, buf))
    }

    fn create(&mut self, name: &str) -> Result<(), Trouble> {
        self.writing = None;
        let made = fs::create(&self.rt, name).map_err(trouble_of);
        self.writing = Some(counted(&mut self.write_faults, made)?);
        Ok(())
    }

    fn put(&mut self, bytes: &[u8]) -> Result<(), Trouble>
        requires { IsSome (some_writing self.old.writing) }
        ensures puts { Puts None (some_writing self.old.writing) bytes.now result None (some_writing self.new.writing) }
        ensures bytes { PutsFile R.File.contents self.old.writing self.new.writing bytes.now result }
        ensures begun { self.new.begun ≡ self.old.begun }
        ensures counted { self.new.reads ≡ self.old.reads }
        ensures cause { HasCause self.old.write_faults self.new.write_faults result }
        ensures read_faults { self.new.read_faults ≡ self.old.read_faults }
    {
        counted(&mut self.write_faults, put_open(&mut self.writing, bytes))
    }
}

// Reads on in the open file, which is closed at an error.
fn read_open<F: Read + Drop>(held: &mut Option<F>, buf: &mut [u8]) -> Result<usize, Trouble>
    requires { IsSome (some_reading held.old) }
    ensures reads { Reads None (some_reading held.old) buf.old buf.new result (some_reading held.new) }
    ensures bytes { ReadsFile F.remaining held.old held.new buf.new result }
{
    let mut file = held.take().unwrap();
    let n = read_some(&mut file, buf)?;
    *held = Some(file);
    Ok(n)
}

// Writes on in the open file, which is closed at an error.
fn put_open<F: Write + Drop>(held: &mut Option<F>, bytes: &[u8]) -> Result<(), Trouble>
    requires { IsSome (some_writing held.old) }
    ensures puts { Puts None (some_writing held.old) bytes.now result None (some_writing held.new) }
    ensures bytes { PutsFile F.contents held.old held.new bytes.now result }
{
    let mut file = held.take().unwrap();
    write_whole(&mut file, bytes)?;
    *held = Some(file);
    Ok(())
}

/// Standard output.
#[derive(Drop)]
pub struct StdSink<R: Print> {
    sink: WriterSink<Printer<R>>,
}

impl<R: Print + Drop> StdSink<R> {
    /// It takes no memory.
    pub fn new(rt: R) -> StdSink<R>
        ensures { (⟦<StdSink<R> as Sink>⟧.state result).faults ≡ 0 }
    {
        StdSink {
            sink: WriterSink {
                to: Printer { rt },
                faults: 0,
            },
        }
    }
}

impl<R: Print + Drop> Sink for StdSink<R> {
    ghost state = { λ s. record { written = None; faults = s.sink.faults } };

    fn put(&mut self, bytes: &[u8]) -> Result<(), Trouble> {
        self.sink.put(bytes)
    }
}

/// Writes on standard output.
#[derive(Drop)]
struct Printer<R: Print> {
    rt: R,
}

impl<R: Print> Write for Printer<R> {
    fn write(&mut self, buf: &[u8]) -> io::Result<usize> {
        io::writer(&self.rt).write(buf)
    }

    fn flush(&mut self) -> io::Result<()> {
        Ok(())
    }
}

/// A sink over a writer.
#[derive(Drop)]
struct WriterSink<W: Write> {
    to: W,
    faults: u64,
}

impl<W: Write + Drop> Sink for WriterSink<W> {
    ghost state = { λ s. record { written = None; faults = s.faults } };

    fn put(&mut self, bytes: &[u8]) -> Result<(), Trouble>
        ensures gets { Gets None None bytes.now result }
        ensures bytes { Gets (W.contents self.old.to) (W.contents self.new.to) bytes.now result }
        ensures cause { HasCause self.old.faults self.new.faults result }
    {
        counted(&mut self.faults, write_whole(&mut self.to, bytes))
    }
}

fn trouble_of(error: io::Error) -> Trouble
    ensures { result ≡ Trouble.Memory ↔ (error_kind error ≡ ErrorKind.OutOfMemory) }
{
    match error.kind() {
        ErrorKind::OutOfMemory => Trouble::Memory,
        _ => Trouble::Failed,
    }
}

// One read, which is tried again where a signal interrupts it.
fn read_some<F: Read>(from: &mut F, buf: &mut [u8]) -> Result<usize, Trouble>
    ensures room { ReadsAtMost result buf.new }
    ensures bytes { ReadConsumes (F.remaining from.old) (F.remaining from.new) result buf.new }
{
    for _ in 0..u64::MAX {
        match from.read(buf) {
            Ok(n) => return Ok(n),
            Err(error) if error.kind() == ErrorKind::Interrupted => {}
            Err(error) => return Err(trouble_of(error)),
        }
    }
    Err(Trouble::Failed)
}

// One write, which is tried again where a signal interrupts it. A write of nothing is a fault.
fn write_some<F: Write>(to: &mut F, bytes: &[u8]) -> Result<usize, Trouble>
    requires { 0 < length bytes.now }
    ensures some { IfOk result (λ n. (0 < n) × (n ≤ length bytes.now)) }
    ensures bytes { WriteAppends (F.contents to.old) (F.contents to.new) result bytes.now }
{
    for _ in 0..u64::MAX {
        match to.write(bytes) {
            Ok(0) => return Err(Trouble::Failed),
            Ok(n) => return Ok(n),
            Err(error) if error.kind() == ErrorKind::Interrupted => {}
            Err(error) => return Err(trouble_of(error)),
        }
    }
    Err(Trouble::Failed)
}

fn write_whole<F: Write>(to: &mut F, bytes: &[u8]) -> Result<(), Trouble>
    ensures { Gets (F.contents to.old) (F.contents to.new) bytes.now result }
{
    let mut rest = bytes;
    while !rest.is_empty() {
        let n = write_some(to, rest)?;
        rest = &rest[n..];
    }
    Ok(())
}
