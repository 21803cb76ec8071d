//! Tests of the real folder and of standard output over a runtime whose reads and writes are short, interrupted and failing.

ghost use Rattle.std.specs.Io.{WritesAtMost};

use book_outer::{Folder, HostFolder, Sink, StdSink, Trouble};
use std::alloc::Allocator;
use std::cell::Cell;
use std::fmt::Display;
use std::fs::{Metadata, OpenFile, OpenOptions};
use std::io;
use std::io::{ErrorKind, Read, Seek, SeekFrom, Write};
use std::rc::Rc;
use std::rt::Files;
use std::test::Fail;

/// A runtime, or a file of it. All share the number of the last read or write, and their count says how many are open.
#[derive(Drop)]
struct Stuttering {
    calls: Rc<Cell<u8>>,
}

impl Stuttering {
    fn next_call(&self) -> u8 {
        let number = self.calls.get().saturating_add(1);
        self.calls.set(number);
        number
    }

    /// Takes three bytes. The second write is interrupted, the fourth takes nothing, and the fifth wants memory.
    fn took(&self, bytes: &[u8]) -> io::Result<usize>
        ensures { WritesAtMost result bytes.now }
    {
        match self.next_call() {
            2 => Err(io::Error::from(ErrorKind::Interrupted)),
            4 => Ok(0),
            5 => Err(io::Error::from(ErrorKind::OutOfMemory)),
            _ => Ok(bytes.len().min(3)),
        }
    }
}

fn unsupported<T>() -> io::Result<T> {
    Err(io::Error::from(ErrorKind::Unsupported))
}

impl Read for Stuttering {
    /// Gives two bytes. The second read is interrupted, the fourth fails, the fifth wants memory, and the sixth is at the end.
    fn read(&mut self, buf: &mut [u8]) -> io::Result<usize> {
        match self.next_call() {
            2 => Err(io::Error::from(ErrorKind::Interrupted)),
            4 => Err(io::Error::from(ErrorKind::PermissionDenied)),
            5 => Err(io::Error::from(ErrorKind::OutOfMemory)),
            6 => Ok(0),
            _ => Ok(buf.len().min(2)),
        }
    }
}

impl Write for Stuttering {
    fn write(&mut self, buf: &[u8]) -> io::Result<usize> {
        self.took(buf)
    }

    fn flush(&mut self) -> io::Result<()> {
        Ok(())
    }
}

impl Print for Stuttering {
    fn print<D: Display + Drop>(&self, _value: D) -> io::Result<()> {
        unsupported()
    }

    fn println<D: Display + Drop>(&self, _value: D) -> io::Result<()> {
        unsupported()
    }

    fn write_all(&self, _bytes: &[u8]) -> io::Result<()> {
        unsupported()
    }

    fn write_some(&self, bytes: &[u8]) -> io::Result<usize> {
        self.took(bytes)
    }
}

impl Seek for Stuttering {
    fn seek(&mut self, _to: SeekFrom) -> io::Result<u64> {
        unsupported()
    }
}

impl OpenFile for Stuttering {
    fn metadata(&self) -> io::Result<Metadata> {
        unsupported()
    }

    fn set_len(&self, _size: u64) -> io::Result<()> {
        unsupported()
    }

    fn sync_all(&self) -> io::Result<()> {
        unsupported()
    }

    fn sync_data(&self) -> io::Result<()> {
        unsupported()
    }
}

impl Files for Stuttering {
    type File = Stuttering;

    type Dir = Stuttering;

    fn open_file(&self, _how: &OpenOptions, _path: &str) -> io::Result<Stuttering> {
        Ok(Stuttering {
            calls: self.calls.clone()?,
        })
    }

    fn open_dir(&self, _path: &str) -> io::Result<Stuttering> {
        unsupported()
    }

    fn metadata(&self, _path: &str) -> io::Result<Metadata> {
        unsupported()
    }

    fn symlink_metadata(&self, _path: &str) -> io::Result<Metadata> {
        unsupported()
    }

    fn copy(&self, _from: &str, _to: &str) -> io::Result<u64> {
        unsupported()
    }

    fn rename(&self, _from: &str, _to: &str) -> io::Result<()> {
        unsupported()
    }

    fn remove_file(&self, _path: &str) -> io::Result<()> {
        unsupported()
    }

    fn create_dir(&self, _path: &str) -> io::Result<()> {
        unsupported()
    }

    fn remove_dir(&self, _path: &str) -> io::Result<()> {
        unsupported()
    }

    fn remove_dir_all<B: Allocator>(&self, _alloc: B, _path: &str) -> io::Result<()> {
        unsupported()
    }
}

/// A read's answer, the number of the last read, and how many share it: this test, the folder, the three files that it holds, and
/// one that is open. A file is opened anew where the one before was closed.
const READS: &[(Result<usize, Trouble>, u8, usize)] = &[
    (Ok(2), 1, 6),
    (Ok(2), 3, 6),
    (Err(Trouble::Failed), 4, 5),
    (Err(Trouble::Memory), 5, 5),
    (Ok(0), 6, 6),
];

#[test]
fn reads_are_tried_again_until_a_fault(rt: HostRuntime) -> Result<(), Fail> {
    let calls = Rc::new(rt.alloc(), Cell::new(0))?;
    let mut folder = HostFolder::new(Stuttering {
        calls: calls.clone()?,
    });
    let mut buf = [0; 8];
    for (answer, last, open) in READS {
        folder.begin("a")?;
        assert!(rt; folder.read(&mut buf) == *answer, "call {last}");
        assert_eq!(rt; (calls.get(), Rc::strong_count(&calls)), (*last, *open));
    }
    Ok(())
}

/// What is put into a file in pieces of three bytes. One that answers an error is closed.
const PUTS: &[(&[u8], Result<(), Trouble>, u8, usize)] = &[
    (b"six of", Ok(()), 3, 6),
    (b"six", Err(Trouble::Failed), 4, 5),
    (b"six", Err(Trouble::Memory), 5, 5),
];

#[test]
fn pieces_are_put_until_a_fault(rt: HostRuntime) -> Result<(), Fail> {
    let calls = Rc::new(rt.alloc(), Cell::new(0))?;
    let mut folder = HostFolder::new(Stuttering {
        calls: calls.clone()?,
    });
    for (bytes, answer, last, open) in PUTS {
        folder.create("a")?;
        assert!(rt; folder.put(bytes) == *answer, "call {last}");
        assert_eq!(rt; (calls.get(), Rc::strong_count(&calls)), (*last, *open));
    }
    Ok(())
}

#[test]
fn pieces_are_printed_until_a_fault(rt: HostRuntime) -> Result<(), Fail> {
    let calls = Rc::new(rt.alloc(), Cell::new(0))?;
    let mut sink = StdSink::new(Stuttering {
        calls: calls.clone()?,
    });
    for (bytes, answer, last, _) in PUTS {
        assert!(rt; sink.put(bytes) == *answer, "call {last}");
        assert_eq!(rt; calls.get(), *last);
    }
    Ok(())
}
