//! Tests of what is loaded and of what is written.

use crate::outer::{only, two_files};
use book_files::{LoadError, MOST_BYTES, Name, Orient, PlaceLine, load, write_pl};
use book_outer::{CalmFolder, Folder, HostFolder, MemFolder};
use book_text::Micro;
use std::alloc::Global;
use std::fs;
use std::test::Fail;

/// Whether the file is loaded with these bytes, or refused so.
fn is_answered<F: Folder>(
    alloc: Global,
    folder: &mut F,
    name: &str,
    expected: Result<&[u8], LoadError>,
) -> bool {
    match (load(alloc, folder, name), expected) {
        (Ok(bytes), Ok(expected)) => bytes.as_slice() == expected,
        (Err(error), Err(expected)) => error == expected,
        _ => false,
    }
}

#[test]
fn whole_files_are_loaded(rt: HostRuntime) -> Result<(), Fail> {
    let mut folder = CalmFolder::new(two_files(rt.alloc())?);
    assert!(rt; is_answered(rt.alloc(), &mut folder, "a", Ok(b"twelve bytes")));
    folder.create("c")?;
    assert!(rt; is_answered(rt.alloc(), &mut folder, "c", Ok(b"")));
    assert!(rt; is_answered(rt.alloc(), &mut folder, "d", Err(LoadError::ReadFault)));
    Ok(())
}

#[test]
fn a_read_that_fails_is_named(rt: HostRuntime) -> Result<(), Fail> {
    let mut folder = MemFolder::new(two_files(rt.alloc())?, only(rt.alloc(), 3)?);
    assert!(rt; is_answered(rt.alloc(), &mut folder, "a", Err(LoadError::ReadFault)));
    assert!(rt; is_answered(rt.alloc(), &mut folder, "a", Ok(b"twelve bytes")));
    Ok(())
}

#[test]
fn a_file_has_at_most_so_many_bytes(rt: HostRuntime) -> Result<(), Fail> {
    let name = "book_files_long.test";
    let file = fs::create(&rt, name)?;
    for (bytes, expected) in [
        (MOST_BYTES, Ok(MOST_BYTES)),
        (MOST_BYTES + 1, Err(LoadError::TooLong)),
    ] {
        file.set_len(bytes as u64)?;
        let loaded = load(rt.alloc(), &mut HostFolder::new(rt), name);
        assert!(rt; loaded.map(|text| text.len()) == expected, "{bytes} bytes");
    }
    fs::remove_file(&rt, name)?;
    Ok(())
}

/// Lines of a placement, and the text that is written of them.
const WRITTEN: &[(&[PlaceLine<'static>], &[u8])] = &[
    (&[], b"UCLA pl 1.0\n"),
    (
        &[
            PlaceLine {
                line: 0,
                name: Name(b"u"),
                x: Micro(-500_000),
                y: Micro(12_000_000),
                orient: Orient::N,
                fixed: false,
                overlap: false,
            },
            PlaceLine {
                line: 0,
                name: Name(b"m:1"),
                x: Micro(14_000_001),
                y: Micro(0),
                orient: Orient::FS,
                fixed: true,
                overlap: false,
            },
            PlaceLine {
                line: 0,
                name: Name(b"n"),
                x: Micro(0),
                y: Micro(0),
                orient: Orient::W,
                fixed: true,
                overlap: true,
            },
        ],
        b"UCLA pl 1.0\nu -0.5 12 : N\nm:1 14.000001 0 : FS /FIXED\nn 0 0 : W /FIXED_NI\n",
    ),
];

#[test]
fn placements_are_written(rt: HostRuntime) -> Result<(), Fail> {
    for (lines, expected) in WRITTEN {
        assert!(rt; write_pl(rt.alloc(), lines)?.as_slice() == *expected);
    }
    Ok(())
}
