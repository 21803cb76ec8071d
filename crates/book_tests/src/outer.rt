//! Tests of folders and sinks in memory, and of the real ones.

ghost use Rattle.std.specs.Prelude.{◌<◌, length, IfOk};
ghost use Rattle.book_outer.specs.Files.{AreNamesDistinct};

use book_outer::{
    Calls, CalmFolder, CalmSink, Files, Folder, HostFolder, MemFolder, MemSink, Sink, StdSink,
    Trouble, Words,
};
use book_text::Memory;
use std::alloc::Global;
use std::fs;
use std::test::Fail;

const TWELVE: &[u8] = b"twelve bytes";

/// Two files, named `a` and `b`.
pub(crate) fn two_files(alloc: Global) -> Result<Files, Memory>
    ensures { IfOk result AreNamesDistinct }
{
    let mut files = Files::new(alloc);
    files.push("a", TWELVE)?;
    files.push("b", b"old")?;
    Ok(files)
}

/// The number of the one call that fails.
pub(crate) fn only(alloc: Global, number: u64) -> Result<Calls, Memory> {
    let mut calls = Calls::new(alloc);
    calls.push(number)?;
    Ok(calls)
}

/// Reads a file in pieces.
fn whole<F: Folder>(
    alloc: Global,
    folder: &mut F,
    name: &str,
    piece: &mut [u8],
) -> Result<Vec<u8>, Trouble>
    requires { 0 < length piece.old }
{
    let mut bytes = Vec::new(alloc);
    folder.begin(name)?;
    for _ in 0..100 {
        let n = folder.read(piece)?;
        if n == 0 {
            break;
        }
        bytes.extend_from_slice(&piece[..n])?;
    }
    Ok(bytes)
}

/// Makes a file in two pieces.
fn make_file<F: Folder>(folder: &mut F, name: &str) -> Result<(), Trouble> {
    folder.create(name)?;
    folder.put(b"one ")?;
    folder.put(b"two")
}

/// Reads a little of `a`, and writes `b` anew.
fn four_calls<F: Folder>(folder: &mut F) -> Result<(), Trouble> {
    let mut buf = [0; 4];
    folder.begin("a")?;
    folder.read(&mut buf)?;
    folder.create("b")?;
    folder.put(b"new")
}

/// Whether four calls, of which that one is to fail, answer so and leave these bytes in `b`.
fn is_left(
    alloc: Global,
    number: u64,
    answer: Result<(), Trouble>,
    held: &[u8],
) -> Result<bool, Memory> {
    let mut folder = MemFolder::new(two_files(alloc)?, only(alloc, number)?);
    let is_answer = four_calls(&mut folder) == answer;
    Ok(is_answer && folder.file("b") == Some(held) && folder.file("a") == Some(TWELVE))
}

/// Whether `a` is read whole in pieces of that size, and there is no `c`.
fn is_read<F: Folder>(alloc: Global, folder: &mut F, size: usize) -> Result<bool, Trouble>
    requires some { 0 < size }
    requires room { size < 17 }
{
    let mut room = [0; 16];
    let bytes = whole(alloc, folder, "a", &mut room[..size])?;
    Ok(bytes.as_slice() == TWELVE && folder.begin("c") == Err(Trouble::Failed))
}

#[test]
fn files_are_read_in_pieces(rt: HostRuntime) -> Result<(), Fail> {
    let alloc = rt.alloc();
    let mut memory = MemFolder::new(two_files(alloc)?, Calls::new(alloc));
    let mut calm = CalmFolder::new(two_files(alloc)?);
    for size in [1, 5, 12, 16] {
        assert!(rt; is_read(alloc, &mut memory, size)?, "{size} at once");
        assert!(rt; is_read(alloc, &mut calm, size)?, "{size} at once");
    }
    Ok(())
}

#[test]
fn a_created_file_grows(rt: HostRuntime) -> Result<(), Fail> {
    let mut folder = CalmFolder::new(two_files(rt.alloc())?);
    for name in ["b", "c"] {
        make_file(&mut folder, name)?;
        assert!(rt; folder.file(name) == Some(b"one two"));
    }
    assert!(rt; folder.file("a") == Some(TWELVE));
    assert!(rt; folder.file("d").is_none());
    Ok(())
}

/// Which of four calls fails, and what `b` holds afterwards.
const FAILING: &[(u64, Result<(), Trouble>, &[u8])] = &[
    (1, Err(Trouble::Failed), b"old"),
    (2, Err(Trouble::Failed), b"old"),
    (3, Err(Trouble::Failed), b"old"),
    (4, Err(Trouble::Failed), b""),
    (5, Ok(()), b"new"),
];

#[test]
fn one_call_fails(rt: HostRuntime) -> Result<(), Fail> {
    for (number, answer, held) in FAILING {
        assert!(rt;
            is_left(rt.alloc(), *number, *answer, held)?,
            "call {number}"
        );
    }
    Ok(())
}

#[test]
fn words_keep_their_order(rt: HostRuntime) -> Result<(), Fail> {
    let mut words = Words::new(rt.alloc());
    words.push("proud")?;
    words.push("--levels")?;
    assert_eq!(rt; words.len(), 2);
    assert_eq!(rt; words.word(0), "proud");
    assert_eq!(rt; words.word(1), "--levels");
    Ok(())
}

#[test]
fn sinks_hold_what_was_put(rt: HostRuntime) -> Result<(), Fail> {
    let alloc = rt.alloc();
    let mut memory = MemSink::new(alloc, only(alloc, 2)?);
    let mut calm = CalmSink::new(alloc);
    for number in 1..4 {
        let answer = memory.put(b"ab");
        assert!(rt; answer.is_err() == (number == 2));
        calm.put(b"cd")?;
    }
    assert!(rt; memory.written() == b"abab".as_slice());
    assert!(rt; calm.written() == b"cdcdcd".as_slice());
    Ok(())
}

#[test]
fn a_long_real_file_is_read_back(rt: HostRuntime) -> Result<(), Fail> {
    let name = "book_outer.test";
    let long = vec![in rt.alloc(); b'x'; 100_000]?;
    let mut folder = HostFolder::new(rt);
    folder.create(name)?;
    folder.put(&long)?;
    let bytes = whole(rt.alloc(), &mut folder, name, &mut [0; 4_096])?;
    fs::remove_file(&rt, name)?;
    assert!(rt; bytes.as_slice() == long.as_slice());
    assert!(rt; folder.begin(name) == Err(Trouble::Failed));
    assert!(rt; folder.create("no folder/of this name") == Err(Trouble::Failed));
    StdSink::new(rt).put(b"to standard output")?;
    Ok(())
}

#[test]
fn a_folder_is_not_read_as_a_file(rt: HostRuntime) -> Result<(), Fail> {
    let name = "book_outer_folder.test";
    fs::create_dir(&rt, name)?;
    let mut folder = HostFolder::new(rt);
    let mut buf = [0; 8];
    let answer = match folder.begin(name) {
        Ok(()) => folder.read(&mut buf).map(|_| ()),
        Err(trouble) => Err(trouble),
    };
    fs::remove_dir(&rt, name)?;
    assert!(rt; answer == Err(Trouble::Failed));
    Ok(())
}

#[test]
fn a_blank_is_part_of_a_name(rt: HostRuntime) -> Result<(), Fail> {
    let (name, other) = ("book_outer_blank.test ", "book_outer_blank.test");
    let mut folder = HostFolder::new(rt);
    make_file(&mut folder, name)?;
    assert!(rt; folder.begin(other) == Err(Trouble::Failed));
    let bytes = whole(rt.alloc(), &mut folder, name, &mut [0; 3])?;
    assert!(rt; bytes.as_slice() == b"one two".as_slice());
    fs::remove_file(&rt, name)?;
    fs::write(&rt, other, b"another")?;
    let answer = folder.begin(name);
    fs::remove_file(&rt, other)?;
    assert!(rt; answer == Err(Trouble::Failed));
    Ok(())
}
