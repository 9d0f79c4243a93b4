//! The adapters over real files.

use super::counted_files::{CountedFiles, Counts, told};
use crate::{DiskLibrary, DiskShelf, Library, Shelf};
use std::alloc::{AllocError, Global};
use std::os::fd::AsRawFd;
use std::process::Abort;
use std::rt::Files;
use std::test::Fail;
use std::{fs, io};

/// A call of a shelf.
#[derive(Clone, Copy)]
enum Step<'a> {
    Create(&'a str),
    Append(&'a str, &'a [u8]),
    Patch(&'a str, u64, &'a [u8]),
    Finish(&'a str),
}

/// Makes calls one after the other. What fails is counted by the shelf.
fn make<R: Files>(shelf: &mut DiskShelf<'_, R>, calls: &[Step<'_>]) {
    for call in calls {
        let _ = match call {
            Step::Create(name) => shelf.create(name),
            Step::Append(name, bytes) => shelf.append(name, bytes),
            Step::Patch(name, off, bytes) => shelf.patch(name, *off, bytes),
            Step::Finish(name) => shelf.finish(name),
        };
    }
}

/// Whether a file has this size, and a read from this place on gives these bytes.
fn has<L: Library>(library: &mut L, name: &str, size: u64, off: u64, bytes: &[u8]) -> bool {
    if library.size(name) != Ok(size) {
        return false;
    }
    let mut buf = [0; 32];
    match library.read_at(name, off, &mut buf) {
        Ok(count) => &buf[..count] == bytes,
        Err(_) => false,
    }
}

/// Whether each call fails at this name.
fn fails<R: Files>(rt: &R, name: &str) -> bool {
    let mut library = DiskLibrary::new(rt);
    library.size(name).is_err() && library.read_at(name, 0, &mut [0; 2]).is_err()
}

/// A name that isn't there and a folder that isn't, at which the two failing calls come; a file that is found and goes on at
/// its end; one that is created while it is open, and one after it was finished.
const CALLS: [Step<'static>; 21] = [
    Step::Create("one"),
    Step::Append("one", b"abcdefgh"),
    Step::Append("three", b"z"),
    Step::Create("no/folder"),
    Step::Finish("one"),
    Step::Create("two"),
    Step::Append("two", b"xyz"),
    Step::Append("one", b"ij"),
    Step::Patch("one", 2, b"CDE"),
    Step::Append("one", b"k"),
    Step::Finish("one"),
    Step::Append("two", b""),
    Step::Create("open"),
    Step::Append("open", b"long text"),
    Step::Create("open"),
    Step::Append("open", b"a"),
    Step::Finish("open"),
    Step::Create("done"),
    Step::Append("done", b"long text"),
    Step::Finish("done"),
    Step::Create("done"),
];

/// How two shelves begin one file, and how each goes on with it.
const BEGIN: [Step<'static>; 2] = [Step::Create("same"), Step::Append("same", b"head")];

const FIRST: [Step<'static>; 2] = [Step::Append("same", b"rest"), Step::Append("same", b"more")];

const SECOND: [Step<'static>; 3] = [
    Step::Append("same", b"last"),
    Step::Patch("same", 0, b"H"),
    Step::Append("same", b"!"),
];

/// Makes these calls by turns, and tells how many failed.
fn write_all<R: Files>(first: &mut DiskShelf<'_, R>, second: &mut DiskShelf<'_, R>) -> u64 {
    make(first, &CALLS);
    make(first, &BEGIN);
    make(second, &BEGIN);
    make(first, &FIRST);
    make(second, &SECOND);
    first.faults().saturating_add(second.faults())
}

/// Whether the files then hold what was written, and names that are no files fail.
fn holds_all<R: Files>(rt: &R, pipe: &str) -> bool {
    let mut library = DiskLibrary::new(rt);
    has(&mut library, "one", 11, 0, b"abCDEfghijk")
        && has(&mut library, "two", 3, 0, b"xyz")
        && has(&mut library, "open", 1, 0, b"a")
        && has(&mut library, "done", 0, 0, b"")
        && has(&mut library, "same", 12, 0, b"Headlast!ore")
        && fails(rt, "three")
        && fails(rt, ".")
        && fails(rt, pipe)
}

#[test]
fn real_files_are_written_and_read_back(rt: HostRuntime) -> Result<(), Fail> {
    let alloc = rt.alloc();
    let mut first = DiskShelf::new(alloc, &rt)?;
    let mut second = DiskShelf::new(alloc, &rt)?;
    assert_eq!(rt; write_all(&mut first, &mut second), 2);
    let (reader, _writer) = io::pipe(&rt)?;
    let pipe = format!(in alloc; "/proc/self/fd/{}", reader.as_raw_fd())?;
    assert!(rt; holds_all(&rt, &pipe));
    assert!(rt; first.append(&pipe, b"a").is_err());
    Ok(())
}

/// Begins a file of this number.
fn begin<R: Files>(
    alloc: Global,
    shelf: &mut DiskShelf<'_, R>,
    number: u32,
) -> Result<(), AllocError> {
    let name = format!(in alloc; "file{number}")?;
    make(shelf, &[Step::Create(&name), Step::Append(&name, b"head")]);
    Ok(())
}

/// Goes on with it, and finishes it.
fn go_on<R: Files>(
    alloc: Global,
    shelf: &mut DiskShelf<'_, R>,
    number: u32,
) -> Result<(), AllocError> {
    let name = format!(in alloc; "file{number}")?;
    let calls = [
        Step::Append(&name, b"rest"),
        Step::Append(&name, b"more"),
        Step::Finish(&name),
    ];
    make(shelf, &calls);
    Ok(())
}

/// Whether the files hold what was written, read where every other call is interrupted.
fn hold_many<R: Files>(rt: &R) -> bool {
    let mut library = DiskLibrary::new(rt);
    has(&mut library, "file0", 12, 9, b"ore")
        && has(&mut library, "file69", 12, 4, b"res")
        && has(&mut library, "file3", 25, 9, b"ore")
        && has(&mut library, "file3", 25, 22, b"add")
}

#[test]
fn many_files_are_written_by_turns_with_64_open(rt: HostRuntime) -> Result<(), Fail> {
    let alloc = rt.alloc();
    let counts = Counts::new();
    let files = CountedFiles {
        rt: &rt,
        counts: &counts,
    };
    let mut shelf = DiskShelf::new(alloc, &files)?;
    for number in 0..70 {
        begin(alloc, &mut shelf, number)?;
    }
    assert_eq!(rt; told(&counts), [70, 0, 6, 64, 64]);
    fs::write(&rt, "file3", "head, and what others add")?;
    for number in 0..70 {
        go_on(alloc, &mut shelf, number)?;
    }
    assert_eq!(rt; told(&counts), [77, 7, 71, 0, 64]);
    assert_eq!(rt; shelf.faults(), 0);
    assert!(rt; hold_many(&files));
    Ok(())
}
