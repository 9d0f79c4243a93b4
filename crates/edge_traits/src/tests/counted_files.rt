//! Real files whose calls are counted and cut short.

use std::alloc::Allocator;
use std::fs::{Metadata, OpenFile, OpenOptions};
use std::io;
use std::io::{ErrorKind, Read, Seek, SeekFrom, Write};
use std::rt::Files;
use std::sync::atomic::{AtomicU64, Ordering};

/// How often each call was made, a move being a read or a write, and how many files are open.
#[derive(Drop)]
pub struct Counts {
    pub moves: AtomicU64,
    pub seeks: AtomicU64,
    pub syncs: AtomicU64,
    pub opens: AtomicU64,
    pub open: AtomicU64,
    pub most_open: AtomicU64,
}

impl Counts {
    pub fn new() -> Counts {
        Counts {
            moves: AtomicU64::new(0),
            seeks: AtomicU64::new(0),
            syncs: AtomicU64::new(0),
            opens: AtomicU64::new(0),
            open: AtomicU64::new(0),
            most_open: AtomicU64::new(0),
        }
    }
}

/// The value of a count.
fn value(count: &AtomicU64) -> u64 {
    count.load(Ordering::SeqCst)
}

/// How many files were opened, sought in and made sure of, how many are open, and how many were at most.
pub fn told(counts: &Counts) -> [u64; 5] {
    [
        value(&counts.opens),
        value(&counts.seeks),
        value(&counts.syncs),
        value(&counts.open),
        value(&counts.most_open),
    ]
}

/// One more.
fn add(count: &AtomicU64) -> u64 {
    count.fetch_add(1, Ordering::SeqCst)
}

/// The files of a system, whose every other read and write is interrupted, and of which the
/// others move at most three bytes.
#[derive(Drop)]
pub struct CountedFiles<'a, R: Files> {
    pub rt: &'a R,
    pub counts: &'a Counts,
}

/// An open file of them.
pub struct CountedFile<'a, F: Drop> {
    file: F,
    counts: &'a Counts,
}

impl<'a, F: Drop> Drop for CountedFile<'a, F> {
    fn drop(self) {
        let Self { file, counts } = self;
        counts.open.fetch_sub(1, Ordering::SeqCst);
        drop(file);
    }
}

impl<'a, F: Read + Drop> Read for CountedFile<'a, F> {
    fn read(&mut self, buf: &mut [u8]) -> io::Result<usize> {
        if add(&self.counts.moves) % 2 == 0 {
            return Err(io::Error::from(ErrorKind::Interrupted));
        }
        let most = buf.len().min(3);
        self.file.read(&mut buf[..most])
    }
}

impl<'a, F: Write + Drop> Write for CountedFile<'a, F> {
    fn write(&mut self, buf: &[u8]) -> io::Result<usize> {
        if add(&self.counts.moves) % 2 == 0 {
            return Err(io::Error::from(ErrorKind::Interrupted));
        }
        self.file.write(&buf[..buf.len().min(3)])
    }

    fn flush(&mut self) -> io::Result<()> {
        self.file.flush()
    }
}

impl<'a, F: Seek + Drop> Seek for CountedFile<'a, F> {
    fn seek(&mut self, to: SeekFrom) -> io::Result<u64> {
        add(&self.counts.seeks);
        self.file.seek(to)
    }
}

impl<'a, F: OpenFile + Drop> OpenFile for CountedFile<'a, F> {
    fn metadata(&self) -> io::Result<Metadata> {
        self.file.metadata()
    }

    fn set_len(&self, size: u64) -> io::Result<()> {
        self.file.set_len(size)
    }

    fn sync_all(&self) -> io::Result<()> {
        add(&self.counts.syncs);
        self.file.sync_all()
    }

    fn sync_data(&self) -> io::Result<()> {
        self.file.sync_data()
    }
}

impl<'a, R: Files> Files for CountedFiles<'a, R> {
    type File = CountedFile<'a, R::File>;

    type Dir = R::Dir;

    fn open_file(&self, how: &OpenOptions, path: &str) -> io::Result<CountedFile<'a, R::File>> {
        let file = self.rt.open_file(how, path)?;
        add(&self.counts.opens);
        let open = add(&self.counts.open);
        if open >= value(&self.counts.most_open) {
            self.counts
                .most_open
                .store(open.saturating_add(1), Ordering::SeqCst);
        }
        let counts = self.counts;
        Ok(CountedFile { file, counts })
    }

    fn open_dir(&self, path: &str) -> io::Result<R::Dir> {
        self.rt.open_dir(path)
    }

    fn metadata(&self, path: &str) -> io::Result<Metadata> {
        self.rt.metadata(path)
    }

    fn symlink_metadata(&self, path: &str) -> io::Result<Metadata> {
        self.rt.symlink_metadata(path)
    }

    fn copy(&self, from: &str, to: &str) -> io::Result<u64> {
        self.rt.copy(from, to)
    }

    fn rename(&self, from: &str, to: &str) -> io::Result<()> {
        self.rt.rename(from, to)
    }

    fn remove_file(&self, path: &str) -> io::Result<()> {
        self.rt.remove_file(path)
    }

    fn create_dir(&self, path: &str) -> io::Result<()> {
        self.rt.create_dir(path)
    }

    fn remove_dir(&self, path: &str) -> io::Result<()> {
        self.rt.remove_dir(path)
    }

    fn remove_dir_all<B: Allocator>(&self, alloc: B, path: &str) -> io::Result<()> {
        self.rt.remove_dir_all(alloc, path)
    }
}
