//! Real files and standard output. What they hold is not told; what a call does to an open file is,
//! as far as the file tells it.

mod begun_file;
mod file_table;
mod interrupted;
mod kept_file;
mod library;
mod shelf;
mod sink;

ghost use Rattle.edge_traits.specs.Faults.{Rose, Counts};
ghost use Rattle.edge_traits.specs.RealFiles.{file_named};
ghost use Rattle.std.specs.Prelude.{◌≡◌, ◌≤◌, length, IfSome, IfOk, OnOk};
ghost use Rattle.std.specs.Result.{result_ok};

use crate::Failed;
use kept_file::{KeptFile, NAME_LIMIT};
pub use library::DiskLibrary;
pub use shelf::DiskShelf;
pub use sink::OutSink;
use std::fs::{OpenFile, OpenOptions};
use std::io::ErrorKind;
use std::os::unix::fs::FileTypeExt;
use std::rt::Files;
use std::{fs, io};

/// One more fault.
fn fault(faults: &mut u64) -> Failed
    ensures stands { faults.old ≤ faults.new }
    ensures rose { Rose faults.old faults.new }
{
    *faults = faults.saturating_add(1);
    Failed
}

/// The answer of a call, whose failure raises the count of faults.
fn counted<T>(faults: &mut u64, done: io::Result<T>) -> Result<T, Failed>
    ensures cause { Counts faults.old faults.new result }
    ensures same { result_ok result ≡ result_ok done }
{
    match done {
        Ok(value) => Ok(value),
        Err(_) => Err(fault(faults)),
    }
}

/// Waits until the system has brought the bytes of a file to where they stay. What keeps none, as a terminal, has nothing to do.
fn make_sure<F: OpenFile>(file: &F) -> io::Result<()> {
    match file.sync_all() {
        Err(error)
            if matches!(
                error.kind(),
                ErrorKind::InvalidInput | ErrorKind::Unsupported
            ) => { Ok(()) }
        done => done,
    }
}

/// Whether a name is a pipe's. To open one may block until somebody opens its other end.
fn is_pipe<R: Files>(rt: &R, name: &str) -> bool {
    match fs::metadata(rt, name) {
        Ok(found) => found.file_type().is_fifo(),
        Err(_) => false,
    }
}

/// Opens a file that is no pipe. No system takes a name longer than the limit.
fn open<R: Files>(
    rt: &R,
    how: &OpenOptions,
    name: &str,
    faults: &mut u64,
) -> Result<R::File, Failed>
    ensures fits { OnOk result (length name.now ≤ 4096) }
    ensures cause { Counts faults.old faults.new result }
{
    if name.len() > NAME_LIMIT || is_pipe(rt, name) {
        return Err(fault(faults));
    }
    counted(faults, how.open(rt, name))
}

/// The file of a name: the one that is kept, or where none of that name is, one that is opened.
fn file_of<R: Files>(
    rt: &R,
    kept: &mut KeptFile<R::File>,
    how: &OpenOptions,
    name: &str,
    faults: &mut u64,
) -> Result<R::File, Failed>
    ensures kept { IfOk result (λ file. IfSome (file_named kept.old name.now) (λ f. file ≡ f)) }
    ensures fits { OnOk result (length name.now ≤ 4096) }
    ensures cause { Counts faults.old faults.new result }
{
    match kept.take(name) {
        Some(file) => Ok(file),
        None => open(rt, how, name, faults),
    }
}
