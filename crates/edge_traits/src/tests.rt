//! What no clause says: that memory is had, what real files take and give, and how gates and clocks run.

mod clocks;
mod counted_files;
mod gates;
mod real_files;

use crate::{SlowLibrary, SlowSink, SureLibrary};
use std::alloc::{AllocError, Global};
use std::test::Fail;

/// A list of one file.
fn files(alloc: Global) -> Result<Vec<(String, Vec<u8>)>, AllocError> {
    let mut files = Vec::new(alloc);
    files.push((String::from_str(alloc, "one")?, b"abc".to_vec(alloc)?))?;
    Ok(files)
}

/// A slow object makes the plain one that it stands on; nd_cases makes the others.
#[test]
fn objects_in_memory_are_made(rt: HostRuntime) -> Result<(), Fail> {
    let alloc = rt.alloc();
    let _ = SureLibrary::new(alloc, files(alloc)?)?;
    let _ = SlowLibrary::new(alloc, files(alloc)?, Vec::new(alloc))?;
    let _ = SlowSink::new(alloc, 6, Vec::new(alloc))?;
    Ok(())
}
