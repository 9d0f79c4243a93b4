//! What no clause says: that storage comes back when a frame is dropped, and that the calls go on as they should with real memory.

ghost use Rattle.std.specs.Prelude.{◌≡◌, ◌≤◌, ◌<◌, ◌^◌, ◌++◌, length, drop, IfOk};
ghost use Rattle.chain_plain.specs.Content.{IsContent};

use crate::{Blank, Frame};
use nd_base::{FrameName, Held, Named, OutOfMemory, Run};
use std::alloc::Global;
use std::fs;
use std::marker::Brand;
use std::process::Abort;
use std::test::Fail;
use std::thread::{Threads, join};

/// The first frame of the driver.
const FIRST: FrameName = FrameName { maker: 0, index: 0 };

/// Writes bytes over others, which are as many.
fn write_all(from: &[u8], to: &mut [u8])
    requires { length from.now ≡ length to.old }
    ensures { to.new ≡ from.now }
{
    to.copy_from_slice(from);
}

/// Writes bytes over the front of others, which are no fewer.
fn write_front(from: &[u8], to: &mut [u8])
    requires { length from.now ≤ length to.old }
    ensures { to.new ≡ from.now ++ drop (length from.now) to.old }
{
    write_all(from, &mut to[..from.len()]);
}

/// The first frame, of these bytes, on storage of `room` bytes.
fn sealed<R: Run>(alloc: Global, bytes: &[u8], room: u32) -> Result<Frame<R>, OutOfMemory>
    requires room { length bytes.now ≤ room }
    requires content { IsContent R.graph R.stack FIRST bytes.now }
    ensures { IfOk result (λ frame. (frame.bytes ≡ bytes.now) × (frame.parts.here ≡ 2 ^ 32)) }
{
    let mut blank = Blank::new(alloc, room)?;
    write_front(bytes, blank.bytes());
    Ok(blank.seal(FIRST, bytes.len() as u32))
}

/// The frame with two parts away and back again: whether it was a blank again with both away, and the blank's size at last.
fn two_parts_away<R: Run>(
    rt: &impl Abort,
    alloc: Global,
    bytes: &[u8],
) -> Result<(bool, u32), OutOfMemory>
    requires content { IsContent R.graph R.stack FIRST bytes.now }
    requires few { length bytes.now < 2 ^ 32 }
{
    let mut root = sealed::<R>(alloc, bytes, bytes.len() as u32)?;
    let (Ok(one), Ok(two)) = (root.part(), root.part()) else {
        return Err(OutOfMemory);
    };
    assert!(rt; one.name() == FIRST && two.samples() == bytes);
    let mut root = match root.into_blank() {
        Ok(blank) => return Ok((true, blank.size())),
        Err(root) => root,
    };
    root.unite(one);
    root.unite(two);
    assert!(rt; root.samples() == bytes);
    match root.into_blank() {
        Ok(blank) => Ok((false, blank.size())),
        Err(_) => Ok((false, 0)),
    }
}

/// How many bytes are 1.
fn ones(bytes: &[u8]) -> usize {
    bytes.iter().filter(|byte| **byte == 1).count()
}

/// What two threads count in a frame, each by a part of its own, while the rest of the parts stays here.
fn ones_seen_twice<R: Run + Send + Sync>(
    rt: &(impl Threads + Sync),
    kept: &mut Frame<R>,
) -> (usize, usize)
    requires { 3 ≤ kept.old.parts.here }
    ensures { kept.new ≡ kept.old }
{
    let first = kept.split_one();
    let second = kept.split_one();
    let ((here, first), (there, second)) = join(
        rt,
        move || -> (usize, Frame<R>)
            ensures { result.1 ≡ first }
        { (ones(first.samples()), first) },
        move || -> (usize, Frame<R>)
            ensures { result.1 ≡ second }
        { (ones(second.samples()), second) },
    );
    kept.join(first);
    kept.join(second);
    (here, there)
}

/// What two threads count in a frame of these bytes, which is the same by parts of their own and by samples that are lent to both.
fn read_in_threads<R: Run + Send + Sync>(
    rt: &(impl Threads + Abort + Sync),
    alloc: Global,
    bytes: &[u8],
) -> Result<(usize, usize), OutOfMemory>
    requires content { IsContent R.graph R.stack FIRST bytes.now }
    requires few { length bytes.now < 2 ^ 32 }
{
    let mut frame = sealed::<R>(alloc, bytes, bytes.len() as u32)?;
    let counts = ones_seen_twice(rt, &mut frame);
    let lent = join(rt, || ones(frame.samples()), || ones(frame.samples()));
    assert!(rt; frame.samples() == bytes && lent == counts);
    Ok(counts)
}

/// Makes and drops a frame so many times, where asked with one part dropped before it.
fn make_and_drop<R: Run>(
    alloc: Global,
    bytes: &[u8],
    times: u32,
    lose_one: bool,
) -> Result<(), OutOfMemory>
    requires content { IsContent R.graph R.stack FIRST bytes.now }
    requires few { length bytes.now < 2 ^ 32 }
{
    for _ in 0..times {
        let mut frame = sealed::<R>(alloc, bytes, bytes.len() as u32)?;
        if lose_one {
            drop(frame.split_one());
        }
    }
    Ok(())
}

/// How many pages of memory this process has, as the system tells.
fn pages(rt: &HostRuntime) -> Result<u64, Fail> {
    let text = fs::read_to_string(rt, "/proc/self/statm")?;
    let word = text.as_str().split(' ').nth(1).ok_or("no second word")?;
    Ok(word.parse::<u64>()?)
}

#[test]
#[tactic(auto, using(crate::specs::WorkedRun::row_content))]
fn a_frame_is_a_blank_again_with_all_parts(rt: HostRuntime) -> Result<(), Fail> {
    let bytes = [1, 2, 3, 4];
    assert_eq!(rt;
        two_parts_away::<Brand>(&rt, rt.alloc(), &bytes)?,
        (false, 4)
    );
    Ok(())
}

#[test]
#[tactic(auto, using(crate::specs::WorkedRun::row_content))]
fn sizes_from_one_byte_to_the_most(rt: HostRuntime) -> Result<(), Fail> {
    for size in [1, 67_108_864] {
        let bytes = vec![in rt.alloc(); 7u8; size]?;
        let answer = two_parts_away::<Brand>(&rt, rt.alloc(), &bytes)?;
        assert_eq!(rt; answer, (false, size as u32));
    }
    Ok(())
}

#[test]
#[tactic(auto, using(crate::specs::WorkedRun::row_content))]
fn two_threads_read_a_frame(rt: HostRuntime) -> Result<(), Fail> {
    let bytes = [1, 2, 1, 4, 1];
    assert_eq!(rt; read_in_threads::<Brand>(&rt, rt.alloc(), &bytes)?, (3, 3));
    Ok(())
}

/// 2,000 MiB go through frames that are dropped with all parts, and 100 MiB through ones that have lost a part.
#[test]
#[tactic(auto, using(crate::specs::WorkedRun::row_content))]
fn dropped_frames_give_their_storage_back(rt: HostRuntime) -> Result<(), Fail> {
    let bytes = vec![in rt.alloc(); 1u8; 1_048_576]?;
    let before = pages(&rt)?;
    make_and_drop::<Brand>(rt.alloc(), &bytes, 2_000, false)?;
    let after = pages(&rt)?;
    assert!(rt;
        after < before.saturating_add(50 * 256),
        "from {before} to {after} pages"
    );
    make_and_drop::<Brand>(rt.alloc(), &bytes, 100, true)?;
    let lost = pages(&rt)?;
    assert!(rt;
        after.saturating_add(90 * 256) < lost,
        "from {after} to {lost} pages"
    );
    Ok(())
}
