use crate::lines::seen_text;
use crate::reading::read_beside;
use edge_traits::Gate;
use flow_journal::{Progress, Watch};
use flow_monitor::{Monitor, Peek, Publisher};
use std::alloc::Global;
use std::sync::Wait;
use std::sync::atomic::{AtomicBool, AtomicU64, Ordering};
use std::test::Fail;

fn progress(entries: u32, offered: u64, dropped: u64, saved: u64) -> Progress {
    Progress {
        entries,
        offered,
        dropped,
        saved,
        left: false,
        done: false,
    }
}

#[test]
fn each_line_has_more_entries_than_the_one_before(rt: HostRuntime) -> Result<(), Fail> {
    let notes = [
        progress(0, 0, 0, 0),
        progress(3, 1, 0, 0),
        progress(3, 1, 0, 0),
        progress(120, 31, 4, 20),
        progress(7, 2, 1, 0),
    ];
    let text = seen_text(rt.alloc(), &notes)?;
    assert!(rt; text.as_str() == "seen 3 1 0 0\nseen 120 31 4 20\n");
    Ok(())
}

/// Counts how often a role was idle.
#[derive(Drop)]
struct Counts(AtomicU64);

impl Gate for Counts {
    fn before(&self, _node: u32, _index: u32) {}

    fn after(&self, _node: u32, _index: u32) {}

    fn idle(&self) {
        self.0.fetch_add(1, Ordering::SeqCst);
    }
}

// What a reader reads after one note, and how often it was idle.
fn read_after<H: Wait>(
    alloc: Global,
    publisher: &mut Publisher<'_, H>,
    mut peek: Peek,
    ended: bool,
    has_thread: bool,
) -> Result<(usize, u32, u64), Fail> {
    let gate = Counts(AtomicU64::new(0));
    let mut reads = Vec::with_capacity(alloc, 17)?;
    publisher.note(alloc, &progress(5, 1, 0, 0))?;
    read_beside(
        &mut peek,
        &gate,
        &AtomicBool::new(ended),
        has_thread,
        &mut reads,
    );
    let last = reads.last().map_or(0, |note| note.entries);
    Ok((reads.len(), last, gate.0.load(Ordering::SeqCst)))
}

// The same, with a monitor of its own.
fn read_once<H: Wait>(
    rt: &H,
    alloc: Global,
    ended: bool,
    has_thread: bool,
) -> Result<(usize, u32, u64), Fail> {
    let (mut publisher, mut monitor) = Monitor::new(rt, alloc, 1)?;
    let Some(peek) = monitor.reader() else {
        publisher.end();
        return Err(Fail::new("no reader"));
    };
    let read = read_after(alloc, &mut publisher, peek, ended, has_thread);
    publisher.end();
    read
}

#[test]
fn a_reader_reads_sixteen_times_unless_the_run_has_ended(rt: HostRuntime) -> Result<(), Fail> {
    assert!(rt; read_once(&rt, rt.alloc(), false, true)? == (16, 5, 16 * 65535));
    assert!(rt; read_once(&rt, rt.alloc(), true, true)? == (0, 0, 0));
    assert!(rt; read_once(&rt, rt.alloc(), false, false)? == (0, 0, 0));
    Ok(())
}
