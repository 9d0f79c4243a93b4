use crate::{Monitor, Peek, Publisher};
use flow_journal::{Progress, Watch};
use nd_base::OutOfMemory;
use std::alloc::{AllocError, Global};
use std::sync::Wait;
use std::test::Fail;
use std::thread::{Threads, join, map_vec};

fn progress(entries: u32) -> Progress {
    Progress {
        entries,
        offered: 0,
        dropped: 0,
        saved: 0,
        left: false,
        done: false,
    }
}

#[test]
fn a_reader_that_is_told_reads_each_note_and_no_older_one(rt: HostRuntime) -> Result<(), Fail> {
    let (mut publisher, mut monitor) = Monitor::new(&rt, rt.alloc(), 1)?;
    let Some(mut peek) = monitor.reader() else {
        publisher.end();
        return Err(Fail::new("no reader"));
    };
    let before = peek.read();
    let three = publisher.note(rt.alloc(), &progress(3));
    publisher.tell(&mut peek);
    let first = peek.read().entries;
    let eight = publisher.note(rt.alloc(), &progress(8));
    publisher.tell(&mut peek);
    let second = peek.read().entries;
    let again = publisher.note(rt.alloc(), &progress(8));
    publisher.tell(&mut peek);
    let third = peek.read().entries;
    publisher.end();
    assert!(rt; before == progress(0));
    assert!(rt; (three, eight, again) == (Ok(()), Ok(()), Ok(())));
    assert!(rt; (first, second, third) == (3, 8, 8));
    assert!(rt; peek.read() == progress(8));
    Ok(())
}

// Publishes notes of 1, 2 and so on up to so many entries.
fn publish<H: Wait>(
    publisher: &mut Publisher<'_, H>,
    alloc: Global,
    entries: u32,
) -> Result<(), OutOfMemory> {
    for entry in 1..=entries {
        publisher.note(alloc, &progress(entry))?;
    }
    Ok(())
}

#[test]
fn a_reader_that_is_told_nothing_reads_the_last_note(rt: HostRuntime) -> Result<(), Fail> {
    let (mut publisher, mut monitor) = Monitor::new(&rt, rt.alloc(), 2)?;
    let dropped = monitor.reader();
    let peek = monitor.reader();
    let none = monitor.reader();
    let first = publish(&mut publisher, rt.alloc(), 3);
    drop(dropped);
    let second = publish(&mut publisher, rt.alloc(), 8);
    let read = peek.map(|mut peek| peek.read().entries);
    publisher.end();
    assert!(rt; (first, second) == (Ok(()), Ok(())));
    assert!(rt; read == Some(8));
    assert!(rt; none.is_none());
    Ok(())
}

// Reads again and again, and tells whether a read ever went back.
fn goes_back(mut peek: Peek) -> bool {
    let mut last = 0;
    for _ in 0..2000 {
        let entries = peek.read().entries;
        if entries < last {
            return true;
        }
        last = entries;
    }
    false
}

fn all_readers(alloc: Global, monitor: &mut Monitor) -> Result<Vec<Peek>, OutOfMemory> {
    let mut peeks = Vec::new(alloc);
    for _ in 0..16 {
        if let Some(peek) = monitor.reader() {
            peeks.push(peek)?;
        }
    }
    Ok(peeks)
}

// Publishes in this thread while each reader reads in one of its own, and tells whose reads went back.
fn publish_beside<T: Threads + Wait + Sync>(
    rt: &T,
    alloc: Global,
    publisher: &mut Publisher<'_, T>,
    peeks: Vec<Peek>,
) -> (Result<Vec<bool>, AllocError>, Result<(), OutOfMemory>) {
    join(
        rt,
        move || map_vec(rt, peeks, &goes_back),
        || publish(publisher, alloc, 300),
    )
}

#[test]
fn sixteen_readers_beside_the_publisher_never_go_back(rt: HostRuntime) -> Result<(), Fail> {
    let (mut publisher, mut monitor) = Monitor::new(&rt, rt.alloc(), 16)?;
    let Ok(peeks) = all_readers(rt.alloc(), &mut monitor) else {
        publisher.end();
        return Err(Fail::new("out of memory"));
    };
    let (back, published) = publish_beside(&rt, rt.alloc(), &mut publisher, peeks);
    publisher.end();
    assert!(rt; published == Ok(()));
    assert!(rt; back?.as_slice() == [false; 16].as_slice());
    Ok(())
}
