//! The worked log both ways, each kind of entry once, texts that are none of a log, and notes that are kept.

ghost use Rattle.std.specs.Prelude.{◌≤◌, length};

use crate::{Entry, KeptNotes, Log, LogFault, Progress, Watch, Why, read_text, write_text};
use nd_base::OutOfMemory;
use std::alloc::Global;
use std::test::Fail;

const ELEVEN_LINES: &str = "load 0 0 block 0 size 4 fresh 1 given 0 regrown 0
tick 0
issue 0 0
emit 0 0 0 plain
accept 1 0 0
take 1 1 0 0
put 1 1 0 0 fired 0
close 0
settle 1 1
save 1 1 0 0 group 0
saved 1 1 0 0
";

const ELEVEN_ENTRIES: [Entry; 11] = [
    Entry::Load {
        role: 0,
        index: 0,
        block: 0,
        size: 4,
        fresh: true,
        given: 0,
        regrown: false,
    },
    Entry::Tick { tick: 0 },
    Entry::Issue { role: 0, index: 0 },
    Entry::Emit {
        node: 0,
        maker: 0,
        index: 0,
        why: Why::Plain,
    },
    Entry::Accept {
        node: 1,
        maker: 0,
        index: 0,
    },
    Entry::Take {
        role: 1,
        node: 1,
        maker: 0,
        index: 0,
    },
    Entry::Put {
        role: 1,
        node: 1,
        maker: 0,
        index: 0,
        fired: false,
    },
    Entry::Close { role: 0 },
    Entry::Settle { role: 1, node: 1 },
    Entry::Save {
        role: 1,
        node: 1,
        maker: 0,
        index: 0,
        group: 0,
    },
    Entry::Saved {
        role: 1,
        node: 1,
        maker: 0,
        index: 0,
    },
];

const EACH_KIND_IN_LINES: &str = "load 0 65535 block 12 size 4294967295 fresh 0 given 3 regrown 1
loadrefused 0 7 need 4294967295 held 1099511627776
tick 18446744073709551615
issue 65 2
emit 3 2 1 plain
emit 3 2 1 step
emit 3 2 1 late
emit 3 2 1 flush
emit 3 2 1 ring
emit 3 2 1 now
accept 32 0 9
full 31 4 10
take 64 32 1 2
takeblock 5 4 3 2 block 1 size 6 fresh 1 given 7 regrown 0
pooldrop 9 8 7 6 need 5 held 4
put 1 2 3 4 fired 1
sortdrop 1 20 300
settle 4000 50000
save 1 2 3 4 group 600000
saved 7 6 5 4
close 65
leave 12
reclaim 13
";

const EACH_KIND: [Entry; 23] = [
    Entry::Load {
        role: 0,
        index: 65535,
        block: 12,
        size: 4294967295,
        fresh: false,
        given: 3,
        regrown: true,
    },
    Entry::LoadRefused {
        role: 0,
        index: 7,
        need: 4294967295,
        held: 1099511627776,
    },
    Entry::Tick {
        tick: 18446744073709551615,
    },
    Entry::Issue { role: 65, index: 2 },
    Entry::Emit {
        node: 3,
        maker: 2,
        index: 1,
        why: Why::Plain,
    },
    Entry::Emit {
        node: 3,
        maker: 2,
        index: 1,
        why: Why::Step,
    },
    Entry::Emit {
        node: 3,
        maker: 2,
        index: 1,
        why: Why::Late,
    },
    Entry::Emit {
        node: 3,
        maker: 2,
        index: 1,
        why: Why::Flush,
    },
    Entry::Emit {
        node: 3,
        maker: 2,
        index: 1,
        why: Why::Ring,
    },
    Entry::Emit {
        node: 3,
        maker: 2,
        index: 1,
        why: Why::Now,
    },
    Entry::Accept {
        node: 32,
        maker: 0,
        index: 9,
    },
    Entry::Full {
        node: 31,
        maker: 4,
        index: 10,
    },
    Entry::Take {
        role: 64,
        node: 32,
        maker: 1,
        index: 2,
    },
    Entry::TakeBlock {
        role: 5,
        node: 4,
        maker: 3,
        index: 2,
        block: 1,
        size: 6,
        fresh: true,
        given: 7,
        regrown: false,
    },
    Entry::PoolDrop {
        role: 9,
        node: 8,
        maker: 7,
        index: 6,
        need: 5,
        held: 4,
    },
    Entry::Put {
        role: 1,
        node: 2,
        maker: 3,
        index: 4,
        fired: true,
    },
    Entry::SortDrop {
        node: 1,
        maker: 20,
        index: 300,
    },
    Entry::Settle {
        role: 4000,
        node: 50000,
    },
    Entry::Save {
        role: 1,
        node: 2,
        maker: 3,
        index: 4,
        group: 600000,
    },
    Entry::Saved {
        role: 7,
        node: 6,
        maker: 5,
        index: 4,
    },
    Entry::Close { role: 65 },
    Entry::Leave { role: 12 },
    Entry::Reclaim { role: 13 },
];

const NO_LOGS: [(&str, u32); 24] = [
    ("tick 05\n", 1),
    ("tick  5\n", 1),
    ("tick 5", 1),
    (" tick 5\n", 1),
    ("tick 5 \n", 1),
    ("tick +5\n", 1),
    ("tick\n", 1),
    ("tick \n", 1),
    ("tick 5\r\n", 1),
    ("Tick 5\n", 1),
    ("tick 18446744073709551616\n", 1),
    ("close 4294967296\n", 1),
    ("\n", 1),
    ("tock 5\n", 1),
    ("tick 5\n\n", 2),
    ("tick 5\nissue 0\nclose 0\n", 2),
    ("tick 5\nissue 0 1 2\n", 2),
    ("tick 5\nclose 0\nemit 0 0 0\n", 3),
    ("tick 5\nclose 0\nemit 0 0 0 soon\n", 3),
    ("put 1 1 0 0 fired 2\n", 1),
    ("put 1 1 0 0 fired 01\n", 1),
    ("put 1 1 0 0\n", 1),
    ("load 0 0 block 0 size 4 fresh 1 given 0\n", 1),
    ("load 0 0 size 4 block 0 fresh 1 given 0 regrown 0\n", 1),
];

/// The log of these entries, of which there are at most 23.
fn log_of(alloc: Global, entries: &[Entry]) -> Result<Log, OutOfMemory>
    requires { length entries.now ≤ 23 }
{
    let mut log = Log::new(alloc, 23)?;
    for entry in entries {
        log.push(*entry);
    }
    Ok(log)
}

#[test]
fn eleven_lines_are_eleven_entries(rt: HostRuntime) -> Result<(), Fail> {
    let log = log_of(rt.alloc(), &ELEVEN_ENTRIES)?;
    assert_eq!(rt; log.entries(), ELEVEN_ENTRIES.as_slice());
    assert_eq!(rt; write_text(rt.alloc(), &log)?.as_str(), ELEVEN_LINES);
    let read = read_text(rt.alloc(), ELEVEN_LINES.as_bytes())?;
    assert_eq!(rt; read.entries(), ELEVEN_ENTRIES.as_slice());
    Ok(())
}

#[test]
fn each_kind_goes_both_ways(rt: HostRuntime) -> Result<(), Fail> {
    let log = log_of(rt.alloc(), &EACH_KIND)?;
    assert_eq!(rt; write_text(rt.alloc(), &log)?.as_str(), EACH_KIND_IN_LINES);
    let read = read_text(rt.alloc(), EACH_KIND_IN_LINES.as_bytes())?;
    assert_eq!(rt; read.entries(), EACH_KIND.as_slice());
    Ok(())
}

#[test]
fn one_tick_is_one_entry_and_no_text_is_none(rt: HostRuntime) -> Result<(), Fail> {
    let one = read_text(rt.alloc(), b"tick 5\n")?;
    assert_eq!(rt; one.entries(), [Entry::Tick { tick: 5 }].as_slice());
    let none = read_text(rt.alloc(), b"")?;
    assert_eq!(rt; none.entries().len(), 0);
    Ok(())
}

#[test]
fn the_first_bad_line_is_named(rt: HostRuntime) -> Result<(), Fail> {
    for (text, n) in NO_LOGS {
        let bytes = text.as_bytes();
        if bytes.len() < 100 {
            let fault = read_text(rt.alloc(), bytes).err().ok_or("a log")?;
            assert_eq!(rt; fault, LogFault::Line { n }, "{text}");
        }
    }
    Ok(())
}

/// What is noted after `entries` entries.
fn progress_at(entries: u32) -> Progress {
    Progress {
        entries,
        offered: 0,
        dropped: 0,
        saved: 0,
        left: false,
        done: false,
    }
}

#[test]
fn notes_are_kept_in_their_order(rt: HostRuntime) -> Result<(), Fail> {
    let mut watch = KeptNotes::new(rt.alloc());
    for entries in [3, 8, 8] {
        watch.note(rt.alloc(), &progress_at(entries))?;
    }
    let kept = [progress_at(3), progress_at(8), progress_at(8)];
    assert_eq!(rt; watch.notes(), kept.as_slice());
    assert_eq!(rt; watch.refused(), 0);
    Ok(())
}
