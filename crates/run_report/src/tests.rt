//! Worked reports, of logs by their text.

use crate::{counters, counts_are_of_runs, offers_are_counted, report_text};
use flow_journal::read_text;
use nd_base::{FileRule, Form, Graph, Kind, Mode, Name, NodeRule, Plan, Seq, StatsRule};
use std::alloc::{AllocError, Global};
use std::test::Fail;

/// A node below the driver with room for one array in its queue, of one thread and without sorting.
fn node(alloc: Global, name: &str, kind: Kind) -> Result<NodeRule, AllocError> {
    Ok(NodeRule {
        name: Name::new(String::from_str(alloc, name)?),
        kind,
        input: 0,
        queue: 1,
        threads: 1,
        sort: 0,
        sort_time: 100,
    })
}

/// The kind of a node that measures.
fn measures() -> Kind {
    Kind::Stats(StatsRule {
        threshold: 0,
        border: 0,
        hist_size: 0,
        hist_lo: 0,
        hist_hi: 255,
        profiles: false,
    })
}

/// The kind of a file node that captures five arrays.
fn saves() -> Kind {
    Kind::File(FileRule {
        mode: Mode::Capture,
        form: Form::Classic,
        count: 5,
    })
}

/// A graph of nodes of these names that measure, and a file node `cap`.
fn graph(alloc: Global, names: &[&str]) -> Result<Graph, AllocError> {
    let mut nodes = Vec::new(alloc);
    for name in names {
        nodes.push(node(alloc, name, measures())?)?;
    }
    nodes.push(node(alloc, "cap", saves())?)?;
    Ok(Graph {
        wait: false,
        limit: 0,
        nodes: Seq::new(nodes),
    })
}

/// The report of the log of this text, over frames of these ids.
fn report(alloc: Global, names: &[&str], ids: &[i32], text: &str) -> Result<String, Fail> {
    let plan = Plan {
        graph: graph(alloc, names)?,
        ids: Seq::new(Vec::from_slice(alloc, ids)?),
        makers: Seq::new(Vec::new(alloc)),
    };
    let bytes = text.as_bytes();
    if bytes.len() > 4000 {
        return Err(Fail::from("a text of more than 4000 bytes"));
    }
    let log = read_text(alloc, bytes)?;
    let counts = counters(alloc, &plan, &log)?;
    Ok(report_text(alloc, &plan.graph, &counts)?)
}

const NO_FRAMES: &str = "frames 0
driver offered 0 loaded 0 refused 0 breaks 0
node cap offered 0 accepted 0 full 0 pool 0 sort 0 out 0 breaks 0
regrown 0
";

const FRAME: &str = "load 0 K block 0 size 4 fresh 1 given 0 regrown 0
tick K
issue 0 K
emit 0 0 K plain
accept 1 0 K
take 1 1 0 K
put 1 1 0 K fired 0
save 1 1 0 K group 0
saved 1 1 0 K
";

const FIVE_FRAMES: &str = "frames 5
driver offered 5 loaded 5 refused 0 breaks 0
node cap offered 5 accepted 5 full 0 pool 0 sort 0 out 5 breaks 0
regrown 0
";

/// A frame goes through a region and statistics into a file.
const THROUGH_THREE: &str = "load 0 K block 0 size 4 fresh 1 given 0 regrown 0
tick K
issue 0 K
emit 0 0 K plain
accept 1 0 K
takeblock 1 1 0 K block 1 size 4 fresh 1 given 0 regrown 0
put 1 1 1 K fired 0
emit 1 1 K plain
accept 2 1 K
take 2 2 1 K
put 2 2 1 K fired 0
emit 2 1 K plain
accept 3 1 K
take 3 3 1 K
put 3 3 1 K fired 0
save 4 3 1 K group 0
saved 4 3 1 K
";

const THREE_FRAMES: &str = "frames 3
driver offered 3 loaded 3 refused 0 breaks 0
node roi offered 3 accepted 3 full 0 pool 0 sort 0 out 3 breaks 0
node stats offered 3 accepted 3 full 0 pool 0 sort 0 out 3 breaks 0
node cap offered 3 accepted 3 full 0 pool 0 sort 0 out 3 breaks 0
regrown 0
";

/// Frame 0 is loaded twice, since its first load is taken back; 1 is refused; 2 finds the queue of `cut` full; the
/// pool drops 3 there. What `cut` makes of 0 is dropped by the sort list of `st`, and saved by `cap` at the second try.
const EACH_DROP: &str = "load 0 0 block 0 size 4 fresh 1 given 0 regrown 0
tick 0
reclaim 0
load 0 0 block 0 size 4 fresh 0 given 0 regrown 1
tick 1
issue 0 0
emit 0 0 0 plain
accept 1 0 0
takeblock 1 1 0 0 block 1 size 4 fresh 1 given 0 regrown 0
loadrefused 0 1 need 4 held 8
load 0 2 block 2 size 4 fresh 1 given 0 regrown 0
tick 2
issue 0 2
emit 0 0 2 plain
full 1 0 2
put 1 1 1 0 fired 0
emit 1 1 0 plain
accept 2 1 0
accept 3 1 0
load 0 3 block 3 size 4 fresh 1 given 0 regrown 0
tick 3
issue 0 3
emit 0 0 3 plain
accept 1 0 3
pooldrop 1 1 0 3 need 4 held 12
take 2 2 1 0
put 2 2 1 0 fired 0
sortdrop 2 1 0
take 3 3 1 0
put 3 3 1 0 fired 0
save 3 3 1 0 group 0
reclaim 3
save 3 3 1 0 group 0
saved 3 3 1 0
";

const EACH_DROP_COUNTED: &str = "frames 4
driver offered 4 loaded 3 refused 1 breaks 1
node cut offered 3 accepted 1 full 1 pool 1 sort 0 out 1 breaks 0
node st offered 1 accepted 0 full 0 pool 0 sort 1 out 0 breaks 0
node cap offered 1 accepted 1 full 0 pool 0 sort 0 out 1 breaks 0
regrown 1
";

/// More is dropped than was offered, a file node emits, and a role without a hand has it taken back.
const NOT_LEGAL: &str = "full 1 0 0
pooldrop 1 1 0 0 need 4 held 4
emit 1 0 0 plain
save 1 1 0 1 group 0
saved 1 1 0 1
reclaim 1
reclaim 7
";

const NOT_LEGAL_COUNTED: &str = "frames 2
driver offered 0 loaded 0 refused 0 breaks 0
node cap offered 1 accepted 0 full 1 pool 1 sort 0 out 1 breaks 1
regrown 0
";

/// A run of frames of these indices, each of which goes so.
fn run_of(alloc: Global, frame: &str, indices: &[&str]) -> Result<String, AllocError> {
    let mut text = String::new(alloc);
    for index in indices {
        text.push_str(frame.replace(alloc, "K", index)?.as_str())?;
    }
    Ok(text)
}

#[test]
fn logs_have_their_reports(rt: HostRuntime) -> Result<(), Fail> {
    let alloc = rt.alloc();
    counts_are_of_runs();
    offers_are_counted();
    let five = run_of(alloc, FRAME, &["0", "1", "2", "3", "4"])?;
    let three = run_of(alloc, THROUGH_THREE, &["0", "1", "2"])?;
    let no_names: &[&str] = &[];
    let cut: &[&str] = &["cut", "st"];
    let chain: &[&str] = &["roi", "stats"];
    let rows = [
        (no_names, &[][..], "", NO_FRAMES),
        (no_names, &[1, 2, 3, 4, 5][..], five.as_str(), FIVE_FRAMES),
        (chain, &[1, 2, 3][..], three.as_str(), THREE_FRAMES),
        (cut, &[1, 2, 3, 4][..], EACH_DROP, EACH_DROP_COUNTED),
        (no_names, &[7, 9][..], NOT_LEGAL, NOT_LEGAL_COUNTED),
    ];
    for (names, ids, log, expected) in rows {
        assert_eq!(rt; report(alloc, names, ids, log)?.as_str(), expected, "{log}");
    }
    Ok(())
}
