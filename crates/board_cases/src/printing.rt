//! What is printed.

ghost use Rattle.std.specs.Prelude.{◌≡◌, length};
ghost use Rattle.nd_base.specs.GraphRules.{IsGraph};

use anyhow::Result;
use board_rules::{Load, Measures, Save, Settled, Take};
use flow_journal::{Log, Progress};
use nd_base::{Held, Kind, Named, Plan};
use nd_stats::row_text;
use run_report::{counters, report_text};
use std::alloc::{AllocError, Global};
use std::io;

/// What a load answered.
pub fn load_text<B>(alloc: Global, answer: &Load<B>) -> Result<String, AllocError> {
    match answer {
        Load::Left => String::from_str(alloc, "left"),
        Load::Busy => String::from_str(alloc, "busy"),
        Load::Ended => String::from_str(alloc, "ended"),
        Load::NotYet => String::from_str(alloc, "not yet"),
        Load::OutOfMemory => String::from_str(alloc, "out of memory"),
        Load::Refused { index, held } => format!(in alloc; "refused {index} held {held}"),
        Load::Loaded { index, .. } => format!(in alloc; "loaded {index}"),
    }
}

/// What a take answered. An array is told as its maker and its index, and the storage by its bytes.
pub fn take_text<F: Held>(alloc: Global, answer: &Take<F>) -> Result<String, AllocError> {
    match answer {
        Take::Left => String::from_str(alloc, "left"),
        Take::Busy => String::from_str(alloc, "busy"),
        Take::Ended => String::from_str(alloc, "ended"),
        Take::Idle => String::from_str(alloc, "idle"),
        Take::OutOfMemory => String::from_str(alloc, "out of memory"),
        Take::PoolDrop { index, held } => format!(in alloc; "dropped {index} held {held}"),
        Take::Job { node, input, blank } => {
            let name = input.name();
            let (maker, index) = (name.maker, name.index);
            match blank {
                Some(blank) => {
                    let size = F::blank_size(blank);
                    format!(in alloc; "job {maker}/{index} at {node} with {size} bytes")
                }
                None => format!(in alloc; "job {maker}/{index} at {node}"),
            }
        }
    }
}

/// What a save answered.
pub fn save_text<F: Named>(alloc: Global, answer: &Save<F>) -> Result<String, AllocError> {
    match answer {
        Save::Busy => String::from_str(alloc, "busy"),
        Save::NotYet => String::from_str(alloc, "not yet"),
        Save::OutOfMemory => String::from_str(alloc, "out of memory"),
        Save::Piece {
            input,
            group,
            place,
            of,
        } => {
            let name = input.name();
            let (maker, index) = (name.maker, name.index);
            match of {
                Some(of) => {
                    format!(in alloc; "piece {maker}/{index} group {group} place {place} of {of}")
                }
                None => format!(in alloc; "piece {maker}/{index} group {group} place {place}"),
            }
        }
    }
}

/// What a settle or a close answered.
pub fn settled_text(alloc: Global, answer: Settled) -> Result<String, AllocError> {
    match answer {
        Settled::Done => String::from_str(alloc, "done"),
        Settled::NotYet => String::from_str(alloc, "not yet"),
    }
}

/// How far the run has come.
pub fn progress_text(alloc: Global, answer: Progress) -> Result<String, AllocError> {
    let Progress {
        entries,
        offered,
        dropped,
        saved,
        left,
        done,
    } = answer;
    format!(in alloc;
        "entries {entries} offered {offered} dropped {dropped} saved {saved} left {left} done {done}"
    )
}

/// Prints the entries of a log, each after a mark. The first so many stood there before the last role did what was left.
pub fn print_log(rt: &impl Print, log: &Log, before: usize) -> io::Result<()> {
    for (index, entry) in log.entries().iter().enumerate() {
        if index == before {
            println!(rt; "and then")?;
        }
        println!(rt; "> {entry}")?;
    }
    Ok(())
}

/// Prints the report of a log.
pub fn print_report(rt: &(impl Print + AllocGlobal), plan: &Plan, log: &Log) -> Result<()> {
    let alloc = rt.alloc();
    let counters = counters(alloc, plan, log)?;
    let text = report_text(alloc, &plan.graph, &counters)?;
    rt.print(text)?;
    Ok(())
}

/// Prints the measures of the statistics nodes, in the order of emission.
pub fn print_measures(
    rt: &(impl Print + AllocGlobal),
    plan: &Plan,
    measures: &Measures,
) -> Result<()>
    requires graph { IsGraph plan.now.graph }
    requires measures { length measures.now ≡ length plan.now.graph.nodes }
{
    let nodes = plan.graph.nodes.as_slice();
    for (place, rule) in nodes.iter().enumerate() {
        let Kind::Stats(_) = &rule.kind else {
            continue;
        };
        for measure in measures.of(place as u32 + 1) {
            let row = row_text(rt.alloc(), measure)?;
            print!(rt; "{}: {row}", rule.name.text())?;
        }
    }
    Ok(())
}
