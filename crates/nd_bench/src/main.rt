//! `nd_bench WORKLOAD .. COUNT`: runs a workload of a crate so many times, and prints a checksum of what it computed. Scripts time it from
//! outside. It has what the program itself can't show alone: one array's statistics or region, and threads at a lock.
#![tactic(auto)]

mod given;
mod lock;
mod region;
mod stats;

use std::alloc::Global;
use std::process::ExitCode;
use std::rt::Env;
use std::sync::Wait;
use std::thread::Threads;
use std::{env, io};

/// Why there is no checksum.
#[derive(Clone, Copy, Debug, PartialEq, Eq)]
enum Refusal {
    Usage,
    OutOfMemory,
}

/// Runs the threads round a lock that this name says.
fn run_threads<T: Threads + Wait + Sync>(
    rt: &T,
    alloc: Global,
    workload: &str,
    count: u32,
) -> Result<u64, Refusal> {
    let total = match workload {
        "lock-1" => lock::lock(rt, alloc, 1, count),
        "lock-2" => lock::lock(rt, alloc, 2, count),
        "lock-4" => lock::lock(rt, alloc, 4, count),
        "lock-16" => lock::lock(rt, alloc, 16, count),
        "lock-idle" => lock::lock_idle(rt, alloc, count),
        "mutex-1" => lock::mutex(rt, alloc, 1, count),
        "mutex-2" => lock::mutex(rt, alloc, 2, count),
        "mutex-4" => lock::mutex(rt, alloc, 4, count),
        "mutex-16" => lock::mutex(rt, alloc, 16, count),
        "mutex-idle" => lock::mutex_idle(rt, alloc, count),
        _ => return Err(Refusal::Usage),
    };
    total.ok_or(Refusal::OutOfMemory)
}

/// Runs a workload over an array. The words are its type, a rule and its sizes.
fn run_over<T: Threads + Wait + Sync>(
    rt: &T,
    alloc: Global,
    workload: &str,
    words: &[String],
    count: u32,
) -> Result<u64, Refusal> {
    let [kind, rule @ .., sizes] = words else {
        return Err(Refusal::Usage);
    };
    let checksum = match workload {
        "stats" => stats::stats(alloc, kind.as_str(), rule, sizes.as_str(), count),
        "chunks" => stats::chunks(rt, alloc, kind.as_str(), rule, sizes.as_str(), count),
        "region" => region::region(alloc, kind.as_str(), rule, sizes.as_str(), count),
        _ => None,
    };
    checksum.ok_or(Refusal::Usage)
}

/// Runs what the words ask for.
fn run_words<T: Threads + Wait + Sync>(
    rt: &T,
    alloc: Global,
    words: &[String],
) -> Result<u64, Refusal> {
    let [workload, more @ .., count] = words else {
        return Err(Refusal::Usage);
    };
    let Ok(count) = count.as_str().parse::<u32>() else {
        return Err(Refusal::Usage);
    };
    if more.is_empty() {
        run_threads(rt, alloc, workload.as_str(), count)
    } else {
        run_over(rt, alloc, workload.as_str(), more, count)
    }
}

/// Runs what the command line asks for, and prints its words and the checksum.
fn run_line(
    rt: &(impl Env + Print + AllocGlobal + Threads + Wait + Sync),
) -> io::Result<Result<(), Refusal>> {
    let words: Vec<String> = env::args(rt)?.skip(1).collect(rt.alloc())?;
    match run_words(rt, rt.alloc(), &words) {
        Ok(checksum) => {
            for word in words.iter() {
                print!(rt; "{word} ")?;
            }
            println!(rt; "{checksum}")?;
            Ok(Ok(()))
        }
        Err(refusal) => Ok(Err(refusal)),
    }
}

/// Runs what the command line names, and says on standard error why it was refused.
fn main(rt: HostRuntime) -> ExitCode {
    match run_line(&rt) {
        Ok(Ok(())) => ExitCode::SUCCESS,
        Ok(Err(refusal)) => {
            let _ = eprintln!(rt; "nd_bench: {refusal:?}");
            ExitCode::FAILURE
        }
        Err(_) => ExitCode::FAILURE,
    }
}
