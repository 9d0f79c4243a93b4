//! Workloads `lock-N` and `mutex-N`: N threads count together, through the turn lock or through a `Mutex` of std. In `lock-idle`
//! and `mutex-idle` one thread counts while twelve more ask for the total, and yield, until all is counted.

ghost use Rattle.std.specs.Prelude.{◌<◌, ◌^◌};
ghost use Rattle.turn_lock.specs.Counting.{IsReady};

use std::alloc::Global;
use std::sync::{Mutex, Wait};
use std::thread::{self, Threads, map_indices, map_vec};
use turn_lock::{Counter, Job, TurnLock, count_all, count_times, jobs, watch};

const IDLE: u32 = 12;

/// Through the turn lock: how many were counted.
pub(crate) fn lock<T: Threads + Wait + Sync>(
    rt: &T,
    alloc: Global,
    seats: u32,
    count: u32,
) -> Option<u64>
    requires { 0 < seats }
{
    let counter = count_all(rt, alloc, seats, count / seats).ok()?;
    Some(counter.counts().len() as u64)
}

/// The same beside idle threads: what the first of them saw in the end.
pub(crate) fn lock_idle<T: Threads + Wait + Sync>(
    rt: &T,
    alloc: Global,
    count: u32,
) -> Option<u64> {
    let (lock, passes) = TurnLock::new(alloc, Counter::new(alloc), 1 + IDLE).ok()?;
    let jobs = jobs(alloc, &lock, passes).ok()?;
    let work = |job: Job| -> Option<u64>
        requires { IsReady lock.id job }
    {
        let Job { role, pass } = job;
        if role == 0 {
            count_times(rt, alloc, &lock, pass, role, count).ok()?;
            return Some(count as u64);
        }
        let (_, counted) = watch(rt, alloc, &lock, pass, role, count as u64);
        Some(counted)
    };
    let totals = map_vec(rt, jobs, &work).ok()?;
    totals.first().copied().flatten()
}

/// Through a mutex: how many were counted.
pub(crate) fn mutex<T: Threads + Wait + Sync>(
    rt: &T,
    alloc: Global,
    threads: u32,
    count: u32,
) -> Option<u64>
    requires { 0 < threads }
{
    let list = Mutex::new(Vec::new(alloc));
    let times = count / threads;
    let work = |role: usize| -> Option<()>
        requires { role < 2 ^ 32 }
    {
        for _ in 0..times {
            list.lock(rt).push(role as u32).ok()?;
        }
        Some(())
    };
    let ends = map_indices(rt, alloc, threads as usize, &work).ok()?;
    if ends.contains(&None) {
        return None;
    }
    Some(list.into_inner().len() as u64)
}

/// The same beside idle threads.
pub(crate) fn mutex_idle<T: Threads + Wait + Sync>(
    rt: &T,
    alloc: Global,
    count: u32,
) -> Option<u64> {
    let list = Mutex::new(Vec::new(alloc));
    let work = |role: usize| -> Option<u64> {
        if role == 0 {
            for _ in 0..count {
                list.lock(rt).push(0u32).ok()?;
            }
            return Some(count as u64);
        }
        for _ in rt.forever() {
            let counted = list.lock(rt).len() as u64;
            if counted >= count as u64 {
                return Some(counted);
            }
            thread::yield_now();
        }
        unreachable!()
    };
    let totals = map_indices(rt, alloc, 1 + IDLE as usize, &work).ok()?;
    totals.first().copied().flatten()
}
