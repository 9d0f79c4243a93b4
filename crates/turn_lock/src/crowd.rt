//! Roles that count in threads, as many as are wanted.

ghost use Rattle.std.specs.Prelude.{◌≡◌, ◌<◌, ◌≤◌, ◌^◌, ℕ, List, [], ◌∷◌, All, length, vec_len, IfOk};
ghost use Rattle.turn_lock.specs.declared.counter.Count.{Count};
ghost use Rattle.turn_lock.specs.Logs.{moves_of};
ghost use Rattle.turn_lock.specs.Views.{no_moves};
ghost use Rattle.turn_lock.specs.Passes.{new_passes};
ghost use Rattle.turn_lock.specs.Counting.{counted_by, count, HasRole, HasCounted, EachCounted, IsReady, IsCountDone};

use crate::counter::{Counter, CounterOp, CounterReply};
use crate::lock::{Pass, TurnLock};
use std::alloc::{AllocError, Global};
use std::sync::Wait;
use std::thread::{self, Threads, map_vec};

/// A role with its pass.
#[derive(Drop)]
pub struct Job {
    pub role: u32,
    pub pass: Pass<Counter>,
}

/// The role counts so often.
pub fn count_times<R: Wait>(
    rt: &R,
    alloc: Global,
    lock: &TurnLock<Counter>,
    mut pass: Pass<Counter>,
    role: u32,
    times: u32,
) -> Result<Pass<Counter>, AllocError>
    requires { (pass.lock ≡ lock.now.id) × (pass.made ≡ no_moves role ∷ []) }
    ensures own { IfOk result (λ p. p.lock ≡ lock.now.id) }
    ensures counted { IfOk result (λ p. HasCounted role times p.made) }
{
    let mut done = 0;
    while done < times {
        match lock.call(rt, alloc, &mut pass, CounterOp::Add { role }) {
            CounterReply::Counted(_) => done += 1,
            CounterReply::NoMemory => return Err(AllocError),
            CounterReply::FirstRole(_) => unreachable!(),
        }
    }
    Ok(pass)
}

/// The role counts once, and then asks who was first, which it may since it has counted itself.
pub fn add_then_first<R: Wait>(
    rt: &R,
    alloc: Global,
    lock: &TurnLock<Counter>,
    pass: &mut Pass<Counter>,
    role: u32,
) -> Result<u32, AllocError>
    requires { (pass.old.lock ≡ lock.now.id) × (pass.old.made ≡ no_moves role ∷ []) }
    ensures own { pass.new.lock ≡ lock.now.id }
    ensures first { IfOk result (λ first. (rest : List Count) × (pass.new.seen ≡ count first ∷ rest)) }
    ensures counted { IfOk result (λ first. HasCounted role 1 pass.new.made) }
{
    match lock.call(rt, alloc, pass, CounterOp::Add { role }) {
        CounterReply::Counted(_) => {}
        CounterReply::NoMemory => return Err(AllocError),
        CounterReply::FirstRole(_) => unreachable!(),
    }
    match lock.call(rt, alloc, pass, CounterOp::First { role }) {
        CounterReply::FirstRole(first) => Ok(first),
        _ => unreachable!(),
    }
}

/// Each pass of a new lock with its role.
pub fn jobs(
    alloc: Global,
    lock: &TurnLock<Counter>,
    mut passes: Vec<Pass<Counter>>,
) -> Result<Vec<Job>, AllocError>
    requires { (passes.items ≡ new_passes lock.now.id 0 (vec_len passes)) × (vec_len passes < 2 ^ 32) }
    ensures ready { IfOk result (λ jobs. All (λ j. IsReady lock.now.id j) jobs.items) }
    ensures len { IfOk result (λ jobs. vec_len jobs ≡ vec_len passes) }
{
    let mut jobs = Vec::with_capacity(alloc, passes.len())?;
    while let Some(pass) = passes.pop() {
        let role = passes.len() as u32;
        jobs.push_reserved(Job { role, pass });
    }
    Ok(jobs)
}

/// Asks for the total again and again until so many are counted, and tells it.
pub fn watch<R: Wait>(
    rt: &R,
    alloc: Global,
    lock: &TurnLock<Counter>,
    mut pass: Pass<Counter>,
    role: u32,
    total: u64,
) -> (Pass<Counter>, u64)
    requires { (pass.lock ≡ lock.now.id) × (pass.made ≡ no_moves role ∷ []) }
    ensures own { (result.0.lock ≡ lock.now.id) × HasRole role result.0.made }
    ensures total { total ≤ result.1 }
    ensures seen { result.1 ≡ length result.0.seen }
{
    for _ in rt.forever() {
        match lock.call(rt, alloc, &mut pass, CounterOp::Total { role }) {
            CounterReply::Counted(counted) => {
                if total <= counted {
                    return (pass, counted);
                }
            }
            _ => unreachable!(),
        }
        thread::yield_now();
    }
    unreachable!()
}

// The passes of all roles joined into one.
fn join_all(
    lock: &TurnLock<Counter>,
    mut ends: Vec<Result<Pass<Counter>, AllocError>>,
    times: u32,
) -> Result<Pass<Counter>, AllocError>
    requires done { All (λ r. IfOk r (λ p. IsCountDone lock.now.id times p)) ends.items }
    requires some_end { 0 < vec_len ends }
    ensures own { IfOk result (λ p. p.lock ≡ lock.now.id) }
    ensures all { IfOk result (λ p. length p.made ≡ vec_len ends) }
    ensures counted { IfOk result (λ p. EachCounted times p.made) }
{
    let mut keep = ends.pop().unwrap()?;
    while let Some(end) = ends.pop() {
        lock.join(&mut keep, end?);
    }
    Ok(keep)
}

/// As many roles as there are seats count so often each, every role in a thread of its own where one can be made. In the end
/// each role has just its own counts in the log, and nobody else has any.
pub fn count_all<T: Threads + Wait + Sync>(
    rt: &T,
    alloc: Global,
    seats: u32,
    times: u32,
) -> Result<Counter, AllocError>
    requires { 0 < seats }
    ensures each { IfOk result (λ c. (q : ℕ) → q < seats → length (moves_of counted_by q c) ≡ times) }
    ensures none { IfOk result (λ c. (q : ℕ) → seats ≤ q → moves_of counted_by q c ≡ []) }
{
    let (lock, passes) = TurnLock::new(alloc, Counter::new(alloc), seats)?;
    let jobs = jobs(alloc, &lock, passes)?;
    let work = |job: Job| -> Result<Pass<Counter>, AllocError>
        requires { IsReady lock.id job }
        ensures { IfOk result (λ p. IsCountDone lock.id times p) }
    {
        let Job { role, pass } = job;
        count_times(rt, alloc, &lock, pass, role, times)
    };
    let ends = map_vec(rt, jobs, &work)?;
    drop(work);
    let keep = join_all(&lock, ends, times)?;
    match lock.close(keep) {
        Ok(counter) => Ok(counter),
        Err(_) => unreachable!(),
    }
}
