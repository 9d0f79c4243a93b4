//! The reader of a run, in a thread of its own.

ghost use Rattle.std.specs.Prelude.{◌≡◌, ◌+◌, ◌≤◌, false, [], vec_len, vec_capacity};
ghost use Rattle.flow_watch.specs.Reads.{ReadAfter};

use edge_traits::Gate;
use flow_journal::Progress;
use flow_monitor::Peek;
use std::sync::atomic::{AtomicBool, Ordering};

/// The most reads of a run.
pub(crate) const READS: usize = 16;

/// How often a reader is idle before its first read. Before each later one it is so twice as often as before the last.
const FIRST_WAIT: u64 = 16;

/// Waits at the gate so often, or until the run has ended. Tells whether it hasn't.
fn waits<G: Gate>(gate: &G, times: u64, ended: &AtomicBool) -> bool {
    for _ in 0..times {
        if ended.load(Ordering::SeqCst) {
            return false;
        }
        gate.idle();
    }
    true
}

/// Reads while the run goes on, ever more seldom, and keeps what it read. Without a thread of its own it reads nothing.
pub(crate) fn read_beside<G: Gate>(
    peek: &mut Peek,
    gate: &G,
    ended: &AtomicBool,
    has_thread: bool,
    reads: &mut Vec<Progress>,
)
    requires none { reads.old.items ≡ [] }
    requires room { 17 ≤ vec_capacity reads.old }
    ensures monitor { peek.new.monitor ≡ peek.old.monitor }
    ensures reads { ReadAfter peek.old.seen reads.new.items peek.new.seen }
    ensures alone { has_thread ≡ false → reads.new.items ≡ [] }
    ensures room { vec_len reads.new + 1 ≤ vec_capacity reads.new }
{
    if !has_thread {
        return;
    }
    let mut times = FIRST_WAIT;
    while reads.len() < READS && waits(gate, times, ended) {
        reads.push_reserved(peek.read());
        times = times.saturating_mul(2);
    }
}
