//! Gates, called through their trait.

use crate::{AppendGate, Gate, OpenGate, PairGate};
use std::io::ErrorKind;
use std::process::Abort;
use std::sync::atomic::{AtomicU64, Ordering};
use std::test::Fail;
use std::time::Duration;
use std::{io, time};

/// A node's work on frames, as a role makes it.
fn work<G: Gate>(gate: &G, node: u32, indices: &[u32]) {
    for index in indices {
        gate.before(node, *index);
        gate.after(node, *index);
    }
    gate.idle();
}

/// A pair gate of node 3, which holds its frame 0 until this one comes, gives up its ten turns where that never does.
fn pair(rt: &impl Abort, second: u32, node: u32, indices: &[u32], gave_up: bool) {
    let gate = PairGate::new(3, 0, second, 10);
    work(&gate, node, indices);
    assert_eq!(rt; gate.gave_up(), gave_up);
}

/// So does an append gate that holds frame 1 of node 0 until one append was made, after so many of them.
fn append(rt: &impl Abort, appends: u64, node: u32, index: u32, gave_up: bool) {
    let word = AtomicU64::new(appends);
    let gate = AppendGate::new(0, 1, &word, 1, 10);
    work(&gate, node, &[index]);
    assert_eq!(rt; gate.gave_up(), gave_up);
}

/// A machine's clock that stands until somebody sleeps.
#[derive(Drop)]
struct Sleeper {
    micros: AtomicU64,
}

impl time::Clock for Sleeper {
    fn monotonic(&self) -> io::Result<Duration> {
        Ok(Duration::from_micros(self.micros.load(Ordering::SeqCst)))
    }

    fn since_1970(&self) -> io::Result<Duration> {
        Err(io::Error::from(ErrorKind::Unsupported))
    }

    fn sleep(&self, duration: Duration) {
        let micros = u64::try_from(duration.as_micros()).unwrap_or(u64::MAX);
        self.micros.fetch_add(micros, Ordering::SeqCst);
    }
}

#[test]
fn gates_hold_and_give_up_and_an_open_one_sleeps(rt: HostRuntime) -> Result<(), Fail> {
    pair(&rt, 1, 3, &[2, 5], false);
    pair(&rt, 1, 2, &[0, 1], false);
    pair(&rt, 1, 3, &[1, 0], false);
    pair(&rt, 0, 3, &[0], false);
    pair(&rt, 1, 3, &[0], true);
    append(&rt, 0, 0, 2, false);
    append(&rt, 0, 1, 1, false);
    append(&rt, 1, 0, 1, false);
    append(&rt, 0, 0, 1, true);
    let machine = Sleeper {
        micros: AtomicU64::new(1_000),
    };
    let open = OpenGate::new(&machine);
    work(&open, 0, &[0]);
    work(&open, 0, &[1]);
    assert_eq!(rt; machine.micros.load(Ordering::SeqCst), 1_100);
    work(&OpenGate::new(&rt), 0, &[0]);
    Ok(())
}
