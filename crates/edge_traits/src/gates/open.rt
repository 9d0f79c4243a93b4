//! A gate that lets all pass.

ghost use Rattle.std.specs.Prelude.{◌≤◌};

use crate::Gate;
use std::sync::atomic::{AtomicU64, Ordering};
use std::time::Duration;
use std::{thread, time};

/// How long a role sleeps where it alone has nothing to do, in microseconds.
const NAP: u64 = 50;

/// The longest sleep, in microseconds.
const LONGEST_NAP: u64 = 1_000;

/// Lets all pass at once. Roles that have nothing to do sleep, the longer the more of them sleep, so that they ask seldom enough
/// to leave the processors and the board to those that work.
#[derive(Drop)]
pub struct OpenGate<'a, R: time::Clock> {
    rt: &'a R,
    asleep: AtomicU64,
}

/// How long a role sleeps beside so many others, in microseconds.
fn nap_beside(others: u64) -> u64
    ensures { result ≤ 1000 }
{
    NAP.saturating_mul(others.saturating_add(1))
        .min(LONGEST_NAP)
}

impl<'a, R: time::Clock> OpenGate<'a, R> {
    /// A gate at which nobody sleeps.
    pub fn new(rt: &'a R) -> OpenGate<'a, R> {
        OpenGate {
            rt,
            asleep: AtomicU64::new(0),
        }
    }
}

impl<'a, R: time::Clock> Gate for OpenGate<'a, R> {
    fn before(&self, _node: u32, _index: u32) {}

    fn after(&self, _node: u32, _index: u32) {}

    fn idle(&self) {
        let others = self.asleep.fetch_add(1, Ordering::SeqCst);
        thread::sleep(self.rt, Duration::from_micros(nap_beside(others)));
        self.asleep.fetch_sub(1, Ordering::SeqCst);
    }
}
