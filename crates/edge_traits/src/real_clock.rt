//! The clock of the running machine.

ghost use Rattle.std.specs.Prelude.{◌≡◌, ◌≤◌, ◌-◌, ◌/◌, ◌^◌, min};
ghost use Rattle.std.specs.Time.{instant_nanos};

use crate::Clock;
use std::marker::Model;
use std::time;
use std::time::Instant;

/// The milliseconds since it was made, by the clock of the running machine that never goes back.
/// Where that can't be read the last answer comes again.
#[derive(Drop)]
pub struct RealClock<'a, R: time::Clock> {
    rt: &'a R,
    start: Option<Instant>,
    last: u64,
    faults: u64,
}

impl<'a, R: time::Clock> Model for RealClock<'a, R> {
    ghost use Rattle.edge_traits.specs.Ticks.{Reading};

    ghost Value = { Reading };

    ghost view = { λ s. record { last = s.last; faults = s.faults } };
}

/// The whole milliseconds from one moment to another.
fn millis_between(start: Instant, now: Instant) -> u64
    ensures { result ≡ min ((instant_nanos now - instant_nanos start) / 1_000_000) (2 ^ 64 - 1) }
{
    let millis = now.duration_since(start).as_millis();
    u64::try_from(millis).unwrap_or(u64::MAX)
}

impl<'a, R: time::Clock> RealClock<'a, R> {
    /// A clock that begins now. Where the machine's can't be read, it begins at the first answer.
    pub fn new(rt: &'a R) -> RealClock<'a, R>
        ensures { result.last ≡ 0 }
    {
        let start = Instant::now(rt).ok();
        let faults = if start.is_some() { 0 } else { 1 };
        RealClock {
            rt,
            start,
            last: 0,
            faults,
        }
    }

    /// How often the machine's clock couldn't be read.
    pub fn faults(&self) -> u64
        ensures { result ≡ self.now.faults }
    {
        self.faults
    }
}

impl<'a, R: time::Clock> Clock for RealClock<'a, R> {
    ghost use Rattle.std.specs.Prelude.{None};

    ghost coming = { λ s. None };

    fn tick(&mut self) -> u64
        ensures last { result ≡ self.new.last }
        ensures stands { self.old.last ≤ self.new.last }
        ensures faults { self.old.faults ≤ self.new.faults }
    {
        match Instant::now(self.rt) {
            Ok(now) => {
                let start = *self.start.get_or_insert(now);
                self.last = self.last.max(millis_between(start, now));
            }
            Err(_) => self.faults = self.faults.saturating_add(1),
        }
        self.last
    }
}
