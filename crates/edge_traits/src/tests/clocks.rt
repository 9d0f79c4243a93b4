//! Clocks, called through their trait.

use crate::{Clock, RealClock};
use std::io::ErrorKind;
use std::process::Abort;
use std::sync::atomic::{AtomicU64, Ordering};
use std::test::Fail;
use std::time::Duration;
use std::{io, time};

/// A machine's clock whose readings are these, in microseconds; one of 0 can't be had.
#[derive(Drop)]
struct Readings<'a> {
    micros: &'a [u64],
    read: AtomicU64,
}

impl<'a> time::Clock for Readings<'a> {
    fn monotonic(&self) -> io::Result<Duration> {
        let read = self.read.fetch_add(1, Ordering::SeqCst) as usize;
        match self.micros.get(read) {
            Some(micros) if *micros > 0 => Ok(Duration::from_micros(*micros)),
            _ => Err(io::Error::from(ErrorKind::Other)),
        }
    }

    fn since_1970(&self) -> io::Result<Duration> {
        Err(io::Error::from(ErrorKind::Unsupported))
    }
}

/// A clock over these readings gives these answers, and tells so many of them as faults.
fn ticks(rt: &impl Abort, micros: &[u64], answers: &[u64], faults: u64) {
    let machine = Readings {
        micros,
        read: AtomicU64::new(0),
    };
    let mut clock = RealClock::new(&machine);
    for answer in answers {
        assert_eq!(rt; clock.tick(), *answer);
    }
    assert_eq!(rt; clock.faults(), faults);
}

#[test]
fn real_clock_gives_milliseconds_since_it_was_made(rt: HostRuntime) -> Result<(), Fail> {
    let micros = [5_000_900, 5_000_950, 5_008_899, 0, 5_003_000, 6_501_000];
    ticks(&rt, &micros, &[0, 7, 7, 7, 1_500, 1_500], 2);
    ticks(&rt, &[0, 4_000, 6_500], &[0, 2], 1);
    let mut own = RealClock::new(&rt);
    let first = own.tick();
    assert!(rt; first <= own.tick());
    Ok(())
}
