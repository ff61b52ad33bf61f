//! Clocks: the system's, and a client's.

ghost use Rattle.std.specs.Prelude.{◌≡◌};

use crate::crypto::values::is;
use std::cell::Cell;
use std::time::Duration;
use std::{io, rt};
use warg_crypto::time::{Clock, SystemClock, Timestamp};

#[test]
fn time_of_the_system(rt: HostRuntime) {
    let time = Timestamp::now(&rt).expect(&rt, "a clock");
    // The start of 2020.
    assert!(rt; time.seconds() > 1_577_836_800);
    let mut clock = SystemClock::start(&rt).expect(&rt, "a clock");
    let first = clock.now();
    assert!(rt; time <= first);
    assert!(rt; first <= clock.now());
}

// A clock of the system that tells each of these seconds in turn, and fails where there is none.
#[derive(Drop)]
struct Told<'a> {
    times: &'a [Option<u64>],
    next: Cell<usize>,
}

impl rt::Clock for Told<'_> {
    fn monotonic(&self) -> io::Result<Duration> {
        self.since_1970()
    }

    fn since_1970(&self) -> io::Result<Duration> {
        let place = self.next.get();
        self.next.set(place.wrapping_add(1));
        match self.times.get(place) {
            Some(Some(seconds)) => Ok(Duration::from_secs(*seconds)),
            _ => Err(io::Error::other("no time")),
        }
    }
}

#[test]
fn times_that_never_go_back(rt: HostRuntime) {
    let told = Told {
        times: &[Some(7), Some(9), Some(8), None, Some(u64::MAX), Some(10)],
        next: Cell::new(0),
    };
    let mut clock = SystemClock::start(&told).expect(&rt, "a clock");
    for seconds in [9, 9, 9, 9, 10, 10] {
        is(&rt, clock.now(), Timestamp::new(seconds, 0));
    }
}

#[test]
fn clocks_that_cannot_be_read(rt: HostRuntime) {
    let told = Told {
        times: &[
            None,
            Some(9_223_372_036_854_775_808),
            Some(9_223_372_036_854_775_807),
        ],
        next: Cell::new(0),
    };
    is(&rt, Timestamp::now(&told).is_err(), true);
    is(&rt, Timestamp::now(&told).is_err(), true);
    is(
        &rt,
        Timestamp::now(&told).ok(),
        Some(Timestamp::new(i64::MAX, 0)),
    );
}

// Tells the seconds of a counter that rises at each call.
#[derive(Drop)]
struct Ticks {
    next: u32,
}

impl Clock for Ticks {
    ghost use Rattle.std.specs.Prelude.{◌≡◌, pos};

    ghost tells = { λ before time after. (time.seconds ≡ pos before.next) × (time.nanos ≡ 0) };

    fn now(&mut self) -> Timestamp {
        let time = Timestamp::new(self.next as i64, 0);
        self.next = self.next.wrapping_add(1);
        time
    }
}

#[test]
fn clock_of_a_client(rt: HostRuntime) {
    let mut ticks = Ticks { next: 7 };
    is(&rt, ticks.now(), Timestamp::new(7, 0));
    is(&rt, ticks.now(), Timestamp::new(8, 0));
}
