//! Times as the system's clock tells them. What that clock tells is trusted.

ghost use Rattle.std.specs.Prelude.{◌≡◌, ◌≤ℤ◌, pos, IfOk};
ghost use Rattle.warg_crypto.specs.Time.Times.{IsNotAfter};

use crate::time::time::{Clock, Timestamp};
use std::marker::Model;
use std::{fmt, io, rt};

impl Timestamp {
    /// The time that the system's clock tells. It fails where that clock can't be read, or is past
    /// the range of an `i64` of seconds. No clause can say which time it is.
    pub fn now<R: rt::Clock>(rt: &R) -> io::Result<Timestamp>
        ensures { IfOk result (λ time. pos 0 ≤ℤ time.seconds) }
    {
        let since_epoch = rt.since_1970()?;
        let Ok(seconds) = i64::try_from(since_epoch.as_secs()) else {
            return Err(io::Error::other("the clock is out of range"));
        };
        Ok(Timestamp::new(seconds, since_epoch.subsec_nanos()))
    }
}

/// The system's clock, for the calls that take a [`Clock`]. It never tells an earlier time than it
/// told before: where the system's clock went back, or can't be read, it tells the last one again.
#[derive(Drop)]
pub struct SystemClock<R> {
    rt: R,
    last: Timestamp,
}

impl<R> Model for SystemClock<R> {
    ghost use Rattle.warg_crypto.specs.Time.Times.{Time};

    ghost Value = { Time };

    ghost view = { λ clock. clock.last };
}

impl<R> fmt::Debug for SystemClock<R> {
    fn fmt<W: fmt::Write>(&self, f: &mut fmt::Formatter<W>) -> fmt::Result {
        f.debug_struct("SystemClock")
            .field("last", &self.last)
            .finish()
    }
}

impl<R: rt::Clock + Drop> SystemClock<R> {
    /// The clock of the runtime, read once.
    pub fn start(rt: R) -> io::Result<SystemClock<R>>
        ensures { IfOk result (λ clock. pos 0 ≤ℤ clock.seconds) }
    {
        let last = Timestamp::now(&rt)?;
        Ok(SystemClock { rt, last })
    }
}

impl<R: rt::Clock> Clock for SystemClock<R> {
    // The clock is seen as the last time that it told.
    ghost tells = { λ before time after. (after ≡ time) × IsNotAfter before time };

    fn now(&mut self) -> Timestamp {
        if let Ok(time) = Timestamp::now(&self.rt) {
            if self.last < time {
                self.last = time;
            }
        }
        self.last
    }
}
