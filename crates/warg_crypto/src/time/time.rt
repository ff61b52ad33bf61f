//! Times, and what tells the time.

ghost use Rattle.std.specs.Prelude.{◌≡◌, ◌<◌, Some, refl};
ghost use Rattle.std.specs.Cmp.{partial_equiv_from_equiv};
ghost use Rattle.warg_crypto.specs.Time.Times.{Time, same_time, shown_time, time_cmp, time_from, time_hash_input};
ghost use Rattle.warg_crypto.specs.Time.TimesLaws.{same_time-time_cmp, same_time_equiv, time_cmp_partial, time_cmp_total, time_hash_input-same_time};

use itoa::Buffer;
use std::cmp::Ordering;
use std::fmt;
use std::hash::{Hash, Hasher};
use std::marker::Model;
use thiserror::Error;

const NANOS_OF_SECOND: i32 = 1_000_000_000;

/// Why there is no such time.
#[derive(Clone, Copy, Debug, PartialEq, Eq, Error)]
pub enum TimeError {
    /// The time lies before the epoch, where it may not.
    #[error("TimeBeforeEpoch")]
    TimeBeforeEpoch,
    /// The seconds leave the range of an `i64`.
    #[error("TimeOutOfRange")]
    TimeOutOfRange,
}

/// A point in time: seconds since the epoch, 1970-01-01T00:00:00Z, and the nanoseconds of the
/// second that began then, below 1_000_000_000. It prints as both, with a dot between, without
/// padding; its seconds may be negative. Times are ordered by seconds, then nanoseconds.
#[derive(Clone, Copy, Debug)]
pub struct Timestamp {
    seconds: i64,
    nanos: u32,
}

impl Model for Timestamp {
    ghost Value = { Time };

    ghost view = { λ t. record { seconds = t.seconds; nanos = t.nanos } };

    ghost invariant = { λ t. t.nanos < 1_000_000_000 };

    ghost inverse = { λ t. record { seconds = t.seconds; nanos = t.nanos } };
}

impl Timestamp {
    /// The time `seconds` after the epoch, and `nanos` nanoseconds more.
    pub fn new(seconds: i64, nanos: u32) -> Timestamp
        requires { nanos < 1_000_000_000 }
        ensures { result ≡ record { seconds = seconds; nanos = nanos } }
    {
        Timestamp { seconds, nanos }
    }

    /// The time `seconds` after the epoch, and `nanos` nanoseconds later, or earlier where they
    /// are negative. `TimeOutOfRange` if its seconds leave the range of an `i64`.
    pub fn from_parts(seconds: i64, nanos: i32) -> Result<Timestamp, TimeError>
        ensures { result ≡ time_from seconds nanos }
    {
        let carry = nanos.div_euclid(NANOS_OF_SECOND) as i64;
        let Some(seconds) = seconds.checked_add(carry) else {
            return Err(TimeError::TimeOutOfRange);
        };
        let nanos = nanos.rem_euclid(NANOS_OF_SECOND) as u32;
        Ok(Timestamp { seconds, nanos })
    }

    /// The whole seconds since the epoch, rounded down.
    pub fn seconds(&self) -> i64
        ensures { result ≡ self.now.seconds }
    {
        self.seconds
    }

    /// The nanoseconds of the second.
    pub fn nanos(&self) -> u32
        ensures value { result ≡ self.now.nanos }
        ensures below { self.now.nanos < 1_000_000_000 }
    {
        self.nanos
    }
}

impl PartialEq for Timestamp {
    ghost eq = { same_time };

    ghost laws = { partial_equiv_from_equiv same_time_equiv };

    fn eq(&self, other: &Timestamp) -> bool {
        (self.seconds, self.nanos) == (other.seconds, other.nanos)
    }
}

impl Eq for Timestamp {
    ghost laws = { same_time_equiv };
}

impl PartialOrd for Timestamp {
    ghost partial_cmp = { λ a b. Some (time_cmp a b) };

    ghost laws = { time_cmp_partial };

    fn partial_cmp(&self, other: &Timestamp) -> Option<Ordering> {
        Some(self.cmp(other))
    }
}

impl Ord for Timestamp {
    ghost cmp = { time_cmp };

    ghost total = { time_cmp_total };

    ghost matches_partial_cmp = { λ _ _. refl };

    ghost matches_eq = { same_time-time_cmp };

    fn cmp(&self, other: &Timestamp) -> Ordering {
        (self.seconds, self.nanos).cmp(&(other.seconds, other.nanos))
    }
}

impl Hash for Timestamp {
    ghost hash_input = { time_hash_input };

    ghost respects_eq = { time_hash_input-same_time };

    fn hash<H: Hasher>(&self, state: &mut H) {
        (self.seconds, self.nanos).hash(state);
    }
}

impl fmt::Display for Timestamp {
    ghost output = { λ t. Some (shown_time t) };

    ghost styled_output = { λ t _. Some (shown_time t) };

    fn fmt<W: fmt::Write>(&self, f: &mut fmt::Formatter<W>) -> fmt::Result {
        let mut buffer = Buffer::new();
        f.write_str(buffer.format(self.seconds))?;
        f.write_str(".")?;
        f.write_str(buffer.format(self.nanos))
    }
}

/// Tells the time. The system's clock is one, as [`SystemClock`](crate::time::SystemClock).
///
/// It is another trait than the toolchain's `std::rt::Clock`, which is the bound of a runtime whose
/// system has a clock: [`Timestamp::now`] reads such a runtime, and what takes a `&mut` of a clock,
/// as `TimestampedCheckpoint::now` of `warg_registry`, wants this trait. Where both are in one file,
/// write the other as `rt::Clock`, by `use std::rt`.
///
/// The least impl says which time it tells, by the clock as it stood and as it stands then. Here a
/// clock that ticks once a call:
///
/// ```
/// #[derive(Drop)]
/// struct Ticks {
///     next: u32,
/// }
///
/// impl Clock for Ticks {
///     ghost tells = { λ before time after. time ≡ record { seconds = pos before.next; nanos = 0 } };
///
///     fn now(&mut self) -> Timestamp {
///         let time = Timestamp::new(self.next as i64, 0);
///         self.next = self.next.wrapping_add(1);
///         time
///     }
/// }
/// ```
///
/// A clause of a function with a parameter `clock: &mut C`, where `C: Clock`, names the time as
/// `C.tells clock.old time clock.new`, with `Time` of `Rattle.warg_crypto.specs.Time.Times`:
///
/// ```
/// ensures { (time : Time) × C.tells clock.old time clock.new × (result ≡ time.seconds) }
/// ```
pub trait Clock {
    // A clock that stood as the first tells this time, and then stands as the second.
    ghost tells: { Self → Time → Self → Type 0 };

    /// The time that the clock tells now.
    fn now(&mut self) -> Timestamp
        ensures { tells self.old result self.new };
}
