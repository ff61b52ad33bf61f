//! The time that a word says.

ghost use Rattle.std.specs.Prelude.{◌≡◌, ℤ, Ok, IfErr, IfOk, IsErr};
ghost use Rattle.jiff.specs.Words.{parse_timestamp};
ghost use Rattle.tool_changes.specs.Make.TimeWords.{IsAtNanosecond, IsTimeError, SaysTime};
ghost use Rattle.tool_changes.specs.declared.make.error.MakeError.TheVariants as error;

use crate::make::error::MakeError;
use warg_crypto::time::Timestamp;

const NANOS_OF_SECOND: i128 = 1_000_000_000;

// The time of an instant.
fn time_at(instant: jiff::Timestamp) -> Timestamp
    ensures { IsAtNanosecond instant.nanosecond result }
{
    let since_1970 = instant.as_nanosecond();
    let seconds = since_1970.div_euclid(NANOS_OF_SECOND) as i64;
    let nanos = since_1970.rem_euclid(NANOS_OF_SECOND) as u32;
    Timestamp::new(seconds, nanos)
}

// The time of a date, a time of day and an offset.
fn dated(word: &str) -> Result<Timestamp, MakeError>
    ensures ok { IfOk result (λ time. (instant : ℤ) × ((parse_timestamp word.now ≡ Ok instant) ×
        IsAtNanosecond instant time)) }
    ensures err { IfErr result (λ it. (it ≡ error.BadTime) × IsErr (parse_timestamp word.now)) }
{
    match word.parse::<jiff::Timestamp>() {
        Ok(instant) => Ok(time_at(instant)),
        Err(_) => Err(MakeError::BadTime),
    }
}

/// The time that the word says, where the clock tells this one.
pub(crate) fn said_time(clock: Option<Timestamp>, word: &str) -> Result<Timestamp, MakeError>
    ensures ok { IfOk result (λ time. SaysTime clock word.now time) }
    ensures err { IfErr result (IsTimeError clock word.now) }
{
    if word == "now" {
        return clock.ok_or(MakeError::NoClock);
    }
    match Timestamp::parse_text(word) {
        Ok(time) => Ok(time),
        Err(_) => dated(word),
    }
}
