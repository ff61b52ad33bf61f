//! Times as texts: seconds, a dot, nanoseconds, in decimal without padding.

ghost use Rattle.std.specs.Prelude.{◌≡◌, ◌^◌, Ok, IfOk, string_bytes};
ghost use Rattle.warg_crypto.specs.Json.Json.{Returns, ReturnsOrNoMemory};
ghost use Rattle.warg_crypto.specs.Time.TimeText.{time_with_carry, number_of, time_of, time_sides, time_text};

use crate::json::JsonError;
use crate::time::ranges::signed_range;
use crate::time::time::Timestamp;
use std::alloc::Global;

const NANOS: u32 = 1_000_000_000;

const LAST: u64 = 9_223_372_036_854_775_807;

impl Timestamp {
    /// The text of the time: `TimeBeforeEpoch` if its seconds are negative.
    pub fn to_text(&self, alloc: Global) -> Result<String, JsonError>
        ensures text { ReturnsOrNoMemory string_bytes result (time_text self.now) }
        ensures back { IfOk result (λ text. time_of (string_bytes text) ≡ Ok self.now) }
    {
        let seconds = self.seconds();
        let nanos = self.nanos();
        signed_range(seconds);
        if seconds < 0 {
            return Err(JsonError::TimeBeforeEpoch);
        }
        let seconds = seconds as u64;
        Ok(format!(in alloc; "{seconds}.{nanos}")?)
    }

    /// The time of a text, whose nanoseconds are carried. `BadText`: a side of the first dot is no
    /// number in range; `TimeOutOfRange`: the seconds pass `i64`.
    pub fn parse_text(text: &str) -> Result<Timestamp, JsonError>
        ensures { Returns (λ t. t) result (time_of text.now) }
    {
        let Some((left, right)) = text.split_once('.') else {
            return Err(JsonError::BadText);
        };
        sides_time(left, right)
    }
}

// The time of the texts on both sides of the dot.
fn sides_time(left: &str, right: &str) -> Result<Timestamp, JsonError>
    ensures { Returns (λ t. t) result
        (time_sides (number_of (2 ^ 64) left.now) (number_of (2 ^ 32) right.now)) }
{
    let Ok(seconds) = left.parse::<u64>() else {
        return Err(JsonError::BadText);
    };
    let Ok(nanos) = right.parse::<u32>() else {
        return Err(JsonError::BadText);
    };
    carried(seconds, nanos)
}

// The time of seconds and nanoseconds, those of a whole second and more carried.
fn carried(seconds: u64, nanos: u32) -> Result<Timestamp, JsonError>
    ensures { Returns (λ t. t) result (time_with_carry seconds nanos) }
{
    let carry = (nanos / NANOS) as u64;
    if seconds > LAST - carry {
        return Err(JsonError::TimeOutOfRange);
    }
    Ok(Timestamp::new((seconds + carry) as i64, nanos % NANOS))
}
