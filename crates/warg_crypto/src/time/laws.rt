//! Laws of times and of their texts.

ghost use Rattle.std.specs.Prelude.{◌≡◌, ◌<◌, ◌<ℤ◌, ◌⊎◌, ◌↔◌, ℕ, List, Ok, IsTrue, true};
ghost use Rattle.std.specs.Fmt.{WritesOnOk, WritesStyledOnOk};
ghost use Rattle.std.specs.List.{fold};
ghost use Rattle.warg_crypto.specs.Time.Times.{Time, shown_time, time_hash_input};
ghost use Rattle.warg_crypto.specs.declared.time.time.TimeError.{TimeError};
ghost use Rattle.warg_crypto.specs.Time.TimeText.{IsTime, time_of, time_text};

use crate::time::time::{TimeError, Timestamp};
use std::fmt::{Display, Formatter, Result, Write};
use std::hash::{Hash, Hasher};

/// When `==` is true: exactly where both are identical. That is, of times, in seconds and nanoseconds; of why there is no such
/// time, in case.
pub fn equality()
    ensures times { (a b : Time) → (⟦<Timestamp as PartialEq>⟧.eq a b ≡ true) ↔ (a ≡ b) }
    ensures time_errors { (a b : TimeError) → (⟦<TimeError as PartialEq>⟧.eq a b ≡ true) ↔ (a ≡ b) }
{}

/// Times are ordered by seconds, then nanoseconds.
pub fn is_before(a: &Timestamp, b: &Timestamp) -> bool
    ensures { IsTrue result ↔ ((a.now.seconds <ℤ b.now.seconds) ⊎
        ((a.now.seconds ≡ b.now.seconds) × (a.now.nanos < b.now.nanos))) }
{
    a < b
}

/// What a hasher is fed of a time: its seconds, then its nanoseconds.
pub fn feed_time<H: Hasher>(time: &Timestamp, hasher: &mut H)
    ensures { hasher.new ≡ fold H.write hasher.old (time_hash_input time.now) }
{
    time.hash(hasher);
}

/// A time prints as seconds, a dot and nanoseconds.
pub fn print_time<W: Write>(time: &Timestamp, f: &mut Formatter<W>) -> Result
    ensures plain { WritesOnOk W.write_str_gives f.old result (shown_time time.now) f.new }
    ensures styled { WritesStyledOnOk W.write_str_gives f.old result (shown_time time.now) f.new }
{
    time.fmt(f)
}

/// The text of a time reads back as the time.
pub fn time_texts_read_back()
    ensures { (t : Time) (text : List ℕ) → IsTime t → time_text t ≡ Ok text → time_of text ≡ Ok t }
{}

/// A time that has a text prints as that text.
pub fn times_print_as_their_texts()
    ensures { (time : Time) (text : List ℕ) → time_text time ≡ Ok text → shown_time time ≡ text }
{}
