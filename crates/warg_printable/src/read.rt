//! Printed texts, read back.

ghost use Rattle.std.specs.Prelude.{◌≡◌, IfOk, option_map, string_bytes};
ghost use Rattle.warg_printable.specs.Back.{IsTaken, backslash_turn, brace_turn, digit_turn, may_end, next_turn, number_turn, plain_turn, unprintable};

use std::alloc::{AllocError, Global};

/// Where a reader stands.
#[derive(Clone, Copy, Debug)]
pub enum Within {
    /// Behind a character.
    Plain,
    /// Behind a backslash.
    AfterBackslash,
    /// Behind `\u`.
    AfterU,
    /// Behind `\u{`.
    AfterBrace,
    /// Behind digits of a number, and what they say so far.
    InNumber(u32),
}

/// What a character does to a reader.
#[derive(Clone, Copy, Debug)]
pub enum Turn {
    /// It goes on from here.
    On(Within),
    /// This character is said.
    Said(char),
    /// The text is none that is printed.
    Bad,
}

// A character outside an escape.
fn plain_turn(c: char) -> Turn
    ensures { result ≡ plain_turn c }
{
    if c == '\\' {
        Turn::On(Within::AfterBackslash)
    } else {
        Turn::Said(c)
    }
}

// A character behind a backslash.
fn backslash_turn(c: char) -> Turn
    ensures { result ≡ backslash_turn c }
{
    if c == '\\' {
        Turn::Said('\\')
    } else if c == 'u' {
        Turn::On(Within::AfterU)
    } else {
        Turn::Bad
    }
}

// A character behind `\u`.
fn brace_turn(c: char) -> Turn
    ensures { result ≡ brace_turn c }
{
    if c == '{' {
        Turn::On(Within::AfterBrace)
    } else {
        Turn::Bad
    }
}

// One digit more of a number.
fn digit_turn(number: u32, c: char) -> Turn
    ensures { result ≡ digit_turn number c }
{
    let Some(digit) = c.to_digit(16) else {
        return Turn::Bad;
    };
    if number < 0x11_0000 && number * 16 + digit < 0x11_0000 {
        Turn::On(Within::InNumber(number * 16 + digit))
    } else {
        Turn::Bad
    }
}

// The character of a number.
fn number_turn(number: u32) -> Turn
    ensures { result ≡ number_turn number }
{
    match char::from_u32(number) {
        Some(c) => Turn::Said(c),
        None => Turn::Bad,
    }
}

// What the next character does.
fn next_turn(within: Within, c: char) -> Turn
    ensures { result ≡ next_turn within c }
{
    match within {
        Within::Plain => plain_turn(c),
        Within::AfterBackslash => backslash_turn(c),
        Within::AfterU => brace_turn(c),
        Within::AfterBrace => digit_turn(0, c),
        Within::InNumber(number) => {
            if c == '}' {
                number_turn(number)
            } else {
                digit_turn(number, c)
            }
        }
    }
}

// Where a turn leaves the reader, with what it says behind what was read.
fn taken(turn: Turn, read: &mut String) -> Result<Option<Within>, AllocError>
    ensures { IfOk result (λ within. IsTaken turn (string_bytes read.old) within
        (string_bytes read.new)) }
{
    match turn {
        Turn::On(next) => Ok(Some(next)),
        Turn::Said(c) => {
            read.push(c)?;
            Ok(Some(Within::Plain))
        }
        Turn::Bad => Ok(None),
    }
}

// Whether a text may end here.
fn may_end(within: Within) -> bool
    ensures { result ≡ may_end within }
{
    match within {
        Within::Plain => true,
        Within::AfterBackslash | Within::AfterU | Within::AfterBrace | Within::InNumber(_) => false,
    }
}

/// The text that a printed one stands for; none, where the text is none that is printed.
pub fn unprinted(alloc: Global, text: &str) -> Result<Option<String>, AllocError>
    ensures { IfOk result (λ read. option_map string_bytes read ≡ unprintable text.now) }
{
    let mut read = String::new(alloc);
    let mut within = Within::Plain;
    let mut rest = text.chars();
    while let Some(c) = rest.next() {
        let Some(next) = taken(next_turn(within, c), &mut read)? else {
            return Ok(None);
        };
        within = next;
    }
    if may_end(within) {
        Ok(Some(read))
    } else {
        Ok(None)
    }
}
