//! JSON, as it is printed.

ghost use Rattle.std.specs.Prelude.{◌≡◌, ◌<◌, ◌++◌, [], ◌∷◌, IfOk, OnOk, string_bytes};
ghost use Rattle.std.specs.Char.{digit_char};
ghost use Rattle.std.specs.Str.{encode_utf8_all};
ghost use Rattle.warg_printable.specs.Json.{json_char, json_escape, json_printable, unit_escape};

use crate::characters::{are_signs, is_hidden};
use std::alloc::{AllocError, Global};

// Appends a hex digit.
fn push_digit(digit: u32, json: &mut String) -> Result<(), AllocError>
    requires { digit < 16 }
    ensures { OnOk result (string_bytes json.new ≡ string_bytes json.old ++
        digit_char digit ∷ []) }
{
    let Some(glyph) = char::from_digit(digit, 16) else {
        unreachable!();
    };
    json.push(glyph)
}

// Appends the escape of a unit of UTF-16.
fn push_unit(unit: u32, json: &mut String) -> Result<(), AllocError>
    ensures { OnOk result (string_bytes json.new ≡ string_bytes json.old ++ unit_escape unit) }
{
    json.push_str("\\u")?;
    push_digit(unit / 0x1000 % 16, json)?;
    push_digit(unit / 0x100 % 16, json)?;
    push_digit(unit / 0x10 % 16, json)?;
    push_digit(unit % 16, json)
}

// Appends the escape of a character.
fn push_escape(c: u32, json: &mut String) -> Result<(), AllocError>
    requires { c < 0x11_0000 }
    ensures { OnOk result (string_bytes json.new ≡ string_bytes json.old ++ json_escape c) }
{
    if c < 0x1_0000 {
        return push_unit(c, json);
    }
    push_unit(0xD800 + (c - 0x1_0000) / 0x400, json)?;
    push_unit(0xDC00 + (c - 0x1_0000) % 0x400, json)
}

// Appends what stands for a character.
#[tactic(auto, using(crate::proofs::JsonLemmas::json_hidden))]
fn push_char(c: char, json: &mut String) -> Result<(), AllocError>
    ensures { OnOk result (string_bytes json.new ≡ string_bytes json.old ++
        encode_utf8_all (json_char c)) }
{
    if is_hidden(c as u32) {
        push_escape(c as u32, json)
    } else {
        json.push(c)
    }
}

/// The JSON text as it is printed: `\uXXXX` stands for each hidden character, which says the same in a string of JSON,
/// and no such character stands elsewhere in JSON that has no white space.
#[tactic(auto, using(crate::proofs::SignLemmas::signs_stay_in_json))]
pub fn json_printed(alloc: Global, text: &str) -> Result<String, AllocError>
    ensures { IfOk result (λ json. string_bytes json ≡ json_printable text.now) }
{
    if are_signs(text.as_bytes()) {
        return String::from_str(alloc, text);
    }
    let mut json = String::new(alloc);
    let mut rest = text.chars();
    while let Some(c) = rest.next() {
        push_char(c, &mut json)?;
    }
    Ok(json)
}
