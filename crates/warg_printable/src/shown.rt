//! A text as it is printed.

ghost use Rattle.std.specs.Prelude.{◌≡◌, ◌++◌, IfOk, OnOk, codes, string_bytes};
ghost use Rattle.std.specs.Fmt.{WritesOnOk, WritesStyledOnOk};
ghost use Rattle.std.specs.Str.{encode_utf8_all};
ghost use Rattle.warg_printable.specs.Characters.{number_escape};
ghost use Rattle.warg_printable.specs.Printable.{printable, shown_char};

use crate::characters::{are_plain, is_numbered};
use std::alloc::{AllocError, Global};
use std::fmt;
use std::fmt::{InlineText, Write};

/// A text, which is displayed as it is printed: `\u{..}` stands for each control character, each separator of lines, each
/// mark of direction and each noncharacter, and `\\` for a backslash.
#[derive(Clone, Copy, Debug)]
pub struct Printable<'a> {
    /// The text.
    pub text: &'a str,
    /// Whether a space is written as `\u{20}` too, so that the text is one word.
    pub spaces: bool,
}

// Writes a character by its number, under any formatting options.
fn write_number<W: Write>(c: u32, f: &mut fmt::Formatter<W>) -> fmt::Result
    ensures writes { WritesOnOk W.write_str_gives f.old result (number_escape c) f.new }
    ensures styled { WritesStyledOnOk W.write_str_gives f.old result (number_escape c) f.new }
{
    let mut digits = InlineText::<8>::new();
    write!(digits, "{c:x}")?;
    f.write_str("\\u{")?;
    f.write_str(digits.as_str())?;
    f.write_str("}")
}

// Writes what stands for a character.
fn write_shown<W: Write>(spaces: bool, c: char, f: &mut fmt::Formatter<W>) -> fmt::Result
    ensures writes { WritesOnOk W.write_str_gives f.old result
        (encode_utf8_all (shown_char spaces c)) f.new }
    ensures styled { WritesStyledOnOk W.write_str_gives f.old result
        (encode_utf8_all (shown_char spaces c)) f.new }
{
    if is_numbered(spaces, c as u32) {
        write_number(c as u32, f)
    } else if c == '\\' {
        f.write_str("\\\\")
    } else {
        f.write_char(c)
    }
}

impl fmt::Display for Printable<'_> {
    ghost use Rattle.std.specs.Prelude.{Some};
    ghost use Rattle.warg_printable.specs.Printable.{escaped};

    ghost output = { λ p. Some (escaped p.spaces p.text.now) };

    ghost styled_output = { λ p _. Some (escaped p.spaces p.text.now) };

    fn fmt<W: Write>(&self, f: &mut fmt::Formatter<W>) -> fmt::Result {
        let spaces = self.spaces;
        let mut rest = self.text.chars();
        while let Some(c) = rest.next() {
            write_shown(spaces, c, f)?;
        }
        Ok(())
    }
}

/// The text as it is printed.
pub fn printed(alloc: Global, text: &str) -> Result<String, AllocError>
    ensures { IfOk result (λ shown. string_bytes shown ≡ printable text.now) }
{
    let shown = Printable {
        text,
        spaces: false,
    };
    shown.to_string(alloc)
}

// Appends the text as it is printed.
#[tactic(auto, using(crate::proofs::SignLemmas::plain_text_stays))]
fn push_printed(text: &str, shown: &mut String) -> Result<(), AllocError>
    ensures { OnOk result (string_bytes shown.new ≡ string_bytes shown.old ++ printable text.now) }
{
    if are_plain(text.as_bytes()) {
        return shown.push_str(text);
    }
    let escaped = Printable {
        text,
        spaces: false,
    };
    write!(shown, "{escaped}")
}

/// Appends the text as it is printed, and a line feed.
pub fn push_printed_line(text: &str, shown: &mut String) -> Result<(), AllocError>
    ensures { OnOk result (string_bytes shown.new ≡ string_bytes shown.old ++
        (printable text.now ++ codes "\n")) }
{
    shown.reserve(text.len() + 1)?;
    push_printed(text, shown)?;
    shown.push_str("\n")
}

/// The text as it is printed, and a line feed.
pub fn printed_line(alloc: Global, text: &str) -> Result<String, AllocError>
    ensures { IfOk result (λ line. string_bytes line ≡ printable text.now ++ codes "\n") }
{
    let mut line = String::new(alloc);
    push_printed_line(text, &mut line)?;
    Ok(line)
}
