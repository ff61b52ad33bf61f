//! Which characters are printed as they are.

ghost use Rattle.std.specs.Prelude.{◌≡◌};
ghost use Rattle.std.specs.List.{list_all};
ghost use Rattle.warg_printable.specs.Characters.{is_control, is_from, is_hidden, is_mark, is_noncharacter, is_separator, is_sign};
ghost use Rattle.warg_printable.specs.Printable.{is_numbered, is_plain};

// Whether the character is one from low to high.
fn is_from(low: u32, high: u32, c: u32) -> bool
    ensures { result ≡ is_from low high c }
{
    low <= c && c <= high
}

// Whether the character is a control character.
fn is_control(c: u32) -> bool
    ensures { result ≡ is_control c }
{
    c < 32 || is_from(127, 159, c)
}

// Whether the character separates lines or paragraphs.
fn is_separator(c: u32) -> bool
    ensures { result ≡ is_separator c }
{
    is_from(0x2028, 0x2029, c)
}

// Whether the character is a mark of direction, or that of the byte order.
fn is_mark(c: u32) -> bool
    ensures { result ≡ is_mark c }
{
    c == 0x61C
        || is_from(0x200E, 0x200F, c)
        || is_from(0x202A, 0x202E, c)
        || is_from(0x2066, 0x2069, c)
        || c == 0xFEFF
}

// Whether the number is given to no character for good.
fn is_noncharacter(c: u32) -> bool
    ensures { result ≡ is_noncharacter c }
{
    is_from(0xFDD0, 0xFDEF, c) || c % 0x1_0000 >= 0xFFFE
}

/// Whether the character is never printed as it is.
#[tactic(auto, unfolding(crate::specs::Characters::is_hidden))]
pub(crate) fn is_hidden(c: u32) -> bool
    ensures { result ≡ is_hidden c }
{
    is_control(c) || is_separator(c) || is_mark(c) || is_noncharacter(c)
}

/// Whether the character is written by its number: a hidden one, and a space if that is wanted.
pub(crate) fn is_numbered(spaces: bool, c: u32) -> bool
    ensures { result ≡ is_numbered spaces c }
{
    is_hidden(c) || (spaces && c == 32)
}

// Whether the byte is a sign of ASCII.
fn is_sign(byte: u8) -> bool
    ensures { result ≡ is_sign byte }
{
    32 <= byte && byte <= 126
}

// Whether the byte is a sign of ASCII that is printed as it is.
fn is_plain(byte: u8) -> bool
    ensures { result ≡ is_plain byte }
{
    is_sign(byte) && byte != b'\\'
}

/// Whether all bytes are signs of ASCII.
pub(crate) fn are_signs(bytes: &[u8]) -> bool
    ensures { result ≡ list_all is_sign bytes.now }
{
    bytes.iter().all(|byte| is_sign(*byte))
}

/// Whether all bytes are signs of ASCII that are printed as they are.
pub(crate) fn are_plain(bytes: &[u8]) -> bool
    ensures { result ≡ list_all is_plain bytes.now }
{
    bytes.iter().all(|byte| is_plain(*byte))
}
