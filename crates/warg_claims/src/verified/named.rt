//! Texts of keys and signatures, written as printed words under any formatting options.

ghost use Rattle.std.specs.Prelude.{◌≡◌};
ghost use Rattle.std.specs.Fmt.{WritesOnOk, WritesStyledOnOk};
ghost use Rattle.warg_claims.specs.Verified.Claims.{named_word};

use std::fmt;
use warg_crypto::base64_text::write_base64;
use warg_crypto::laws::byte_range;
use warg_printable::Printable;

/// Writes the text of a key or a signature of this name and these bytes as a printed word.
pub fn write_named<W: fmt::Write>(
    name: &str,
    bytes: &[u8],
    f: &mut fmt::Formatter<W>,
) -> fmt::Result
    ensures writes { WritesOnOk W.write_str_gives f.old result
        (named_word (record { name = name.now; bytes = bytes.now })) f.new }
    ensures styled { WritesStyledOnOk W.write_str_gives f.old result
        (named_word (record { name = name.now; bytes = bytes.now })) f.new }
{
    byte_range(bytes);
    let word = Printable {
        text: name,
        spaces: true,
    };
    fmt::Display::fmt(&word, f)?;
    f.write_str(":")?;
    write_base64(bytes, f)
}
