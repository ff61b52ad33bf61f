//! Hex digits, written under any formatting options.

ghost use Rattle.std.specs.Prelude.{◌≡◌};
ghost use Rattle.std.specs.Fmt.{WritesOnOk, WritesStyledOnOk};
ghost use Rattle.hex.specs.Hex.{encode_lower};

use std::{fmt, str};

/// Writes the bytes in lower-case hex digits.
pub fn write_hex<W: fmt::Write>(bytes: &[u8], f: &mut fmt::Formatter<W>) -> fmt::Result
    ensures writes { WritesOnOk W.write_str_gives f.old result (encode_lower bytes.now) f.new }
    ensures styled { WritesStyledOnOk W.write_str_gives f.old result
        (encode_lower bytes.now) f.new }
{
    let mut buffer = [0u8; 512];
    'pieces: for piece in bytes.chunks(256) {
        let digits = &mut buffer[..2 * piece.len()];
        let Ok(()) = hex::encode_to_slice(piece, &mut *digits) else {
            unreachable!();
        };
        let Ok(text) = str::from_utf8(digits) else {
            unreachable!();
        };
        f.write_str(text)?;
    }
    Ok(())
}
