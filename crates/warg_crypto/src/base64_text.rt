//! Base64, written under any formatting options.

ghost use Rattle.std.specs.Prelude.{◌≡◌};
ghost use Rattle.std.specs.Fmt.{WritesOnOk, WritesStyledOnOk};
ghost use Rattle.base64.specs.Engines.{standard};
ghost use Rattle.base64.specs.GeneralPurpose.{encode_of};

use base64::engine::general_purpose::STANDARD;
use std::{fmt, str};

/// Writes the bytes in base64, under every formatting option; of `Base64Display` no clause says what options do.
pub fn write_base64<W: fmt::Write>(bytes: &[u8], f: &mut fmt::Formatter<W>) -> fmt::Result
    ensures writes { WritesOnOk W.write_str_gives f.old result
        (encode_of standard bytes.now) f.new }
    ensures styled { WritesStyledOnOk W.write_str_gives f.old result
        (encode_of standard bytes.now) f.new }
{
    // A piece of a multiple of three bytes needs no padding, so only the last one may have it.
    let mut buffer = [0u8; 1024];
    'pieces: for piece in bytes.chunks(768) {
        let Ok(len) = STANDARD.encode_slice(piece, &mut buffer) else {
            unreachable!();
        };
        let Ok(text) = str::from_utf8(&buffer[..len]) else {
            unreachable!();
        };
        f.write_str(text)?;
    }
    Ok(())
}
