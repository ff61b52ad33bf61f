//! Hex digits, each looked at once and without a branch.

ghost use Rattle.std.specs.Prelude.{◌≡◌, ◌*◌, length, is_ok, IsTrue, unwrap_or, Ok};
ghost use Rattle.hex.specs.Hex.{decode_of, hex_digit_value};

// The value of a digit of either case; 16 for another byte. Without a table, so that many digits can be read at once.
fn digit_value(byte: u8) -> u8
    ensures { result ≡ unwrap_or (hex_digit_value byte) 16 }
{
    let decimal = byte.wrapping_sub(b'0');
    let small = byte.wrapping_sub(b'a');
    let capital = byte.wrapping_sub(b'A');
    if decimal < 10 {
        decimal
    } else if small < 6 {
        small + 10
    } else if capital < 6 {
        capital + 10
    } else {
        16
    }
}

/// Writes the bytes that the pairs of digits spell, and returns whether all are digits.
/// Where they are not, what `bytes` then holds is not specified.
pub fn decode_pairs(digits: &[u8], bytes: &mut [u8]) -> bool
    requires { length digits.now ≡ 2 * length bytes.old }
    ensures spelled { result ≡ is_ok (decode_of digits.now) }
    ensures bytes { IsTrue result → decode_of digits.now ≡ Ok bytes.new }
{
    let mut wrong = false;
    'bytes: for i in 0..bytes.len() {
        let high = digit_value(digits[2 * i]);
        let low = digit_value(digits[2 * i + 1]);
        wrong = wrong | (high > 15) | (low > 15);
        bytes[i] = high % 16 * 16 + low % 16;
    }
    !wrong
}
