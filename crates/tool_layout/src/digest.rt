//! Texts of digests.

ghost use Rattle.std.specs.Prelude.{◌≡◌, option_map};
ghost use Rattle.std.specs.List.{list_all};
ghost use Rattle.tool_layout.specs.Digests.{are_digits, behind_sha256, is_digest, is_hex_digit};

// What stands behind `sha256:`, where a text begins so.
pub(crate) fn behind_sha256(text: &str) -> Option<&str>
    ensures { option_map (λ it. it.now) result ≡ behind_sha256 text.now }
{
    match text.split_once(':') {
        Some((algorithm, digits)) if algorithm == "sha256" => Some(digits),
        _ => None,
    }
}

fn is_hex_digit(byte: u8) -> bool
    ensures { result ≡ is_hex_digit byte }
{
    (48 <= byte && byte <= 57) || (97 <= byte && byte <= 102)
}

fn are_hex_digits(bytes: &[u8]) -> bool
    ensures { result ≡ list_all is_hex_digit bytes.now }
{
    bytes.iter().all(|byte| is_hex_digit(*byte))
}

/// Whether these are the digits of a digest: 64 lower-case hex digits.
pub(crate) fn are_digits(digits: &str) -> bool
    ensures { result ≡ are_digits digits.now }
{
    digits.len() == 64 && are_hex_digits(digits.as_bytes())
}

/// Whether the text is a digest: `sha256:` and its digits.
pub(crate) fn is_digest(text: &str) -> bool
    ensures { result ≡ is_digest text.now }
{
    match behind_sha256(text) {
        Some(digits) => are_digits(digits),
        None => false,
    }
}
