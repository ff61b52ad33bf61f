//! Words that say how an id begins.

ghost use Rattle.std.specs.Prelude.{◌≡◌, IfOk};
ghost use Rattle.std.specs.Char.{is_ascii_hexdigit};
ghost use Rattle.std.specs.List.{list_all};
ghost use Rattle.tool_answers.specs.IdWords.{begins_as_said, is_id_word};

use std::alloc::{AllocError, Global};

// Whether each of the bytes is a hex digit, of either case.
fn are_digits(bytes: &[u8]) -> bool
    ensures { result ≡ list_all is_ascii_hexdigit bytes.now }
{
    bytes.iter().all(|byte| byte.is_ascii_hexdigit())
}

/// Whether the word is `sha256:` and eight to 64 hex digits, of either case.
pub fn is_id_word(word: &str) -> bool
    ensures { result ≡ is_id_word word.now }
{
    let bytes = word.as_bytes();
    if bytes.len() < 15 || bytes.len() > 71 {
        return false;
    }
    bytes.starts_with(b"sha256:") && are_digits(&bytes[7..])
}

/// Whether the text of an id begins with the word, whose case does not count.
pub fn begins_as_said(alloc: Global, word: &str, text: &str) -> Result<bool, AllocError>
    ensures { IfOk result (λ begins. begins ≡ begins_as_said word.now text.now) }
{
    let mut lower = String::from_str(alloc, word)?;
    lower.make_ascii_lowercase();
    Ok(text.as_bytes().starts_with(lower.as_bytes()))
}
