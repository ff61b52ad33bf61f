// The DER of a signature (RFC 3279, 2.2.3): SEQUENCE { INTEGER r, INTEGER s }.

ghost use Rattle.std.specs.Prelude.{◌≡◌, ℕ, ◌<◌, ◌++◌, List, [], ◌∷◌, length, IfSome, IfNone};
ghost use Rattle.warg_modular.specs.Value.{value};
ghost use Rattle.warg_p256.specs.Der.{IsInteger, IsDer, integer as integer_text};

use warg_modular::words::{Words, from_be_bytes};

// The two numbers of a signature.
#[derive(Clone, Copy)]
pub(crate) struct Signature {
    pub(crate) r: Words,
    pub(crate) s: Words,
}

// The number that an INTEGER's contents write: not negative, in as few bytes as serve, and below
// 2 ^ 256.
fn number(contents: &[u8]) -> Option<Words>
    ensures some { IfSome result (λ n. IsInteger contents.now (value n)) }
    ensures none { IfNone result ((n : ℕ) → IsInteger contents.now n → ⊥) }
{
    if contents.is_empty() || contents.len() > 33 || contents[0] >= 128 {
        return None;
    }
    if contents.len() > 1 && contents[0] == 0 && contents[1] < 128 {
        return None;
    }
    if contents.len() == 33 && contents[0] != 0 {
        return None;
    }
    Some(from_be_bytes(contents))
}

// The contents of the INTEGER that the bytes begin with, and the bytes after it.
fn integer(bytes: &[u8]) -> Option<(&[u8], &[u8])>
    ensures some { IfSome result (λ p. bytes.now ≡ integer_text p.0.now p.1.now) }
    ensures none { IfNone result ((contents rest : List ℕ) → length contents < 128 →
        bytes.now ≡ integer_text contents rest → ⊥) }
{
    if bytes.len() < 2 || bytes[0] != 2 || bytes[1] >= 128 {
        return None;
    }
    let end = 2 + bytes[1] as usize;
    if bytes.len() < end {
        return None;
    }
    Some((&bytes[2..end], &bytes[end..]))
}

// The two numbers, if the bytes are their DER and no byte is left.
pub(crate) fn parse(bytes: &[u8]) -> Option<Signature>
    ensures some { IfSome result (λ g. IsDer bytes.now (value g.r) (value g.s)) }
    ensures none { IfNone result ((r : ℕ) → (s : ℕ) → IsDer bytes.now r s → ⊥) }
{
    if bytes.len() < 2
        || bytes[0] != 0x30
        || bytes[1] >= 128
        || bytes[1] as usize + 2 != bytes.len()
    {
        return None;
    }
    let (first, rest) = integer(&bytes[2..])?;
    let (second, end) = integer(rest)?;
    if !end.is_empty() {
        return None;
    }
    let r = number(first)?;
    let s = number(second)?;
    Some(Signature { r, s })
}
