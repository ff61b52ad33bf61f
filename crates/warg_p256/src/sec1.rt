// A point of the curve as SEC 1, 2.3.3, writes it, compressed or not. The hybrid form of X9.62 is
// refused.

ghost use Rattle.std.specs.Prelude.{◌≡◌, ℕ, ◌+◌, ◌⊎◌, ◌%◌, ◌^◌, ◌<◌, ◌≤◌, IfSome, IfNone};
ghost use Rattle.std.specs.Int.{from_bool};
ghost use Rattle.warg_curve.specs.Field.{prime, times};
ghost use Rattle.warg_p256.specs.Elements.{number};
ghost use Rattle.warg_modular.specs.BigEndian.{big_endian};
ghost use Rattle.warg_curve.specs.Group.{right_side_of};
ghost use Rattle.warg_p256.specs.Sec1.{IsUncompressed, IsCompressed, IsKey};

use crate::constants::{P, ROOT_EXPONENT};
use crate::field::{
    Element, add, curve_b, from_montgomery, is_equal, mul, pow, square, sub, to_montgomery, zero,
};
use crate::point::Affine;
use warg_modular::words::{from_be_bytes, is_less};

// x ^ 3 - 3 * x + b, the right side of the curve's equation.
fn right_side(x: Element) -> Element
    ensures { number result.words ≡ right_side_of (number x.words) }
{
    let cube = mul(square(x), x);
    add(sub(cube, add(add(x, x), x)), curve_b())
}

// A number of the field with this square, if there is one. The prime is 3 modulo 4, so a power of
// the square is a root.
fn root(right: Element) -> Option<Element>
    ensures some { IfSome result
        (λ y. times (number y.words) (number y.words) ≡ number right.words) }
    ensures none { IfNone result
        ((t : ℕ) → t < prime → times t t ≡ number right.words → ⊥) }
{
    let y = pow(right, ROOT_EXPONENT);
    if is_equal(square(y), right) {
        return Some(y);
    }
    None
}

// The one of y and -y that is odd, or even.
fn with_parity(y: Element, is_odd: bool) -> Option<Element>
    ensures some { IfSome result
        (λ z. (times (number z.words) (number z.words) ≡ times (number y.words) (number y.words))
        × (number z.words % 2 ≡ from_bool is_odd)) }
    ensures none { IfNone result ((t : ℕ) → t < prime →
        times t t ≡ times (number y.words) (number y.words) → t % 2 ≡ from_bool is_odd → ⊥) }
{
    if is_odd_number(y) == is_odd {
        return Some(y);
    }
    let z = sub(zero(), y);
    if is_odd_number(z) == is_odd {
        return Some(z);
    }
    None
}

// Whether a number of the field, as one below the prime, is odd.
fn is_odd_number(y: Element) -> bool
    ensures { number y.words % 2 ≡ from_bool result }
{
    from_montgomery(y).l0 % 2 == 1
}

// The number that the bytes write, where it is below the prime.
fn coordinate(bytes: &[u8]) -> Option<Element>
    ensures some { IfSome result (λ x. number x.words ≡ big_endian bytes.now % 2 ^ 256) }
    ensures none { IfNone result (prime ≤ big_endian bytes.now % 2 ^ 256) }
{
    let x = from_be_bytes(bytes);
    if is_less(x, P) {
        return Some(to_montgomery(x));
    }
    None
}

// The point in 65 bytes: 4, x and y.
fn uncompressed(bytes: &[u8]) -> Option<Affine>
    ensures some { IfSome result
        (λ p. IsUncompressed bytes.now (number p.x.words) (number p.y.words)) }
    ensures none { IfNone result ((x : ℕ) → (y : ℕ) → IsUncompressed bytes.now x y → ⊥) }
{
    if bytes.len() != 65 || bytes[0] != 4 {
        return None;
    }
    let x = coordinate(&bytes[1..33])?;
    let y = coordinate(&bytes[33..65])?;
    if !is_equal(square(y), right_side(x)) {
        return None;
    }
    Some(Affine { x, y })
}

// Whether the y of a compressed point is odd, by its first byte.
fn parity_of(tag: u8) -> Option<bool>
    ensures some { IfSome result (λ b. tag ≡ 2 + from_bool b) }
    ensures none { IfNone result ((n : ℕ) → n < 2 → tag ≡ 2 + n → ⊥) }
{
    match tag {
        2 => Some(false),
        3 => Some(true),
        _ => None,
    }
}

// The point in 33 bytes: 2 or 3, and x.
fn compressed(bytes: &[u8]) -> Option<Affine>
    ensures some { IfSome result
        (λ p. IsCompressed bytes.now (number p.x.words) (number p.y.words)) }
    ensures none { IfNone result ((x : ℕ) → (y : ℕ) → IsCompressed bytes.now x y → ⊥) }
{
    if bytes.len() != 33 {
        return None;
    }
    let is_odd = parity_of(bytes[0])?;
    let x = coordinate(&bytes[1..33])?;
    let any = root(right_side(x))?;
    let y = with_parity(any, is_odd)?;
    Some(Affine { x, y })
}

// The point that a key's bytes write.
pub(crate) fn parse(bytes: &[u8]) -> Option<Affine>
    ensures some { IfSome result (λ p. IsKey bytes.now (number p.x.words) (number p.y.words)) }
    ensures none { IfNone result ((x : ℕ) → (y : ℕ) → IsKey bytes.now x y → ⊥) }
{
    match uncompressed(bytes) {
        Some(p) => Some(p),
        None => compressed(bytes),
    }
}
