// The numbers modulo the order of the base point, in Montgomery's form.

ghost use Rattle.std.specs.Prelude.{◌≡◌, ℕ, ◌+◌, ◌-◌, ◌*◌, ◌%◌, ◌^◌, ◌<◌};
ghost use Rattle.warg_modular.specs.Value.{value};
ghost use Rattle.warg_curve.specs.Order.{order};
ghost use Rattle.warg_p256.specs.Scalars.{scalar};

use crate::constants::{N, N_INVERSE, R2_N, ZERO};
use warg_modular::montgomery;
use warg_modular::words::{Words, half, is_even, is_less, is_zero, sub};

/// A number below the order.
#[derive(Clone, Copy)]
pub struct Scalar {
    pub words: Words,
    ghost reduced: { value words < order },
}

/// The product: in Montgomery's form if both are, and the plain one if only `b` is.
pub fn mul(a: Words, b: Scalar) -> Scalar
    ensures form { scalar result.words ≡ (scalar a * scalar b.words) % order }
    ensures plain { value result.words ≡ (value a * scalar b.words) % order }
{
    Scalar {
        words: montgomery::mul(a, b.words, N, N_INVERSE),
    }
}

/// The number modulo the order, in Montgomery's form.
pub fn to_montgomery(a: Words) -> Scalar
    ensures { scalar result.words ≡ value a % order }
{
    mul(a, Scalar { words: R2_N })
}

// 0.
#[inline(always)]
fn zero() -> Scalar
    ensures { scalar result.words ≡ 0 }
{
    Scalar { words: ZERO }
}

// 2 ^ 256, in Montgomery's form.
#[inline(always)]
fn radix() -> Scalar
    ensures { scalar result.words ≡ 2 ^ 256 % order }
{
    Scalar { words: R2_N }
}

// a - b.
#[inline(always)]
fn difference(a: Scalar, b: Scalar) -> Scalar
    ensures { (scalar result.words + scalar b.words) % order ≡ scalar a.words }
{
    Scalar {
        words: montgomery::difference(a.words, b.words, N),
    }
}

// a / 2.
#[inline(always)]
fn halved(a: Scalar) -> Scalar
    ensures { (scalar result.words * 2) % order ≡ scalar a.words }
{
    Scalar {
        words: montgomery::halved(a.words, N),
    }
}

/// The inverse of a number in Montgomery's form, in that form, and 0 for 0: by Euclid's algorithm
/// in halves. Modulo the order s * a is u and r * a is v throughout.
pub fn inverse(a: Scalar) -> Scalar
    ensures { scalar result.words ≡ (scalar a.words ^ (order - 2)) % order }
{
    if is_zero(a.words) {
        return a;
    }
    let mut u = a.words;
    let mut v = N;
    let mut s = radix();
    let mut r = zero();
    while !is_zero(u) {
        if is_even(u) {
            u = half(u, false);
            s = halved(s);
        } else if is_less(u, v) {
            let (rest, _) = sub(v, u);
            let next = halved(difference(r, s));
            v = u;
            r = s;
            u = half(rest, false);
            s = next;
        } else {
            let (rest, _) = sub(u, v);
            u = half(rest, false);
            s = halved(difference(s, r));
        }
    }
    r
}
