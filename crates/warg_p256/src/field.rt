// The field of the curve: numbers below the prime, in Montgomery's form.

ghost use Rattle.std.specs.Prelude.{◌≡◌, ℕ, ◌+◌, ◌*◌, ◌%◌, ◌^◌, ◌<◌, ◌↔◌, IsTrue};
ghost use Rattle.warg_modular.specs.Value.{value};
ghost use Rattle.warg_curve.specs.Field.{prime, plus, minus, times};
ghost use Rattle.warg_curve.specs.Group.{curve_b};
ghost use Rattle.warg_p256.specs.Elements.{number};

use crate::constants::{B_MONTGOMERY, ONE_P, P, P_INVERSE, R2_P, ZERO};
use warg_modular::montgomery;
use warg_modular::words::{self, Words, bit};

/// A number of the field.
#[derive(Clone, Copy)]
pub struct Element {
    pub words: Words,
    ghost reduced: { value words < prime },
}

/// 0.
#[inline(always)]
pub fn zero() -> Element
    ensures { number result.words ≡ 0 }
{
    Element { words: ZERO }
}

/// 1.
#[inline(always)]
pub fn one() -> Element
    ensures { number result.words ≡ 1 }
{
    Element { words: ONE_P }
}

/// The b of the curve's equation.
#[inline(always)]
pub fn curve_b() -> Element
    ensures { number result.words ≡ curve_b }
{
    Element {
        words: B_MONTGOMERY,
    }
}

/// a * b.
pub fn mul(a: Element, b: Element) -> Element
    ensures { number result.words ≡ times (number a.words) (number b.words) }
{
    Element {
        words: montgomery::mul(a.words, b.words, P, P_INVERSE),
    }
}

/// a * a.
pub fn square(a: Element) -> Element
    ensures { number result.words ≡ times (number a.words) (number a.words) }
{
    Element {
        words: montgomery::square(a.words, P, P_INVERSE),
    }
}

/// a + b.
#[inline(always)]
pub fn add(a: Element, b: Element) -> Element
    ensures { number result.words ≡ plus (number a.words) (number b.words) }
{
    Element {
        words: montgomery::sum(a.words, b.words, P),
    }
}

/// a - b.
#[inline(always)]
pub fn sub(a: Element, b: Element) -> Element
    ensures { number result.words ≡ minus (number a.words) (number b.words) }
{
    Element {
        words: montgomery::difference(a.words, b.words, P),
    }
}

/// The number modulo the prime.
pub fn to_montgomery(a: Words) -> Element
    ensures { number result.words ≡ value a % prime }
{
    Element {
        words: montgomery::mul(a, R2_P, P, P_INVERSE),
    }
}

/// The number as one below the prime.
pub fn from_montgomery(a: Element) -> Words
    ensures { value result ≡ number a.words }
{
    let one = Words {
        l0: 1,
        l1: 0,
        l2: 0,
        l3: 0,
    };
    montgomery::mul(a.words, one, P, P_INVERSE)
}

/// Whether the number is 0.
#[inline(always)]
pub fn is_zero(a: Element) -> bool
    ensures { IsTrue result ↔ (number a.words ≡ 0) }
{
    words::is_zero(a.words)
}

/// Whether the two are one number.
#[inline(always)]
pub fn is_equal(a: Element, b: Element) -> bool
    ensures { IsTrue result ↔ (number a.words ≡ number b.words) }
{
    words::is_equal(a.words, b.words)
}

/// The power, by one square a bit and one product a set bit.
pub fn pow(a: Element, exponent: Words) -> Element
    requires { value exponent < 2 ^ 256 }
    ensures { number result.words ≡ (number a.words ^ value exponent) % prime }
{
    let mut r = one();
    for i in (0..256u32).rev() {
        r = square(r);
        if bit(exponent, i) {
            r = mul(r, a);
        }
    }
    r
}
