//! Products modulo an odd number `p`, by Montgomery's method. `inverse` is -1 / p modulo 2 ^ 64.

ghost use Rattle.std.specs.Prelude.{◌≡◌, ℕ, ◌+◌, ◌*◌, ◌%◌, ◌^◌, ◌<◌, ◌≤◌};
ghost use Rattle.std.specs.Int.{from_bool};
ghost use Rattle.warg_modular.specs.Value.{value, wide, squares, IsRound};

use crate::words::{Words, add, add_with_carry, half, select, sub};

/// A number below 2 ^ 512 in eight words, the low four first.
#[derive(Clone, Copy)]
pub struct Wide {
    pub low: Words,
    pub high: Words,
}

// t + a * b: the lowest word, and the four above it.
#[inline(always)]
fn row(t: Words, a: u64, b: Words) -> (u64, Words)
    ensures { result.0 + value result.1 * 2 ^ 64 ≡ value t + a * value b }
{
    let (low, c) = a.carrying_mul_add(b.l0, 0, t.l0);
    let (l0, c) = a.carrying_mul_add(b.l1, c, t.l1);
    let (l1, c) = a.carrying_mul_add(b.l2, c, t.l2);
    let (l2, l3) = a.carrying_mul_add(b.l3, c, t.l3);
    (low, Words { l0, l1, l2, l3 })
}

// a * b.
#[inline(always)]
fn wide_product(a: Words, b: Words) -> Wide
    ensures { wide result ≡ value a * value b }
{
    let zero = Words {
        l0: 0,
        l1: 0,
        l2: 0,
        l3: 0,
    };
    let (l0, t) = row(zero, a.l0, b);
    let (l1, t) = row(t, a.l1, b);
    let (l2, t) = row(t, a.l2, b);
    let (l3, t) = row(t, a.l3, b);
    Wide {
        low: Words { l0, l1, l2, l3 },
        high: t,
    }
}

// a * a without the squares of the words: each product of two words is taken once, and doubled.
#[inline(always)]
fn cross_products(a: Words) -> Wide
    ensures { wide result + squares a ≡ value a * value a }
{
    let (w1, c) = a.l0.carrying_mul_add(a.l1, 0, 0);
    let (w2, c) = a.l0.carrying_mul_add(a.l2, c, 0);
    let (w3, w4) = a.l0.carrying_mul_add(a.l3, c, 0);
    let (w3, c) = a.l1.carrying_mul_add(a.l2, 0, w3);
    let (w4, w5) = a.l1.carrying_mul_add(a.l3, c, w4);
    let (w5, w6) = a.l2.carrying_mul_add(a.l3, 0, w5);
    let (l1, c) = w1.carrying_mul_add(2, 0, 0);
    let (l2, c) = w2.carrying_mul_add(2, c, 0);
    let (l3, c) = w3.carrying_mul_add(2, c, 0);
    let (h0, c) = w4.carrying_mul_add(2, c, 0);
    let (h1, c) = w5.carrying_mul_add(2, c, 0);
    let (h2, h3) = w6.carrying_mul_add(2, c, 0);
    Wide {
        low: Words { l0: 0, l1, l2, l3 },
        high: Words {
            l0: h0,
            l1: h1,
            l2: h2,
            l3: h3,
        },
    }
}

// a * a.
#[inline(always)]
fn wide_square(a: Words) -> Wide
    ensures { wide result ≡ value a * value a }
{
    let Wide { low, high } = cross_products(a);
    let (l0, c) = a.l0.carrying_mul_add(a.l0, 0, low.l0);
    let (l1, c) = add_with_carry(low.l1, 0, c);
    let (l2, c) = a.l1.carrying_mul_add(a.l1, c, low.l2);
    let (l3, c) = add_with_carry(low.l3, 0, c);
    let (h0, c) = a.l2.carrying_mul_add(a.l2, c, high.l0);
    let (h1, c) = add_with_carry(high.l1, 0, c);
    let (h2, c) = a.l3.carrying_mul_add(a.l3, c, high.l2);
    let (h3, _) = add_with_carry(high.l3, 0, c);
    Wide {
        low: Words { l0, l1, l2, l3 },
        high: Words {
            l0: h0,
            l1: h1,
            l2: h2,
            l3: h3,
        },
    }
}

// (t + m * p) / 2 ^ 64, for the m that makes it whole.
#[inline(always)]
fn round(t: Words, p: Words, inverse: u64) -> Words
    requires { (p.l0 * inverse + 1) % 2 ^ 64 ≡ 0 }
    ensures { IsRound (value t) (value p) (value result) }
{
    let (_, rest) = row(t, t.l0.wrapping_mul(inverse), p);
    rest
}

// The number with a bit above it, less p where that leaves something.
#[inline(always)]
fn reduced(t: Words, top: bool, p: Words) -> Words
    requires { value t + from_bool top * 2 ^ 256 < 2 * value p }
    ensures below { value result < value p }
    ensures same { value result % value p ≡ (value t + from_bool top * 2 ^ 256) % value p }
{
    let (less, borrow) = sub(t, p);
    select(!top && borrow, t, less)
}

// t / 2 ^ 256 modulo p.
#[inline(always)]
fn reduce(t: Wide, p: Words, inverse: u64) -> Words
    requires inverse { (p.l0 * inverse + 1) % 2 ^ 64 ≡ 0 }
    requires below { wide t < value p * 2 ^ 256 }
    ensures below { value result < value p }
    ensures quotient { (value result * 2 ^ 256) % value p ≡ wide t % value p }
{
    let r = round(t.low, p, inverse);
    let r = round(r, p, inverse);
    let r = round(r, p, inverse);
    let r = round(r, p, inverse);
    let (s, carry) = add(r, t.high);
    reduced(s, carry, p)
}

/// a * b / 2 ^ 256 modulo p. Only one of the two has to be below p.
#[inline(always)]
pub fn mul(a: Words, b: Words, p: Words, inverse: u64) -> Words
    requires inverse { (p.l0 * inverse + 1) % 2 ^ 64 ≡ 0 }
    requires below { value b < value p }
    ensures below { value result < value p }
    ensures product { (value result * 2 ^ 256) % value p ≡ (value a * value b) % value p }
{
    reduce(wide_product(a, b), p, inverse)
}

/// a * a / 2 ^ 256 modulo p.
#[inline(always)]
pub fn square(a: Words, p: Words, inverse: u64) -> Words
    requires inverse { (p.l0 * inverse + 1) % 2 ^ 64 ≡ 0 }
    requires below { value a < value p }
    ensures below { value result < value p }
    ensures product { (value result * 2 ^ 256) % value p ≡ (value a * value a) % value p }
{
    reduce(wide_square(a), p, inverse)
}

/// a + b modulo p.
#[inline(always)]
pub fn sum(a: Words, b: Words, p: Words) -> Words
    requires { (value a < value p) × (value b < value p) }
    ensures below { value result < value p }
    ensures sum { value result ≡ (value a + value b) % value p }
{
    let (s, carry) = add(a, b);
    reduced(s, carry, p)
}

/// a - b modulo p.
#[inline(always)]
pub fn difference(a: Words, b: Words, p: Words) -> Words
    requires { (value a < value p) × (value b < value p) }
    ensures below { value result < value p }
    ensures difference { (value result + value b) % value p ≡ value a }
{
    let (d, borrow) = sub(a, b);
    let (more, _) = add(d, p);
    select(borrow, more, d)
}

// p where the bit is 1, and 0 where it is 0.
#[inline(always)]
fn times_bit(p: Words, bit: u64) -> Words
    requires { bit ≤ 1 }
    ensures { value result ≡ bit * value p }
{
    Words {
        l0: p.l0 * bit,
        l1: p.l1 * bit,
        l2: p.l2 * bit,
        l3: p.l3 * bit,
    }
}

/// a / 2 modulo p.
#[inline(always)]
pub fn halved(a: Words, p: Words) -> Words
    requires odd { p.l0 % 2 ≡ 1 }
    requires below { value a < value p }
    ensures below { value result < value p }
    ensures half { (value result * 2) % value p ≡ value a }
{
    let (t, top) = add(a, times_bit(p, a.l0 % 2));
    half(t, top)
}
