//! Numbers below 2 ^ 256 in four words, the lowest first.
#![tactic(auto, unfolding(crate::specs::Value::value))]

ghost use Rattle.std.specs.Prelude.{◌≡◌, ℕ, ◌+◌, ◌*◌, ◌/◌, ◌%◌, ◌^◌, ◌<◌, ◌↔◌, IsTrue, IsFalse};
ghost use Rattle.std.specs.Int.{from_bool};
ghost use Rattle.warg_modular.specs.BigEndian.{big_endian};
ghost use Rattle.warg_modular.specs.Value.{value};

/// A number below 2 ^ 256.
#[derive(Clone, Copy)]
pub struct Words {
    pub l0: u64,
    pub l1: u64,
    pub l2: u64,
    pub l3: u64,
}

/// The sum of two words and a carry: its low word, and the carry. As a product with 1 it becomes
/// the processor's own addition with carry.
#[inline(always)]
pub fn add_with_carry(a: u64, b: u64, carry: u64) -> (u64, u64)
    ensures { result.0 + result.1 * 2 ^ 64 ≡ a + b + carry }
{
    a.carrying_mul_add(1, carry, b)
}

/// The sum modulo 2 ^ 256, and whether it passed 2 ^ 256.
#[inline(always)]
pub fn add(a: Words, b: Words) -> (Words, bool)
    ensures total { value result.0 + from_bool result.1 * 2 ^ 256 ≡ value a + value b }
    ensures below { value result.0 < 2 ^ 256 }
{
    let (l0, c) = add_with_carry(a.l0, b.l0, 0);
    let (l1, c) = add_with_carry(a.l1, b.l1, c);
    let (l2, c) = add_with_carry(a.l2, b.l2, c);
    let (l3, c) = add_with_carry(a.l3, b.l3, c);
    (Words { l0, l1, l2, l3 }, c != 0)
}

/// The difference modulo 2 ^ 256, and whether it fell below 0: `a` and the complement of `b` are
/// added, and 1.
#[inline(always)]
pub fn sub(a: Words, b: Words) -> (Words, bool)
    ensures total { value result.0 + value b ≡ value a + from_bool result.1 * 2 ^ 256 }
    ensures below { (value result.0 < 2 ^ 256) × (value a < 2 ^ 256) × (value b < 2 ^ 256) }
{
    let (l0, c) = add_with_carry(a.l0, !b.l0, 1);
    let (l1, c) = add_with_carry(a.l1, !b.l1, c);
    let (l2, c) = add_with_carry(a.l2, !b.l2, c);
    let (l3, c) = add_with_carry(a.l3, !b.l3, c);
    (Words { l0, l1, l2, l3 }, c == 0)
}

// The first where `choice` is true, and else the second, by a move and not by a branch.
#[inline(always)]
fn select_word(choice: bool, a: u64, b: u64) -> u64
    ensures first { IsTrue choice → result ≡ a }
    ensures second { IsFalse choice → result ≡ b }
{
    if choice { a } else { b }
}

/// The first where `choice` is true, and else the second, without a branch.
#[inline(always)]
pub fn select(choice: bool, a: Words, b: Words) -> Words
    ensures first { IsTrue choice → result ≡ a }
    ensures second { IsFalse choice → result ≡ b }
{
    Words {
        l0: select_word(choice, a.l0, b.l0),
        l1: select_word(choice, a.l1, b.l1),
        l2: select_word(choice, a.l2, b.l2),
        l3: select_word(choice, a.l3, b.l3),
    }
}

/// Whether the first is below the second.
#[inline(always)]
pub fn is_less(a: Words, b: Words) -> bool
    ensures { IsTrue result ↔ (value a < value b) }
{
    let (_, is_below) = sub(a, b);
    is_below
}

/// Whether the number is 0.
#[inline(always)]
pub fn is_zero(a: Words) -> bool
    ensures { IsTrue result ↔ (value a ≡ 0) }
{
    a.l0 == 0 && a.l1 == 0 && a.l2 == 0 && a.l3 == 0
}

/// Whether the two are one number.
#[inline(always)]
pub fn is_equal(a: Words, b: Words) -> bool
    ensures { IsTrue result ↔ (value a ≡ value b) }
{
    a.l0 == b.l0 && a.l1 == b.l1 && a.l2 == b.l2 && a.l3 == b.l3
}

/// Whether the bit `i` is set, the lowest being 0.
#[inline(always)]
pub fn bit(a: Words, i: u32) -> bool
    requires { i < 256 }
    ensures { IsTrue result ↔ ((value a / 2 ^ i) % 2 ≡ 1) }
{
    let Words { l0, l1, l2, l3 } = a;
    if i < 64 {
        return (l0 >> i) % 2 == 1;
    }
    if i < 128 {
        return (l1 >> (i - 64)) % 2 == 1;
    }
    if i < 192 {
        return (l2 >> (i - 128)) % 2 == 1;
    }
    (l3 >> (i - 192)) % 2 == 1
}

/// The number that the bytes write, the highest first, modulo 2 ^ 256 (SEC 1, 2.3.8).
pub fn from_be_bytes(bytes: &[u8]) -> Words
    ensures { value result ≡ big_endian bytes.now % 2 ^ 256 }
{
    let mut a = Words {
        l0: 0,
        l1: 0,
        l2: 0,
        l3: 0,
    };
    for b in bytes {
        a = shifted_in(a, *b);
    }
    a
}

// a * 256 + b modulo 2 ^ 256.
#[inline(always)]
fn shifted_in(a: Words, b: u8) -> Words
    ensures { value result ≡ (value a * 256 + b) % 2 ^ 256 }
{
    let (l0, c0) = a.l0.carrying_mul_add(256, b as u64, 0);
    let (l1, c1) = a.l1.carrying_mul_add(256, c0, 0);
    let (l2, c2) = a.l2.carrying_mul_add(256, c1, 0);
    let (l3, _) = a.l3.carrying_mul_add(256, c2, 0);
    Words { l0, l1, l2, l3 }
}

// Half of a word, with the lowest bit of the word above it.
#[inline(always)]
fn half_word(low: u64, above: u64) -> u64
    ensures { result ≡ low / 2 + above % 2 * 2 ^ 63 }
{
    low / 2 + above % 2 * 0x8000_0000_0000_0000
}

/// Half of a number with a bit above it, rounded down.
#[inline(always)]
pub fn half(a: Words, top: bool) -> Words
    ensures { value result ≡ (value a + from_bool top * 2 ^ 256) / 2 }
{
    Words {
        l0: half_word(a.l0, a.l1),
        l1: half_word(a.l1, a.l2),
        l2: half_word(a.l2, a.l3),
        l3: half_word(a.l3, top as u64),
    }
}

/// Whether the number is even.
#[inline(always)]
pub fn is_even(a: Words) -> bool
    ensures { IsTrue result ↔ (value a % 2 ≡ 0) }
{
    a.l0 % 2 == 0
}
