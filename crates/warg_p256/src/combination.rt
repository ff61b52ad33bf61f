//! Sums of multiples: `k` times the base point and `l` times another point, in one loop. A byte of
//! `k` picks a row of the base point's table, and four bits of `l` one of a table of the other's.

ghost use Rattle.std.specs.Prelude.{◌≡◌, ℕ, ◌+◌, ◌*◌, ◌^◌, ◌<◌};
ghost use Rattle.warg_modular.specs.Value.{value};
ghost use Rattle.warg_curve.specs.Curve.{Point, add, base};
ghost use Rattle.warg_curve.specs.Group.{IsOnCurve, multiple};
ghost use Rattle.warg_p256.specs.Rows.{point_of, Stands, AreMultiples};

use crate::base_table::base_multiple;
use crate::field::is_zero;
use crate::point::{Affine, Jacobian, add_affine, add_jacobian, double, from_affine, infinity};
use warg_modular::words::Words;

// The multiples 0 to 15 of a point.
fn multiples(q: Affine) -> [Jacobian; 16]
    requires { IsOnCurve (point_of q) }
    ensures { AreMultiples (point_of q) 0 result }
{
    let m1 = from_affine(q);
    let m2 = double(m1);
    let m3 = add_affine(m2, q);
    let m4 = double(m2);
    let m5 = add_affine(m4, q);
    let m6 = double(m3);
    let m7 = add_affine(m6, q);
    let m8 = double(m4);
    let m9 = add_affine(m8, q);
    let m10 = double(m5);
    let m11 = add_affine(m10, q);
    let m12 = double(m6);
    let m13 = add_affine(m12, q);
    let m14 = double(m7);
    let m15 = add_affine(m14, q);
    [
        infinity(),
        m1,
        m2,
        m3,
        m4,
        m5,
        m6,
        m7,
        m8,
        m9,
        m10,
        m11,
        m12,
        m13,
        m14,
        m15,
    ]
}

// Sixteen times a point.
fn sixteen_times(p: Jacobian) -> Jacobian
    ensures { (a : Point) → IsOnCurve a → Stands p a → Stands result (multiple 16 a) }
{
    if is_zero(p.z) {
        return p;
    }
    double(double(double(double(p))))
}

// A point and `n` times the point of the table.
fn add_multiple(p: Jacobian, table: &[Jacobian; 16], n: usize) -> Jacobian
    requires { n < 16 }
    ensures { (a q : Point) → IsOnCurve q → Stands p a → AreMultiples q 0 table.now →
        Stands result (add a (multiple n q)) }
{
    if n == 0 {
        return p;
    }
    add_jacobian(p, table[n])
}

// 256 times a point, and `n` times the point of the table.
fn add_digit(p: Jacobian, table: &[Jacobian; 16], n: usize) -> Jacobian
    requires { n < 256 }
    ensures { (a q : Point) → IsOnCurve a → IsOnCurve q → Stands p a →
        AreMultiples q 0 table.now → Stands result (add (multiple 256 a) (multiple n q)) }
{
    let high = add_multiple(sixteen_times(p), table, n / 16);
    add_multiple(sixteen_times(high), table, n % 16)
}

// A point and `n` times the base point.
fn add_base(p: Jacobian, n: usize) -> Jacobian
    requires { n < 256 }
    ensures { (a : Point) → Stands p a → Stands result (add a (multiple n base)) }
{
    if n == 0 {
        return p;
    }
    add_affine(p, base_multiple(n))
}

// 2 ^ 64 times a point, `k` times the base point and `l` times the point of the table, eight bits
// at a time.
fn add_word(p: Jacobian, table: &[Jacobian; 16], k: u64, l: u64) -> Jacobian
    ensures { (a q : Point) → IsOnCurve a → IsOnCurve q → Stands p a →
        AreMultiples q 0 table.now →
        Stands result (add (multiple (2 ^ 64) a) (add (multiple k base) (multiple l q))) }
{
    let mut r = p;
    for i in (0..8u32).rev() {
        r = add_digit(r, table, ((l >> (8 * i)) % 256) as usize);
        r = add_base(r, ((k >> (8 * i)) % 256) as usize);
    }
    r
}

/// `k` times the base point and `l` times another point of the curve.
pub(crate) fn combination(k: Words, l: Words, q: Affine) -> Jacobian
    requires { IsOnCurve (point_of q) }
    ensures { Stands result
        (add (multiple (value k) base) (multiple (value l) (point_of q))) }
{
    let table = multiples(q);
    let r = add_word(infinity(), &table, k.l3, l.l3);
    let r = add_word(r, &table, k.l2, l.l2);
    let r = add_word(r, &table, k.l1, l.l1);
    add_word(r, &table, k.l0, l.l0)
}
