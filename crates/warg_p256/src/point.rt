// The group of the curve (SEC 1, 2.2.1) in Jacobian coordinates: (x / z ^ 2, y / z ^ 3), and the
// point at infinity where z is 0.

ghost use Rattle.warg_curve.specs.Curve.{Point, infinity, double, add};
ghost use Rattle.warg_p256.specs.Rows.{point_of, Stands};

use crate::field::{Element, add, is_zero, mul, one, square, sub, zero};

// Two numbers of the field: a point but the one at infinity, where they satisfy the equation.
#[derive(Clone, Copy)]
pub(crate) struct Affine {
    pub(crate) x: Element,
    pub(crate) y: Element,
}

// Three numbers of the field that stand for a point.
#[derive(Clone, Copy)]
pub(crate) struct Jacobian {
    pub(crate) x: Element,
    pub(crate) y: Element,
    pub(crate) z: Element,
}

// The point at infinity.
#[inline(always)]
pub(crate) fn infinity() -> Jacobian
    ensures { Stands result infinity }
{
    Jacobian {
        x: one(),
        y: one(),
        z: zero(),
    }
}

// The same point.
#[inline(always)]
pub(crate) fn from_affine(p: Affine) -> Jacobian
    ensures { Stands result (point_of p) }
{
    Jacobian {
        x: p.x,
        y: p.y,
        z: one(),
    }
}

// The sum of a point and itself.
pub(crate) fn double(p: Jacobian) -> Jacobian
    ensures { (a : Point) → Stands p a → Stands result (double a) }
{
    let zz = square(p.z);
    let yy = square(p.y);
    let yy2 = add(yy, yy);
    let product = mul(sub(p.x, zz), add(p.x, zz));
    let m = add(add(product, product), product);
    let s = mul(p.x, add(yy2, yy2));
    let x = sub(square(m), add(s, s));
    let t = square(yy2);
    let y = sub(mul(m, sub(s, x)), add(t, t));
    let yz = mul(p.y, p.z);
    Jacobian {
        x,
        y,
        z: add(yz, yz),
    }
}

// The sum of two points, of which the second has no z.
pub(crate) fn add_affine(p: Jacobian, q: Affine) -> Jacobian
    ensures { (a : Point) → Stands p a → Stands result (add a (point_of q)) }
{
    if is_zero(p.z) {
        return from_affine(q);
    }
    let zz = square(p.z);
    let u = mul(q.x, zz);
    let s = mul(q.y, mul(p.z, zz));
    let h = sub(u, p.x);
    let r = sub(s, p.y);
    if is_zero(h) {
        if is_zero(r) {
            return double(p);
        }
        return infinity();
    }
    let hh = square(h);
    let hhh = mul(h, hh);
    let v = mul(p.x, hh);
    let x = sub(sub(square(r), hhh), add(v, v));
    let y = sub(mul(r, sub(v, x)), mul(p.y, hhh));
    Jacobian {
        x,
        y,
        z: mul(p.z, h),
    }
}

// The sum of two points.
pub(crate) fn add_jacobian(p: Jacobian, q: Jacobian) -> Jacobian
    ensures { (a b : Point) → Stands p a → Stands q b → Stands result (add a b) }
{
    if is_zero(p.z) {
        return q;
    }
    if is_zero(q.z) {
        return p;
    }
    let pzz = square(p.z);
    let qzz = square(q.z);
    let t = mul(p.x, qzz);
    let u = mul(q.x, pzz);
    let w = mul(p.y, mul(q.z, qzz));
    let s = mul(q.y, mul(p.z, pzz));
    let h = sub(u, t);
    let r = sub(s, w);
    if is_zero(h) {
        if is_zero(r) {
            return double(p);
        }
        return infinity();
    }
    let zz = mul(p.z, q.z);
    let hh = square(h);
    let hhh = mul(h, hh);
    let v = mul(t, hh);
    let x = sub(sub(square(r), hhh), add(v, v));
    let y = sub(mul(r, sub(v, x)), mul(w, hhh));
    Jacobian {
        x,
        y,
        z: mul(zz, h),
    }
}
