// Whether a signature is one of a message by a key (SEC 1, 4.1.4; FIPS 186-5, 6.4.2).

ghost use Rattle.std.specs.Prelude.{ℕ, ◌<◌, ◌↔◌, IsTrue, List};
ghost use Rattle.warg_modular.specs.Value.{value};
ghost use Rattle.warg_p256.specs.Elements.{number};
ghost use Rattle.warg_curve.specs.Order.{order};
ghost use Rattle.warg_curve.specs.Curve.{Point};
ghost use Rattle.warg_curve.specs.Group.{IsOnCurve};
ghost use Rattle.warg_p256.specs.Ecdsa.{HasX, IsSignature, IsVerified};
ghost use Rattle.warg_p256.specs.Sec1.{IsKey};
ghost use Rattle.warg_p256.specs.Rows.{point_of, Stands};

use crate::combination::combination;
use crate::constants::{N, P_LESS_N};
use crate::point::{Affine, Jacobian};
use crate::{der, field, scalar, sec1};
use sha2::{Digest, Sha256};
use warg_modular::words::{Words, add, from_be_bytes, is_less, is_zero};

// Whether the point's x, which is x / z ^ 2, is r modulo the order: it is r, or r and the order
// more where that is below the prime. Nothing is divided.
fn has_x(p: Jacobian, r: Words) -> bool
    requires { value r < order }
    ensures { (a : Point) → Stands p a → (IsTrue result ↔ HasX a (value r)) }
{
    if field::is_zero(p.z) {
        return false;
    }
    let zz = field::square(p.z);
    let first = field::mul(field::to_montgomery(r), zz);
    if field::is_equal(first, p.x) {
        return true;
    }
    if !is_less(r, P_LESS_N) {
        return false;
    }
    let (more, _) = add(r, N);
    let second = field::mul(field::to_montgomery(more), zz);
    field::is_equal(second, p.x)
}

// Whether a number is above 0 and below the order.
fn is_scalar(a: Words) -> bool
    ensures { IsTrue result ↔ ((0 < value a) × (value a < order)) }
{
    !is_zero(a) && is_less(a, N)
}

// Whether r and s are a signature of a message with the hash e.
fn accepts(q: Affine, e: Words, r: Words, s: Words) -> bool
    requires { IsOnCurve (point_of q) }
    ensures { IsTrue result ↔ IsSignature (point_of q) (value e) (value r) (value s) }
{
    if !is_scalar(r) {
        return false;
    }
    if !is_scalar(s) {
        return false;
    }
    let w = scalar::inverse(scalar::to_montgomery(s));
    let u = scalar::mul(e, w);
    let v = scalar::mul(r, w);
    has_x(combination(u.words, v.words, q), r)
}

/// Whether the signature is one of the message by the key: ECDSA on P-256 with SHA-256 (FIPS 186-5,
/// 6.4.2). The key is a point of SEC 1, 2.3.3, compressed or not; the signature is the DER of
/// RFC 3279, 2.2.3. Any bytes are answered, and no memory is taken.
pub fn verify(key: &[u8], message: &[u8], signature: &[u8]) -> bool
    ensures { IsTrue result ↔ IsVerified key.now message.now signature.now }
{
    match sec1::parse(key) {
        Some(q) => verify_by(q, message, signature),
        None => false,
    }
}

// The same by a key that was read.
pub(crate) fn verify_by(q: Affine, message: &[u8], signature: &[u8]) -> bool
    requires { IsOnCurve (point_of q) }
    ensures { (key : List ℕ) → IsKey key (number q.x.words) (number q.y.words) →
        (IsTrue result ↔ IsVerified key message.now signature.now) }
{
    let Some(pair) = der::parse(signature) else {
        return false;
    };
    let hash: [u8; 32] = Sha256::digest(message);
    accepts(q, from_be_bytes(hash.as_slice()), pair.r, pair.s)
}
