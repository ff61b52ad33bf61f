//! The prefix encoding of a client's value.

use crate::crypto::values::{bytes, is};
use std::alloc::AllocError;
use warg_crypto::hash::{AnyHash, Hash, HashAlgorithm, Sha256};
use warg_crypto::prefix::{PrefixEncodeVisitor, VisitPrefixEncode};
use warg_crypto::{ByteVisitor, VisitBytes};

// A point, as an example of a value with a prefix encoding.
#[derive(Drop)]
struct Point {
    x: u64,
}

impl VisitPrefixEncode for Point {
    ghost use Rattle.warg_crypto.specs.Prefix.{unsigned_of};

    ghost prefix_encoding_of = { λ p. unsigned_of p.x };

    fn visit_pe<BV: ByteVisitor>(
        &self,
        visitor: &mut PrefixEncodeVisitor<'_, BV>,
    ) -> Result<(), AllocError> {
        visitor.visit_unsigned(self.x)
    }
}

impl VisitBytes for Point {
    ghost use Rattle.warg_crypto.specs.Prefix.{unsigned_of};

    ghost bytes_of = { λ p. unsigned_of p.x };

    fn visit<V: ByteVisitor>(&self, visitor: &mut V) -> Result<(), AllocError> {
        self.visit_bv(visitor)
    }
}

#[test]
fn encoded_point(rt: HostRuntime) {
    let point = Point { x: 300 };
    let mut seen = bytes(&rt, rt.alloc(), b"(");
    point.visit_bv(&mut seen).expect(&rt, "memory");
    is(&rt, seen.as_slice(), b"(\xac\x02".as_slice());
    let hash = Hash::<Sha256>::of(&(b"(".as_slice(), &point));
    is(
        &rt,
        AnyHash::from(hash),
        HashAlgorithm::Sha256.digest(b"(\xac\x02"),
    );
}
